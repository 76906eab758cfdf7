ghost use Rattle.std.specs.Prelude.{◌≡◌, IfOk, IfSome, OnOk, OnErr, IsErrOf};
ghost use Rattle.folder_core.specs.Cause.{HasCause};
ghost use Rattle.folder_core.specs.Folder.{IsKid};
ghost use Rattle.folder_core.specs.Name.{AreRising, AreThose};
ghost use Rattle.folder_core.specs.Node.{IsNode, IsSmallAt};
ghost use Rattle.folder_core.specs.Step.{OnTold};
ghost use Rattle.install_journal.specs.Looks.{OnlyLooks};
ghost use Rattle.install_journal.specs.Open.{IsOpen, IsSpoiled, spoiled};
ghost use Rattle.install_journal.specs.Restored.{RestoresSame};

use folder_core::{Folder, FolderError, Name, Node, Path};
use osgi_version::List;
use std::alloc::Global;

/// A change of the installation that has begun. It can't be dropped: `finish`, `abandon` or `leave` spends it.
///
/// Each call is made with the folder that the change was begun in.
#[derive(Debug)]
pub struct Change {
    pub(crate) kept: u32,
    pub(crate) left: u32,
    pub(crate) ready: bool,
    pub(crate) failed: bool,
}

impl Change {
    /// The node at a path, or None where there is none.
    pub fn look<F: Folder>(
        &mut self,
        alloc: Global,
        folder: &mut F,
        path: &Path,
    ) -> Result<Option<Node>, FolderError>
        requires { OnTold (F.told folder.old) (IsOpen self.old) }
        ensures found { IfOk result (λ found. OnTold (F.told folder.old) (λ s. s.now path.now ≡ found)) }
        ensures node { IfOk result (λ found. IfSome found IsNode) }
        ensures small { IfOk result (λ found. IfSome found (IsSmallAt path.now)) }
        ensures ok { OnOk result (self.new ≡ self.old) }
        ensures err { OnErr result (self.new ≡ spoiled self.old) }
        ensures looks { OnlyLooks F.told F.left_since folder.old folder.new }
        ensures open { OnTold (F.told folder.new) (IsOpen self.new) }
        ensures restores { RestoresSame F.told F.left_since folder.old folder.new }
        ensures cause { HasCause (F.faults folder.old) (F.faults folder.new) (IsErrOf result FolderError.Failed) }
    {
        match folder.look(alloc, path) {
            Ok(found) => Ok(found),
            Err(fault) => {
                self.failed = true;
                Err(fault)
            }
        }
    }

    /// The names directly below a directory, in rising order. At any other path there are none.
    pub fn kids<F: Folder>(
        &mut self,
        alloc: Global,
        folder: &mut F,
        path: &Path,
    ) -> Result<List<Name>, FolderError>
        requires { OnTold (F.told folder.old) (IsOpen self.old) }
        ensures kids { IfOk result (λ names. OnTold (F.told folder.old) (λ s. AreThose (IsKid s.now path.now) names)) }
        ensures rising { IfOk result AreRising }
        ensures ok { OnOk result (self.new ≡ self.old) }
        ensures err { OnErr result (self.new ≡ spoiled self.old) }
        ensures looks { OnlyLooks F.told F.left_since folder.old folder.new }
        ensures open { OnTold (F.told folder.new) (IsOpen self.new) }
        ensures restores { RestoresSame F.told F.left_since folder.old folder.new }
        ensures cause { HasCause (F.faults folder.old) (F.faults folder.new) (IsErrOf result FolderError.Failed) }
    {
        match folder.kids(alloc, path) {
            Ok(names) => Ok(names),
            Err(fault) => {
                self.failed = true;
                Err(fault)
            }
        }
    }

    /// Spends a change after a call on it failed, found no memory or met damage. The gate stays open, so that a recovery
    /// has to follow.
    pub fn leave(self)
        requires { IsSpoiled self }
    {
        self.spend();
    }

    pub(crate) fn spend(self) {
        let Change {
            kept: _,
            left: _,
            ready: _,
            failed: _,
        } = self;
    }
}

/// Shows that a change was finished. No call but `finish` makes one.
#[derive(Debug, Drop)]
pub struct Receipt {
    pub(crate) done: (),
}
