ghost use Rattle.std.specs.Prelude.{◌≡◌, ◌<◌, ◌≤◌, ℕ, [], ◌∷◌, ◌++◌, length, Option, IfOk, IfSome, IsSomeAnd, IsErrOf};
ghost use Rattle.folder_core.specs.Cause.{HasCause};
ghost use Rattle.folder_core.specs.Name.{AreRising, AreThose};
ghost use Rattle.folder_core.specs.Step.{OnTold};
ghost use Rattle.folder_core.specs.Tree.{Files, AreFiles, HasBelow};

use crate::blob::Blob;
use crate::fault::TreeError;
use crate::name::Name;
use crate::path::Path;
use osgi_version::List;
use std::alloc::Global;

/// Files by path, which this program only reads.
pub trait Tree {
    /// The bytes of each file, for a tree that tells them.
    ghost told: { Self → Option Files };

    /// How often the tree has failed.
    ghost faults: { Self → ℕ };

    /// The names below a path at which a file stands, or below which one does, in rising order.
    fn kids(&mut self, alloc: Global, path: &Path) -> Result<List<Name>, TreeError>
        ensures kids { IfOk result (λ names. OnTold (told self.old)
            (λ files. AreThose (λ name. HasBelow files (path.now ++ name ∷ [])) names)) }
        ensures rising { IfOk result AreRising }
        ensures never_too_large { ¬ (IsErrOf result TreeError.TooLarge) }
        ensures stays { told self.new ≡ told self.old }
        ensures cause { HasCause (faults self.old) (faults self.new) (IsErrOf result TreeError.Failed) };

    /// The bytes of the file at a path, or None where there is no file. At most `limit` bytes are read.
    fn read(&mut self, alloc: Global, path: &Path, limit: u64) -> Result<Option<Blob>, TreeError>
        requires { limit ≤ 67108864 }

        ensures found { IfOk result (λ found. OnTold (told self.old) (λ files. files path.now ≡ found)) }
        ensures within { IfOk result (λ found. IfSome found (λ blob. length blob ≤ limit)) }
        ensures too_large { IsErrOf result TreeError.TooLarge
            → OnTold (told self.old) (λ files. IsSomeAnd (files path.now) (λ bytes. limit < length bytes)) }
        ensures stays { told self.new ≡ told self.old }
        ensures cause { HasCause (faults self.old) (faults self.new) (IsErrOf result TreeError.Failed) };

    /// What is told is a tree of files.
    ghost formed: { (t : Self) → OnTold (told t) AreFiles };
}
