ghost use Rattle.std.specs.Prelude.{◌≡◌, ◌≢◌, [], ◌+◌, ◌↔◌, IfOk, IfErr, IfSome, OnOk, OnErr, IsErrOf};
ghost use Rattle.std.specs.Option.{option_copied};
ghost use Rattle.folder_core.specs.Cause.{HasCause};
ghost use Rattle.folder_core.specs.Folder.{CanSet, set_at};
ghost use Rattle.folder_core.specs.Node.{IsNode, IsSmallAt};
ghost use Rattle.folder_core.specs.Step.{OnTold, Step};
ghost use Rattle.backup_store.specs.Held.{HoldsEntry};
ghost use Rattle.backup_store.specs.Places.{IsOutside};
ghost use Rattle.install_journal.specs.Open.{IsOpen, IsReady, entries_of};
ghost use Rattle.install_journal.specs.Overlay.{SameOutside};
ghost use Rattle.install_journal.specs.Restored.{RestoresSame};
ghost use Rattle.install_journal.specs.Touching.{lengthened, refused, IsRefused, SameOutsideBut};

use crate::change::Change;
use crate::fault::TouchFault;
use backup_store::{EntryNumber, StoreFault, keep};
use folder_core::{Folder, FolderError, Node, Path};
use std::alloc::Global;

pub(crate) const MOST_ENTRIES: u32 = 1_000_000;

impl Change {
    /// Keeps what stands at a path as an entry, and then puts a node there, or takes the one there away.
    ///
    /// After a refusal only `look`, `kids`, `undo_last`, `abandon` and `leave` may be called. The path is untouched then, but
    /// where the folder failed: it may have any node or none then. If an entry was kept, it is this path's.
    pub fn touch<F: Folder>(
        &mut self,
        alloc: Global,
        folder: &mut F,
        path: &Path,
        to: Option<&Node>,
    ) -> Result<EntryNumber, TouchFault>
        requires ready { IsReady self.old }
        requires not_root { path.now ≢ [] }
        requires outside { IsOutside path.now }
        requires place { OnTold (F.told folder.old) (λ s. CanSet s.now path.now) }
        requires node { IfSome (option_copied to) IsNode }
        requires small { IfSome (option_copied to) (IsSmallAt path.now) }
        requires open { OnTold (F.told folder.old) (IsOpen self.old) }

        ensures number { IfOk result (λ number. number.0 ≡ entries_of self.old + 1) }
        ensures kept { OnOk result (self.new ≡ lengthened self.old) }
        ensures ready { OnOk result (IsReady self.new) }
        ensures entry { IfOk result (λ number. Step (F.told folder.old) (F.told folder.new) (λ s t. HoldsEntry t.now number.0 path.now (s.now path.now))) }
        ensures newest { OnErr result (entries_of self.new ≡ entries_of self.old + 1 → Step (F.told folder.old) (F.told folder.new) (λ s t. HoldsEntry t.now (entries_of self.old + 1) path.now (s.now path.now))) }
        ensures sets { OnOk result (Step (F.told folder.old) (F.told folder.new) (λ s t. SameOutside t.now (set_at s.now path.now (option_copied to.entry)))) }
        ensures elsewhere { Step (F.told folder.old) (F.told folder.new) (λ s t. SameOutsideBut path.now s.now t.now) }
        ensures refused { IfErr result (λ fault. IsRefused fault self.old self.new) }
        ensures too_many { IsErrOf result TouchFault.TooManyEntries ↔ (entries_of self.old ≡ 1000000) }
        ensures untouched { IfErr result (λ fault. fault ≢ TouchFault.Failed → Step (F.told folder.old) (F.told folder.new) (λ s t. SameOutside t.now s.now)) }
        ensures open { OnTold (F.told folder.new) (IsOpen self.new) }
        ensures restores { RestoresSame F.told F.left_since folder.old folder.new }
        ensures cause { HasCause (F.faults folder.old) (F.faults folder.new) (IsErrOf result TouchFault.Failed) }
    {
        if self.kept >= MOST_ENTRIES {
            self.ready = false;
            return Err(TouchFault::TooManyEntries);
        }
        let number = EntryNumber(self.kept + 1);
        match keep(alloc, folder, number, path) {
            Ok(()) => {}
            Err(StoreFault::NoMemory) => return Err(self.refuse(TouchFault::NoMemory)),
            Err(StoreFault::Failed) => return Err(self.refuse(TouchFault::Failed)),
            Err(StoreFault::Damaged { .. }) => unreachable!(),
        }
        self.kept += 1;
        self.left += 1;
        match folder.set(path, to) {
            Ok(()) => Ok(number),
            Err(FolderError::NoMemory) => Err(self.refuse(TouchFault::NoMemory)),
            Err(FolderError::Failed) => Err(self.refuse(TouchFault::Failed)),
        }
    }

    pub(crate) fn refuse(&mut self, fault: TouchFault) -> TouchFault
        requires { fault ≢ TouchFault.TooManyEntries }
        ensures fault { result ≡ fault }
        ensures change { self.new ≡ refused fault self.old }
    {
        self.ready = false;
        self.failed = true;
        fault
    }
}
