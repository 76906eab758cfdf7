ghost use Rattle.std.specs.Prelude.{◌≡◌, ◌⊎◌, OnOk, IfErr, IsErrAnd};
ghost use Rattle.folder_core.specs.Cause.{HasCause};
ghost use Rattle.folder_core.specs.Crash.{LeavesOnly};
ghost use Rattle.folder_core.specs.Step.{OnTold, Step};
ghost use Rattle.install_journal.specs.Closing.{OldOrNew, HandsBack, HasBegunClosing, HasFailed, HasNoGate, IsSynced, OnClosing, OnNoMemory};
ghost use Rattle.install_journal.specs.Open.{IsOpen, IsReady, spoiled};
ghost use Rattle.install_journal.specs.Overlay.{SameOutside};
ghost use Rattle.install_journal.specs.Restored.{RestoresSame, IsSettled};

use crate::change::{Change, Receipt};
use crate::closing::close;
use crate::fault::FinishFault;
use crate::places::gate_path;
use folder_core::{Folder, FolderError};
use std::alloc::Global;

impl Change {
    /// Makes what stands now the installation: syncs, takes the gate away, and syncs. At Ok it survives every crash.
    ///
    /// Where the gate wasn't touched, the change is handed back, and a crash still leaves the old installation. `Closing` comes
    /// only once all that stood was synced. `NoMemory` comes only where the first sync didn't fail.
    pub fn finish<F: Folder>(
        mut self,
        alloc: Global,
        folder: &mut F,
    ) -> Result<Receipt, FinishFault>
        requires ready { IsReady self }
        requires open { OnTold (F.told folder.old) (IsOpen self) }
        ensures finished { OnOk result (Step (F.told folder.old) (F.told folder.new) (λ s t. IsSettled s.now t)) }
        ensures gate_gone { OnOk result (OnTold (F.told folder.new) HasNoGate) }
        ensures stays { Step (F.told folder.old) (F.told folder.new) (λ s t. SameOutside t.now s.now) }
        ensures leaves { OnTold (F.told folder.old) (λ s. LeavesOnly F.told F.left_since folder.old folder.new (OldOrNew s.now)) }
        ensures handed_back { IfErr result (HandsBack (λ change. change ≡ spoiled self)) }
        ensures open { IfErr result (HandsBack (λ change. OnTold (F.told folder.new) (IsOpen change))) }
        ensures restores { IfErr result (HandsBack (λ change. RestoresSame F.told F.left_since folder.old folder.new)) }
        ensures closing { IfErr result (OnClosing (Step (F.told folder.old) (F.told folder.new) HasBegunClosing)) }
        ensures no_memory { IfErr result (OnNoMemory ((F.faults folder.new ≡ F.faults folder.old) ⊎ OnTold (F.told folder.new) IsSynced)) }
        ensures cause { HasCause (F.faults folder.old) (F.faults folder.new) (IsErrAnd result HasFailed) }
    {
        let Ok(gate) = gate_path(alloc) else {
            self.failed = true;
            return Err(FinishFault::NoMemory(self));
        };
        match folder.sync() {
            Ok(()) => {}
            Err(_) => {
                self.failed = true;
                return Err(FinishFault::Before(self));
            }
        }
        match close(folder, &gate) {
            Ok(()) => {
                self.spend();
                Ok(Receipt { done: () })
            }
            Err(FolderError::NoMemory) => {
                self.failed = true;
                Err(FinishFault::NoMemory(self))
            }
            Err(FolderError::Failed) => {
                self.spend();
                Err(FinishFault::Closing)
            }
        }
    }
}
