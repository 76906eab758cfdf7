ghost use Rattle.std.specs.Prelude.{◌≡◌, ⊤, IfErr, OnOk, OnErr, IsErrOf, IsErrAnd};
ghost use Rattle.folder_core.specs.Cause.{HasCause};
ghost use Rattle.folder_core.specs.Step.{OnTold, Step};
ghost use Rattle.backup_store.specs.Fault.{IfDamaged};
ghost use Rattle.backup_store.specs.Places.{gate_path};
ghost use Rattle.install_journal.specs.Abandoning.{SettlesRestored};
ghost use Rattle.install_journal.specs.Closing.{HasNoGate, MayBeOpen};
ghost use Rattle.install_journal.specs.Open.{IsOpen, left_of};
ghost use Rattle.install_journal.specs.Restored.{RestoresSame};
ghost use Rattle.install_journal.specs.Undoing.{AsksRecovery, OnDamage, IsFailure};

use crate::change::Change;
use crate::closing::close;
use crate::fault::JournalFault;
use crate::places::gate_path;
use backup_store::StoreFault;
use folder_core::{After, Folder, FolderError, Path};
use std::alloc::Global;

impl Change {
    /// Puts back what is left, the newest first, syncs, closes the gate, and syncs. At Ok the installation is exactly the
    /// old one. After a refusal a recovery gives it.
    pub fn abandon<F: Folder>(mut self, alloc: Global, folder: &mut F) -> Result<(), JournalFault>
        requires { OnTold (F.told folder.old) (IsOpen self) }
        ensures abandoned { OnOk result (Step (F.told folder.old) (F.told folder.new) SettlesRestored) }
        ensures gate_gone { OnOk result (OnTold (F.told folder.new) HasNoGate) }
        ensures tells { Step (F.told folder.old) (F.told folder.new) (λ s t. ⊤) }
        ensures restores { RestoresSame F.told F.left_since folder.old folder.new }
        ensures recover { IfErr result AsksRecovery }
        ensures open_gate { OnErr result (OnTold (F.told folder.new) MayBeOpen) }
        ensures never_damaged { IfErr result (OnDamage (λ at. OnTold (F.told folder.old) (λ s. ⊥))) }
        ensures cause { HasCause (F.faults folder.old) (F.faults folder.new) (IsErrAnd result IsFailure) }
    {
        let result = self.put_all_back(alloc, folder);
        self.spend();
        result
    }

    fn put_all_back<F: Folder>(&mut self, alloc: Global, folder: &mut F) -> Result<(), JournalFault>
        requires { OnTold (F.told folder.old) (IsOpen self.old) }
        ensures abandoned { OnOk result (Step (F.told folder.old) (F.told folder.new) SettlesRestored) }
        ensures gate_gone { OnOk result (OnTold (F.told folder.new) HasNoGate) }
        ensures tells { Step (F.told folder.old) (F.told folder.new) (λ s t. ⊤) }
        ensures restores { RestoresSame F.told F.left_since folder.old folder.new }
        ensures recover { IfErr result AsksRecovery }
        ensures open_gate { OnErr result (OnTold (F.told folder.new) MayBeOpen) }
        ensures never_damaged { IfErr result (OnDamage (λ at. OnTold (F.told folder.old) (λ s. ⊥))) }
        ensures cause { HasCause (F.faults folder.old) (F.faults folder.new) (IsErrAnd result IsFailure) }
    {
        let Ok(gate) = gate_path(alloc) else {
            return Err(JournalFault::NoMemory(After::Recover));
        };
        match self.undo_down_to(alloc, folder, 0) {
            Ok(()) => {}
            Err(StoreFault::Failed) => return Err(JournalFault::Failed(After::Recover)),
            Err(StoreFault::Damaged { path }) => return Err(JournalFault::Damaged { path }),
            Err(StoreFault::NoMemory) => return Err(JournalFault::NoMemory(After::Recover)),
        }
        match self.close_old(folder, &gate) {
            Ok(()) => Ok(()),
            Err(FolderError::Failed) => Err(JournalFault::Failed(After::Recover)),
            Err(FolderError::NoMemory) => Err(JournalFault::NoMemory(After::Recover)),
        }
    }

    /// Syncs a folder in which all entries are put back, and closes the gate.
    fn close_old<F: Folder>(&self, folder: &mut F, gate: &Path) -> Result<(), FolderError>
        requires gate { gate.now ≡ gate_path }
        requires none_left { left_of self.now ≡ 0 }
        requires open { OnTold (F.told folder.old) (IsOpen self.now) }
        ensures settled { OnOk result (Step (F.told folder.old) (F.told folder.new) SettlesRestored) }
        ensures gate_gone { OnOk result (OnTold (F.told folder.new) HasNoGate) }
        ensures tells { Step (F.told folder.old) (F.told folder.new) (λ s t. ⊤) }
        ensures restores { RestoresSame F.told F.left_since folder.old folder.new }
        ensures open_gate { OnErr result (OnTold (F.told folder.new) MayBeOpen) }
        ensures cause { HasCause (F.faults folder.old) (F.faults folder.new) (IsErrOf result FolderError.Failed) }
    {
        match folder.sync() {
            Ok(()) => close(folder, gate),
            Err(_) => Err(FolderError::Failed),
        }
    }
}
