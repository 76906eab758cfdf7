ghost use Rattle.std.specs.Prelude.{◌≡◌, ◌+◌, ◌-◌, ◌<◌, ◌≤◌, ⊤, IfErr, OnOk, OnErr, IsErrOf};
ghost use Rattle.folder_core.specs.Cause.{HasCause};
ghost use Rattle.folder_core.specs.Step.{OnTold, Step};
ghost use Rattle.backup_store.specs.Fault.{IfDamaged};
ghost use Rattle.backup_store.specs.Places.{entry_path};
ghost use Rattle.backup_store.specs.PuttingBack.{PutsBack};
ghost use Rattle.install_journal.specs.Open.{IsOpen, left_of};
ghost use Rattle.install_journal.specs.Restored.{RestoresSame};
ghost use Rattle.install_journal.specs.Undoing.{PutsBackFrom, IsShortened, shortened};

use crate::change::Change;
use backup_store::{EntryNumber, StoreFault, put_back};
use folder_core::Folder;
use std::alloc::Global;

impl Change {
    /// Puts the newest entry back that isn't put back yet.
    pub(crate) fn put_back_newest<F: Folder>(
        &mut self,
        alloc: Global,
        folder: &mut F,
    ) -> Result<(), StoreFault>
        requires some { 0 < left_of self.old }
        requires open { OnTold (F.told folder.old) (IsOpen self.old) }
        ensures ok { OnOk result (self.new ≡ shortened (left_of self.old - 1) self.old) }
        ensures err { OnErr result (IsShortened (left_of self.old) self.old self.new) }
        ensures puts { OnOk result (Step (F.told folder.old) (F.told folder.new) (λ s t. PutsBack (left_of self.old) s.now t.now)) }
        ensures tells { Step (F.told folder.old) (F.told folder.new) (λ s t. ⊤) }
        ensures never_damaged { IfErr result (λ fault. IfDamaged fault (λ at. OnTold (F.told folder.old) (λ s. ⊥))) }
        ensures named { IfErr result (λ fault. IfDamaged fault (λ at. at ≡ entry_path (left_of self.old))) }
        ensures open { OnTold (F.told folder.new) (IsOpen self.new) }
        ensures restores { RestoresSame F.told F.left_since folder.old folder.new }
        ensures cause { HasCause (F.faults folder.old) (F.faults folder.new) (IsErrOf result StoreFault.Failed) }
    {
        self.ready = false;
        match put_back(alloc, folder, EntryNumber(self.left)) {
            Ok(()) => {
                self.left -= 1;
                Ok(())
            }
            Err(fault) => {
                self.failed = true;
                Err(fault)
            }
        }
    }

    /// Puts entries back, the newest first, until so many are left.
    pub(crate) fn undo_down_to<F: Folder>(
        &mut self,
        alloc: Global,
        folder: &mut F,
        rest: u32,
    ) -> Result<(), StoreFault>
        requires rest { rest ≤ left_of self.old }
        requires open { OnTold (F.told folder.old) (IsOpen self.old) }
        ensures ok { OnOk result (self.new ≡ shortened rest self.old) }
        ensures err { OnErr result (IsShortened (rest + 1) self.old self.new) }
        ensures puts { OnOk result (Step (F.told folder.old) (F.told folder.new) (λ s t. PutsBackFrom (left_of self.old - rest) (left_of self.old) s.now t.now)) }
        ensures tells { Step (F.told folder.old) (F.told folder.new) (λ s t. ⊤) }
        ensures never_damaged { IfErr result (λ fault. IfDamaged fault (λ at. OnTold (F.told folder.old) (λ s. ⊥))) }
        ensures named { IfErr result (λ fault. IfDamaged fault (λ at. at ≡ entry_path (left_of self.new))) }
        ensures open { OnTold (F.told folder.new) (IsOpen self.new) }
        ensures restores { RestoresSame F.told F.left_since folder.old folder.new }
        ensures cause { HasCause (F.faults folder.old) (F.faults folder.new) (IsErrOf result StoreFault.Failed) }
    {
        self.ready = false;
        'entries: while self.left > rest {
            self.put_back_newest(alloc, folder)?;
        }
        Ok(())
    }

    /// Puts every entry back from the newest that isn't put back yet down to this one, the newest first. Where it is
    /// refused, the entries that weren't put back stay kept.
    ///
    /// `Damaged` comes exactly where an entry's file is no entry's text, or its path is `.p2` or below it, and never over a
    /// folder that keeps what the change kept. It names the entry's file.
    pub fn undo_last<F: Folder>(
        &mut self,
        alloc: Global,
        folder: &mut F,
        number: EntryNumber,
    ) -> Result<(), StoreFault>
        requires first { 0 < number.0 }
        requires kept { number.0 ≤ left_of self.old }
        requires open { OnTold (F.told folder.old) (IsOpen self.old) }
        ensures ok { OnOk result (self.new ≡ shortened (number.0 - 1) self.old) }
        ensures err { OnErr result (IsShortened number.0 self.old self.new) }
        ensures puts { OnOk result (Step (F.told folder.old) (F.told folder.new) (λ s t. PutsBackFrom (left_of self.old - (number.0 - 1)) (left_of self.old) s.now t.now)) }
        ensures tells { Step (F.told folder.old) (F.told folder.new) (λ s t. ⊤) }
        ensures never_damaged { IfErr result (λ fault. IfDamaged fault (λ at. OnTold (F.told folder.old) (λ s. ⊥))) }
        ensures named { IfErr result (λ fault. IfDamaged fault (λ at. at ≡ entry_path (left_of self.new))) }
        ensures open { OnTold (F.told folder.new) (IsOpen self.new) }
        ensures restores { RestoresSame F.told F.left_since folder.old folder.new }
        ensures cause { HasCause (F.faults folder.old) (F.faults folder.new) (IsErrOf result StoreFault.Failed) }
    {
        self.undo_down_to(alloc, folder, number.0 - 1)
    }
}
