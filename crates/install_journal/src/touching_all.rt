ghost use Rattle.std.specs.Prelude.{◌≡◌, ◌≢◌, ℕ, suc, ◌+◌, ◌-◌, ◌<◌, ◌≤◌, ◌↔◌, length, take, IfErr, OnOk, OnErr, IsErrOf};
ghost use Rattle.std.proofs.Math.ListN.{drop};
ghost use Rattle.folder_core.specs.Cause.{HasCause};
ghost use Rattle.folder_core.specs.Folder.{SameBut, set_at};
ghost use Rattle.folder_core.specs.Step.{OnTold, Step};
ghost use Rattle.backup_store.specs.KeepingAll.{HoldEntries};
ghost use Rattle.backup_store.specs.Turns.{AreTouches, CanSetInTurn, entries_in_turn, set_in_turn};
ghost use Rattle.install_journal.specs.Ahead.{IsAhead, IsCut, IsCutAt};
ghost use Rattle.install_journal.specs.Open.{IsOpen, IsReady, entries_of, left_of};
ghost use Rattle.install_journal.specs.Overlay.{SameOutside};
ghost use Rattle.install_journal.specs.Restored.{RestoresSame};
ghost use Rattle.install_journal.specs.Touching.{AreRefused, HasReached, kept_more, reached, refused, touch_at};

use crate::change::Change;
use crate::fault::TouchFault;
use crate::touching::MOST_ENTRIES;
use backup_store::{EntryNumber, StoreFault, keep_all};
use folder_core::{Folder, FolderError, Touch};
use std::alloc::Global;

impl Change {
    /// Keeps what stands at the path of each touch when its turn comes, as the next entries in order, and then does the
    /// touches one after the other. However many they are, the folder is synced twice.
    ///
    /// After a refusal only `look`, `kids`, `undo_last`, `abandon` and `leave` may be called. Where the entries were kept,
    /// the touches before the refused one are done then, and those behind it aren't: their entries count as put back.
    pub fn touch_all<F: Folder>(
        &mut self,
        alloc: Global,
        folder: &mut F,
        touches: &[Touch],
    ) -> Result<(), TouchFault>
        requires ready { IsReady self.old }
        requires touches { AreTouches touches.now }
        requires places { OnTold (F.told folder.old) (λ s. CanSetInTurn touches.now s.now) }
        requires open { OnTold (F.told folder.old) (IsOpen self.old) }

        ensures kept { OnOk result (self.new ≡ reached (length touches.now) (kept_more (length touches.now) self.old)) }
        ensures ready { OnOk result (IsReady self.new) }
        ensures entries { entries_of self.new ≡ entries_of self.old + length touches.now
            → Step (F.told folder.old) (F.told folder.new) (λ s t. HoldEntries t.now (entries_of self.old + 1) (entries_in_turn touches.now s.now)) }
        ensures sets { OnOk result (Step (F.told folder.old) (F.told folder.new) (λ s t. SameOutside t.now (set_in_turn touches.now s.now))) }
        ensures refused { IfErr result (λ fault. AreRefused fault (length touches.now) self.old self.new) }
        ensures reached { OnErr result (Step (F.told folder.old) (F.told folder.new) (λ s t. HasReached (left_of self.new - left_of self.old) touches.now s.now t.now)) }
        ensures untouched { IfErr result (λ fault. fault ≢ TouchFault.Failed
            → Step (F.told folder.old) (F.told folder.new) (λ s t. SameOutside t.now (set_in_turn (take (left_of self.new - left_of self.old - 1) touches.now) s.now))) }
        ensures too_many { IsErrOf result TouchFault.TooManyEntries ↔ (1000000 < entries_of self.old + length touches.now) }
        ensures open { OnTold (F.told folder.new) (IsOpen self.new) }
        ensures restores { RestoresSame F.told F.left_since folder.old folder.new }
        ensures cause { HasCause (F.faults folder.old) (F.faults folder.new) (IsErrOf result TouchFault.Failed) }
    {
        if touches.len() > (MOST_ENTRIES - self.kept) as usize {
            self.ready = false;
            return Err(TouchFault::TooManyEntries);
        }
        match self.keep_entries(alloc, folder, touches) {
            Ok(()) => self.set_all(folder, touches),
            Err(fault) => Err(fault),
        }
    }

    /// Keeps the entries of touches.
    fn keep_entries<F: Folder>(
        &mut self,
        alloc: Global,
        folder: &mut F,
        touches: &[Touch],
    ) -> Result<(), TouchFault>
        requires ready { IsReady self.old }
        requires few { entries_of self.old + length touches.now ≤ 1000000 }
        requires touches { AreTouches touches.now }
        requires places { OnTold (F.told folder.old) (λ s. CanSetInTurn touches.now s.now) }
        requires open { OnTold (F.told folder.old) (IsOpen self.old) }

        ensures kept { OnOk result (self.new ≡ kept_more (length touches.now) self.old) }
        ensures refused { IfErr result (λ fault. (fault ≢ TouchFault.TooManyEntries) × (self.new ≡ refused fault self.old)) }
        ensures ahead { OnOk result (OnTold (F.told folder.new) (IsAhead self.new touches.now)) }
        ensures entries { OnOk result (Step (F.told folder.old) (F.told folder.new) (λ s t. HoldEntries t.now (entries_of self.old + 1) (entries_in_turn touches.now s.now))) }
        ensures same { Step (F.told folder.old) (F.told folder.new) (λ s t. SameOutside t.now s.now) }
        ensures open { OnErr result (OnTold (F.told folder.new) (IsOpen self.new)) }
        ensures restores { RestoresSame F.told F.left_since folder.old folder.new }
        ensures cause { HasCause (F.faults folder.old) (F.faults folder.new) (IsErrOf result TouchFault.Failed) }
    {
        match keep_all(alloc, folder, EntryNumber(self.kept + 1), touches) {
            Ok(()) => {
                self.kept += touches.len() as u32;
                Ok(())
            }
            Err(StoreFault::NoMemory) => Err(self.refuse(TouchFault::NoMemory)),
            Err(StoreFault::Failed) => Err(self.refuse(TouchFault::Failed)),
            Err(StoreFault::Damaged { .. }) => unreachable!(),
        }
    }

    /// Does touches whose entries are kept, in turn.
    fn set_all<F: Folder>(&mut self, folder: &mut F, touches: &[Touch]) -> Result<(), TouchFault>
        requires touches { AreTouches touches.now }
        requires few { left_of self.old + length touches.now ≤ entries_of self.old }
        requires ahead { OnTold (F.told folder.old) (IsAhead self.old touches.now) }

        ensures reached { OnOk result (self.new ≡ reached (length touches.now) self.old) }
        ensures sets { OnOk result (Step (F.told folder.old) (F.told folder.new) (λ s t. t.now ≡ set_in_turn touches.now s.now)) }
        ensures cut { IfErr result (λ fault. (done : ℕ) × ((done < length touches.now) × ((self.new ≡ refused fault (reached (suc done) self.old))
            × Step (F.told folder.old) (F.told folder.new) (λ s t. IsCutAt fault done touches.now s.now t.now)))) }
        ensures few { ¬ (IsErrOf result TouchFault.TooManyEntries) }
        ensures open { OnTold (F.told folder.new) (IsOpen self.new) }
        ensures restores { RestoresSame F.told F.left_since folder.old folder.new }
        ensures cause { HasCause (F.faults folder.old) (F.faults folder.new) (IsErrOf result TouchFault.Failed) }
    {
        for place in 0..touches.len() {
            match self.set_next(folder, touches, place) {
                Ok(()) => {}
                Err(fault) => return Err(fault),
            }
        }
        Ok(())
    }

    /// Does the first touch that isn't done.
    fn set_next<F: Folder>(
        &mut self,
        folder: &mut F,
        touches: &[Touch],
        place: usize,
    ) -> Result<(), TouchFault>
        requires touches { AreTouches touches.now }
        requires here { place < length touches.now }
        requires few { left_of self.old < entries_of self.old }
        requires ahead { OnTold (F.told folder.old) (IsAhead self.old (drop place touches.now)) }

        ensures reached { OnOk result (self.new ≡ reached 1 self.old) }
        ensures refused { IfErr result (λ fault. self.new ≡ refused fault (reached 1 self.old)) }
        ensures few { ¬ (IsErrOf result TouchFault.TooManyEntries) }
        ensures ahead { OnOk result (OnTold (F.told folder.new) (IsAhead self.new (drop (suc place) touches.now))) }
        ensures open { OnErr result (OnTold (F.told folder.new) (IsOpen self.new)) }
        ensures sets { OnOk result (Step (F.told folder.old) (F.told folder.new)
            (λ s t. t.now ≡ set_at s.now (touch_at touches.now place).path (touch_at touches.now place).node)) }
        ensures cut { IfErr result (λ fault. Step (F.told folder.old) (F.told folder.new) (λ s t. IsCut fault (touch_at touches.now place).path s.now t.now)) }
        ensures elsewhere { Step (F.told folder.old) (F.told folder.new) (λ s t. SameBut (touch_at touches.now place).path s.now t.now) }
        ensures restores { RestoresSame F.told F.left_since folder.old folder.new }
        ensures cause { HasCause (F.faults folder.old) (F.faults folder.new) (IsErrOf result TouchFault.Failed) }
    {
        let touch = &touches[place];
        self.left += 1;
        match folder.set(&touch.path, touch.node.as_ref()) {
            Ok(()) => Ok(()),
            Err(FolderError::NoMemory) => Err(self.refuse(TouchFault::NoMemory)),
            Err(FolderError::Failed) => Err(self.refuse(TouchFault::Failed)),
        }
    }
}
