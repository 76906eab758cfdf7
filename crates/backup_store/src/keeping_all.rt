ghost use Rattle.std.specs.Prelude.{◌≡◌, ℕ, ◌+◌, ◌-◌, ◌^◌, ◌≤◌, length, IfErr, OnOk, OnErr, IsErrOf};
ghost use Rattle.folder_core.specs.Cause.{HasCause};
ghost use Rattle.folder_core.specs.Crash.{AllImages, LeavesOnly};
ghost use Rattle.folder_core.specs.Step.{OnTold, Step};
ghost use Rattle.backup_store.specs.Fault.{IfDamaged};
ghost use Rattle.backup_store.specs.KeepingAll.{HasRoom, HasNoMark, HaveNoMarks, HaveCome, IsAmong, IsFileAmong, IsMarkAmong, TouchesOnly, IsImageBut, LeavesEntries, AreAllKept, AllCount};
ghost use Rattle.backup_store.specs.Filing.{AreFiled, AreMarked, AreEntered, AreCompleted, HasRoomForMarks};
ghost use Rattle.backup_store.specs.Turns.{AreTouches, entries_in_turn};

use crate::entry::EntryNumber;
use crate::fault::StoreFault;
use crate::filing::{file_entry, file_mark, sync_files};
use folder_core::{Folder, Touch};
use std::alloc::Global;

/// Keeps what stands at the path of each touch when its turn comes, that is once those before it are done, as the entries
/// from this number on: writes the entries, syncs, writes their marks, and syncs. None of them counts in any image before
/// the first mark is set, and then each does. It is never damaged. For each touch the earlier ones are looked through.
pub fn keep_all<F: Folder>(
    alloc: Global,
    folder: &mut F,
    first: EntryNumber,
    touches: &[Touch],
) -> Result<(), StoreFault>
    requires touches { AreTouches touches.now }
    requires range { first.0 + length touches.now ≤ 2 ^ 32 }
    requires room { OnTold (F.told folder.old) (λ s. HasRoom s first.0 (length touches.now)) }
    requires no_marks { AllImages (HaveNoMarks first.0 (length touches.now)) (F.told folder.old) }

    ensures kept { OnOk result (Step (F.told folder.old) (F.told folder.new) (λ s t. AreAllKept s first.0 touches.now t)) }
    ensures counted { OnOk result (OnTold (F.told folder.old) (λ s. AllImages (λ m. AllCount m first.0 (entries_in_turn touches.now s.now)) (F.told folder.new))) }
    // Without memory the last of them counts in no image.
    ensures no_memory { IsErrOf result StoreFault.NoMemory
        → AllImages (λ m. (k : ℕ) → first.0 ≤ k → k + 1 ≡ first.0 + length touches.now → HasNoMark k m) (F.told folder.new) }
    ensures never_damaged { IfErr result (λ fault. IfDamaged fault (λ at. ⊥)) }
    // How far it came, and what a crash at any moment of the call may have left, on every outcome.
    ensures come { Step (F.told folder.old) (F.told folder.new) (λ s t. HaveCome s first.0 touches.now t) }
    ensures leaves { OnTold (F.told folder.old) (λ s. LeavesOnly F.told F.left_since folder.old folder.new (LeavesEntries s first.0 touches.now)) }
    ensures cause { HasCause (F.faults folder.old) (F.faults folder.new) (IsErrOf result StoreFault.Failed) }
{
    enter_all(alloc, folder, first, touches)?;
    mark_all(alloc, folder, first, touches.len())
}

/// Writes the files of the entries, and syncs.
fn enter_all<F: Folder>(
    alloc: Global,
    folder: &mut F,
    first: EntryNumber,
    touches: &[Touch],
) -> Result<(), StoreFault>
    requires touches { AreTouches touches.now }
    requires range { first.0 + length touches.now ≤ 2 ^ 32 }
    requires room { OnTold (F.told folder.old) (λ s. HasRoom s first.0 (length touches.now)) }

    ensures entered { OnOk result (Step (F.told folder.old) (F.told folder.new) (λ s t. AreEntered s first.0 touches.now t)) }
    ensures only { OnErr result (Step (F.told folder.old) (F.told folder.new) (TouchesOnly (IsFileAmong first.0 (length touches.now)))) }
    ensures never_damaged { IfErr result (λ fault. IfDamaged fault (λ at. ⊥)) }
    ensures leaves { OnTold (F.told folder.old) (λ s. LeavesOnly F.told F.left_since folder.old folder.new (IsImageBut (IsFileAmong first.0 (length touches.now)) s)) }
    ensures cause { HasCause (F.faults folder.old) (F.faults folder.new) (IsErrOf result StoreFault.Failed) }
{
    file_entries(alloc, folder, first, touches)?;
    sync_files(folder)
}

fn file_entries<F: Folder>(
    alloc: Global,
    folder: &mut F,
    first: EntryNumber,
    touches: &[Touch],
) -> Result<(), StoreFault>
    requires touches { AreTouches touches.now }
    requires range { first.0 + length touches.now ≤ 2 ^ 32 }
    requires room { OnTold (F.told folder.old) (λ s. HasRoom s first.0 (length touches.now)) }

    ensures files { OnOk result (Step (F.told folder.old) (F.told folder.new) (λ s t. AreFiled first.0 (length touches.now) (entries_in_turn touches.now s.now) t.now)) }
    ensures only { Step (F.told folder.old) (F.told folder.new) (TouchesOnly (IsFileAmong first.0 (length touches.now))) }
    ensures never_damaged { IfErr result (λ fault. IfDamaged fault (λ at. ⊥)) }
    ensures leaves { OnTold (F.told folder.old) (λ s. LeavesOnly F.told F.left_since folder.old folder.new (IsImageBut (IsFileAmong first.0 (length touches.now)) s)) }
    ensures cause { HasCause (F.faults folder.old) (F.faults folder.new) (IsErrOf result StoreFault.Failed) }
{
    for place in 0..touches.len() {
        let number = EntryNumber(first.0 + place as u32);
        file_entry(
            alloc,
            folder,
            number,
            &touches[..place],
            &touches[place].path,
        )?;
    }
    Ok(())
}

/// Writes so many marks, from this number on, and syncs.
fn mark_all<F: Folder>(
    alloc: Global,
    folder: &mut F,
    first: EntryNumber,
    count: usize,
) -> Result<(), StoreFault>
    requires range { first.0 + count ≤ 2 ^ 32 }
    requires room { OnTold (F.told folder.old) (λ s. HasRoomForMarks s first.0 count) }

    ensures marked { OnOk result (Step (F.told folder.old) (F.told folder.new) (λ s t. AreCompleted s first.0 count t)) }
    ensures only { OnErr result (Step (F.told folder.old) (F.told folder.new) (TouchesOnly (IsMarkAmong first.0 count))) }
    ensures no_memory { IsErrOf result StoreFault.NoMemory → Step (F.told folder.old) (F.told folder.new) (TouchesOnly (IsMarkAmong first.0 (count - 1))) }
    ensures never_damaged { IfErr result (λ fault. IfDamaged fault (λ at. ⊥)) }
    ensures leaves { OnTold (F.told folder.old) (λ s. LeavesOnly F.told F.left_since folder.old folder.new (IsImageBut (IsMarkAmong first.0 count) s)) }
    ensures cause { HasCause (F.faults folder.old) (F.faults folder.new) (IsErrOf result StoreFault.Failed) }
{
    file_marks(alloc, folder, first, count)?;
    sync_files(folder)
}

fn file_marks<F: Folder>(
    alloc: Global,
    folder: &mut F,
    first: EntryNumber,
    count: usize,
) -> Result<(), StoreFault>
    requires range { first.0 + count ≤ 2 ^ 32 }
    requires room { OnTold (F.told folder.old) (λ s. HasRoomForMarks s first.0 count) }

    ensures marks { OnOk result (Step (F.told folder.old) (F.told folder.new) (λ s t. AreMarked first.0 count t.now)) }
    ensures only { Step (F.told folder.old) (F.told folder.new) (TouchesOnly (IsMarkAmong first.0 count)) }
    ensures no_memory { IsErrOf result StoreFault.NoMemory → Step (F.told folder.old) (F.told folder.new) (TouchesOnly (IsMarkAmong first.0 (count - 1))) }
    ensures never_damaged { IfErr result (λ fault. IfDamaged fault (λ at. ⊥)) }
    ensures leaves { OnTold (F.told folder.old) (λ s. LeavesOnly F.told F.left_since folder.old folder.new (IsImageBut (IsMarkAmong first.0 count) s)) }
    ensures cause { HasCause (F.faults folder.old) (F.faults folder.new) (IsErrOf result StoreFault.Failed) }
{
    for place in 0..count {
        file_mark(alloc, folder, EntryNumber(first.0 + place as u32))?;
    }
    Ok(())
}
