ghost use Rattle.std.specs.Prelude.{◌≡◌, ◌≢◌, ◌⊎◌, ◌^◌, ◌<◌, [], IfOk, IfErr, IfSome, OnOk, OnErr, IsErrOf, Some};
ghost use Rattle.folder_core.specs.Cause.{HasCause};
ghost use Rattle.folder_core.specs.Crash.{AllImages, IsImage, Elapses, LeavesOnly};
ghost use Rattle.folder_core.specs.Step.{OnTold, Step};
ghost use Rattle.folder_core.specs.Folder.{CanSet};
ghost use Rattle.folder_core.specs.Node.{IsNode};
ghost use Rattle.backup_store.specs.Entry.{IsEntry};
ghost use Rattle.backup_store.specs.Fault.{IfDamaged};
ghost use Rattle.backup_store.specs.Keeping.{HasRoom, HasNoMark, SameButEntry, HasCome, IsBegun, LeavesEntry, IsKept, IsCounted};
ghost use Rattle.backup_store.specs.Places.{entry_path, mark_path, IsOutside};
ghost use Rattle.backup_store.specs.Looking.{IsStill};
ghost use Rattle.backup_store.specs.Settling.{IsTouchedImage, IsSettled, IsUnsettled, IsEntered, entry_touch, mark_touch};

use crate::entry::EntryNumber;
use crate::fault::StoreFault;
use crate::filing::{mark_touch, prepare};
use crate::settling::settle;
use folder_core::{Folder, Path, Touch};
use std::alloc::Global;

/// Keeps what stands at a path as the entry of this number: writes the entry, syncs, writes its mark, and syncs. The entry
/// counts in no image before its mark is set, and then in each. It is never damaged.
pub fn keep<F: Folder>(
    alloc: Global,
    folder: &mut F,
    number: EntryNumber,
    path: &Path,
) -> Result<(), StoreFault>
    requires not_root { path.now ≢ [] }
    requires outside { IsOutside path.now }
    requires room { OnTold (F.told folder.old) (λ s. HasRoom s number.0) }
    requires no_mark { AllImages (HasNoMark number.0) (F.told folder.old) }

    ensures kept { OnOk result (Step (F.told folder.old) (F.told folder.new) (λ s t. IsKept s number.0 path.now t)) }
    ensures counted { OnOk result (OnTold (F.told folder.old) (λ s. AllImages (IsCounted s number.0 path.now) (F.told folder.new))) }
    // Without memory the entry counts in no image.
    ensures no_memory { IsErrOf result StoreFault.NoMemory → AllImages (HasNoMark number.0) (F.told folder.new) }
    ensures never_damaged { IfErr result (λ fault. IfDamaged fault (λ at. ⊥)) }
    ensures elsewhere { Step (F.told folder.old) (F.told folder.new) (λ s t. SameButEntry number.0 s.now t.now) }
    // How far it came, and what a crash at any moment of the call may have left, on every outcome.
    ensures come { Step (F.told folder.old) (F.told folder.new) (λ s t. HasCome s number.0 path.now t) }
    ensures leaves { OnTold (F.told folder.old) (λ s. LeavesOnly F.told F.left_since folder.old folder.new (LeavesEntry s number.0 path.now)) }
    ensures cause { HasCause (F.faults folder.old) (F.faults folder.new) (IsErrOf result StoreFault.Failed) }
{
    enter(alloc, folder, number, path)?;
    mark(alloc, folder, number)
}

/// Writes the entry, and syncs.
fn enter<F: Folder>(
    alloc: Global,
    folder: &mut F,
    number: EntryNumber,
    path: &Path,
) -> Result<(), StoreFault>
    requires outside { IsOutside path.now }
    requires room { OnTold (F.told folder.old) (λ s. HasRoom s number.0) }
    requires no_mark { AllImages (HasNoMark number.0) (F.told folder.old) }

    ensures ok { OnOk result (Step (F.told folder.old) (F.told folder.new) (λ s t. IsEntered s number.0 path.now t)) }
    ensures err { OnErr result (Step (F.told folder.old) (F.told folder.new) (λ s t. IsBegun s number.0 t)) }
    ensures elsewhere { OnErr result (Step (F.told folder.old) (F.told folder.new) (λ s t. SameButEntry number.0 s.now t.now)) }
    ensures no_mark { AllImages (HasNoMark number.0) (F.told folder.new) }
    ensures never_damaged { IfErr result (λ fault. IfDamaged fault (λ at. ⊥)) }
    ensures leaves { OnTold (F.told folder.old) (λ s. LeavesOnly F.told F.left_since folder.old folder.new (LeavesEntry s number.0 path.now)) }
    ensures cause { HasCause (F.faults folder.old) (F.faults folder.new) (IsErrOf result StoreFault.Failed) }
{
    let touch = prepare(alloc, folder, number, &[], path)?;
    settle(folder, &touch)
}

/// Writes the entry's mark, and syncs.
fn mark<F: Folder>(alloc: Global, folder: &mut F, number: EntryNumber) -> Result<(), StoreFault>
    requires { OnTold (F.told folder.old) (λ s. CanSet s.now (mark_path number.0)) }

    ensures ok { OnOk result (Step (F.told folder.old) (F.told folder.new) (IsSettled (mark_touch number.0))) }
    ensures err { OnErr result (Step (F.told folder.old) (F.told folder.new) (IsUnsettled (mark_touch number.0))) }
    ensures no_memory { IsErrOf result StoreFault.NoMemory → Step (F.told folder.old) (F.told folder.new) IsStill }
    ensures never_damaged { IfErr result (λ fault. IfDamaged fault (λ at. ⊥)) }
    ensures time { Step (F.told folder.old) (F.told folder.new) (λ s t. Elapses s.moment t.moment (F.left_since folder.old)
        (F.left_since folder.new) (λ m. IsTouchedImage (mark_path number.0) s m ⊎ IsImage t m)) }
    ensures cause { HasCause (F.faults folder.old) (F.faults folder.new) (IsErrOf result StoreFault.Failed) }
{
    let touch = mark_touch(alloc, number)?;
    settle(folder, &touch)
}
