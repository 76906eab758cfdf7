ghost use Rattle.std.specs.Prelude.{◌≡◌, IfErr, OnOk, IsErrOf};
ghost use Rattle.folder_core.specs.Cause.{HasCause};
ghost use Rattle.folder_core.specs.Crash.{IsImage, Elapses};
ghost use Rattle.folder_core.specs.Step.{OnTold, Step};
ghost use Rattle.backup_store.specs.Fault.{IfDamaged, IsUndone};
ghost use Rattle.backup_store.specs.Held.{IsDamaged};
ghost use Rattle.backup_store.specs.Places.{entry_path};
ghost use Rattle.backup_store.specs.PuttingBack.{HasRoomBack, PutsBack, SameButRestored, TouchesRestored};

use crate::entry::EntryNumber;
use crate::fault::StoreFault;
use crate::looking::read_kept;
use crate::places::entry_path;
use folder_core::Folder;
use std::alloc::Global;

/// Sets the path of the entry of this number to the entry's old node. `Damaged` comes exactly where the entry's file is no
/// entry's text, or the entry's path is `.p2` or lies below it. It has the path of the entry's file.
pub fn put_back<F: Folder>(
    alloc: Global,
    folder: &mut F,
    number: EntryNumber,
) -> Result<(), StoreFault>
    requires { OnTold (F.told folder.old) (λ s. HasRoomBack s.now number.0) }

    ensures puts { OnOk result (Step (F.told folder.old) (F.told folder.new) (λ s t. PutsBack number.0 s.now t.now)) }
    ensures damaged { IfErr result (λ fault. IfDamaged fault (λ at. OnTold (F.told folder.old) (λ s. IsDamaged s.now number.0))) }
    ensures named { IfErr result (λ fault. IfDamaged fault (λ at. at ≡ entry_path number.0)) }
    // Damage and want of memory leave everything as it was.
    ensures undone { IfErr result (λ fault. IsUndone fault
        → Step (F.told folder.old) (F.told folder.new) (λ s t. (t.now ≡ s.now) × (t.touched ≡ s.touched))) }
    ensures elsewhere { Step (F.told folder.old) (F.told folder.new) (λ s t. SameButRestored number.0 s.now t.now) }
    ensures crash { Step (F.told folder.old) (F.told folder.new) (TouchesRestored number.0) }
    ensures time { Step (F.told folder.old) (F.told folder.new)
        (λ s t. Elapses s.moment t.moment (F.left_since folder.old) (F.left_since folder.new) (IsImage t)) }
    ensures cause { HasCause (F.faults folder.old) (F.faults folder.new) (IsErrOf result StoreFault.Failed) }
{
    let found = read_kept(alloc, folder, number)?;
    match found {
        Some(entry) => Ok(folder.set(&entry.path, entry.before.as_ref())?),
        None => Err(StoreFault::Damaged {
            path: entry_path(alloc, number)?,
        }),
    }
}
