ghost use Rattle.std.specs.Prelude.{◌≡◌, ◌^◌, ◌<◌, Some, IfOk, IfErr, IfSome, OnOk, OnErr, IsErrOf};
ghost use Rattle.folder_core.specs.Cause.{HasCause};
ghost use Rattle.folder_core.specs.Crash.{IsImage, Narrows, Elapses};
ghost use Rattle.folder_core.specs.Folder.{CanSet, set_at};
ghost use Rattle.folder_core.specs.Node.{IsNode, IsSmallAt};
ghost use Rattle.folder_core.specs.Step.{OnTold, Step};
ghost use Rattle.folder_core.specs.declared.node.Node.TheVariants as node;
ghost use Rattle.backup_store.specs.declared.fault.StoreFault.TheVariants as store_fault;
ghost use Rattle.backup_store.specs.Entry.{IsEntry, IsSmall};
ghost use Rattle.backup_store.specs.Fault.{IfDamaged};
ghost use Rattle.backup_store.specs.KeepingAll.{TouchesOnly};
ghost use Rattle.backup_store.specs.Looking.{IsStill};
ghost use Rattle.backup_store.specs.Places.{entry_path, mark_path, IsOutside};
ghost use Rattle.backup_store.specs.Filing.{entry_file, mark_file, IsSync};
ghost use Rattle.backup_store.specs.Settling.{entry_touch, mark_touch};
ghost use Rattle.backup_store.specs.Turns.{AreTouches, set_in_turn};

use crate::entry::{Entry, EntryNumber};
use crate::fault::StoreFault;
use crate::places::{entry_path, mark_path};
use crate::turns::look_in_turn;
use crate::writing::write_entry;
use folder_core::{Blob, Folder, Node, Path, Touch};
use osgi_version::{List, NoMemory, Twin};
use std::alloc::Global;

/// Writes the file of an entry of what stands at a path once the earlier touches are done. It isn't synced.
pub(crate) fn file_entry<F: Folder>(
    alloc: Global,
    folder: &mut F,
    number: EntryNumber,
    earlier: &[Touch],
    path: &Path,
) -> Result<(), StoreFault>
    requires earlier { AreTouches earlier.now }
    requires outside { IsOutside path.now }
    requires place { OnTold (F.told folder.old) (λ s. CanSet s.now (entry_path number.0)) }

    ensures entry { OnOk result (OnTold (F.told folder.old) (λ s. IsEntry path.now (set_in_turn earlier.now s.now path.now))) }
    ensures sets { OnOk result (Step (F.told folder.old) (F.told folder.new)
        (λ s t. t.now ≡ set_at s.now (entry_path number.0) (entry_file path.now (set_in_turn earlier.now s.now path.now)))) }
    ensures only { Step (F.told folder.old) (F.told folder.new) (TouchesOnly (λ place. place ≡ entry_path number.0)) }
    ensures never_damaged { IfErr result (λ fault. IfDamaged fault (λ at. ⊥)) }
    ensures time { Step (F.told folder.old) (F.told folder.new)
        (λ s t. Elapses s.moment t.moment (F.left_since folder.old) (F.left_since folder.new) (IsImage t)) }
    ensures cause { HasCause (F.faults folder.old) (F.faults folder.new) (IsErrOf result StoreFault.Failed) }
{
    let touch = prepare(alloc, folder, number, earlier, path)?;
    put(folder, &touch)
}

/// Writes the mark of an entry. It isn't synced.
pub(crate) fn file_mark<F: Folder>(
    alloc: Global,
    folder: &mut F,
    number: EntryNumber,
) -> Result<(), StoreFault>
    requires { OnTold (F.told folder.old) (λ s. CanSet s.now (mark_path number.0)) }

    ensures sets { OnOk result (Step (F.told folder.old) (F.told folder.new) (λ s t. t.now ≡ set_at s.now (mark_path number.0) mark_file)) }
    ensures only { Step (F.told folder.old) (F.told folder.new) (TouchesOnly (λ place. place ≡ mark_path number.0)) }
    ensures no_memory { IsErrOf result StoreFault.NoMemory → Step (F.told folder.old) (F.told folder.new) IsStill }
    ensures never_damaged { IfErr result (λ fault. IfDamaged fault (λ at. ⊥)) }
    ensures time { Step (F.told folder.old) (F.told folder.new)
        (λ s t. Elapses s.moment t.moment (F.left_since folder.old) (F.left_since folder.new) (IsImage t)) }
    ensures cause { HasCause (F.faults folder.old) (F.faults folder.new) (IsErrOf result StoreFault.Failed) }
{
    let touch = mark_touch(alloc, number)?;
    put(folder, &touch)
}

fn put<F: Folder>(folder: &mut F, touch: &Touch) -> Result<(), StoreFault>
    requires place { OnTold (F.told folder.old) (λ s. CanSet s.now touch.now.path) }
    requires node { IfSome touch.now.node IsNode }
    requires small { IfSome touch.now.node (IsSmallAt touch.now.path) }

    ensures sets { OnOk result (Step (F.told folder.old) (F.told folder.new) (λ s t. t.now ≡ set_at s.now touch.now.path touch.now.node)) }
    ensures only { Step (F.told folder.old) (F.told folder.new) (TouchesOnly (λ place. place ≡ touch.now.path)) }
    ensures no_memory { IsErrOf result StoreFault.NoMemory → Step (F.told folder.old) (F.told folder.new) IsStill }
    ensures never_damaged { IfErr result (λ fault. IfDamaged fault (λ at. ⊥)) }
    ensures time { Step (F.told folder.old) (F.told folder.new)
        (λ s t. Elapses s.moment t.moment (F.left_since folder.old) (F.left_since folder.new) (IsImage t)) }
    ensures cause { HasCause (F.faults folder.old) (F.faults folder.new) (IsErrOf result StoreFault.Failed) }
{
    folder.set(&touch.path, touch.node.as_ref())?;
    Ok(())
}

/// Syncs what was written.
pub(crate) fn sync_files<F: Folder>(folder: &mut F) -> Result<(), StoreFault>
    ensures ok { OnOk result (Step (F.told folder.old) (F.told folder.new) IsSync) }
    ensures err { OnErr result (Step (F.told folder.old) (F.told folder.new) IsStill) }
    ensures crash { Step (F.told folder.old) (F.told folder.new) Narrows }
    ensures failed { IfErr result (λ fault. fault ≡ store_fault.Failed) }
    ensures time { Step (F.told folder.old) (F.told folder.new)
        (λ s t. Elapses s.moment t.moment (F.left_since folder.old) (F.left_since folder.new) (IsImage t)) }
    ensures cause { HasCause (F.faults folder.old) (F.faults folder.new) (IsErrOf result StoreFault.Failed) }
{
    folder.sync()?;
    Ok(())
}

/// The file of an entry of what stands at a path once the earlier touches are done. It has all the memory that is needed,
/// and is written later.
pub(crate) fn prepare<F: Folder>(
    alloc: Global,
    folder: &mut F,
    number: EntryNumber,
    earlier: &[Touch],
    path: &Path,
) -> Result<Touch, StoreFault>
    requires earlier { AreTouches earlier.now }
    requires outside { IsOutside path.now }

    ensures place { IfOk result (λ touch. touch.path ≡ entry_path number.0) }
    ensures range { IfOk result (λ touch. number.0 < 2 ^ 32) }
    ensures node { IfOk result (λ touch. IfSome touch.node IsNode) }
    ensures entry { IfOk result (λ touch. OnTold (F.told folder.old) (λ s. IsEntry path.now (set_in_turn earlier.now s.now path.now))) }
    ensures touch { IfOk result (λ touch. OnTold (F.told folder.old)
        (λ s. touch ≡ entry_touch number.0 path.now (set_in_turn earlier.now s.now path.now))) }
    ensures still { Step (F.told folder.old) (F.told folder.new) IsStill }
    ensures never_damaged { IfErr result (λ fault. IfDamaged fault (λ at. ⊥)) }
    ensures time { Step (F.told folder.old) (F.told folder.new)
        (λ s t. Elapses s.moment t.moment (F.left_since folder.old) (F.left_since folder.new) (IsImage t)) }
    ensures cause { HasCause (F.faults folder.old) (F.faults folder.new) (IsErrOf result StoreFault.Failed) }
{
    let before = look_in_turn(alloc, folder, earlier, path)?;
    entry_touch(alloc, number, path, before)
}

fn entry_touch(
    alloc: Global,
    number: EntryNumber,
    path: &Path,
    before: Option<Node>,
) -> Result<Touch, StoreFault>
    requires node { IfSome before IsNode }
    requires small { IfSome before IsSmall }
    ensures touch { IfOk result (λ touch. touch ≡ entry_touch number.0 path.now before) }
    ensures entry { IfOk result (λ touch. IsEntry path.now before) }
    ensures range { IfOk result (λ touch. number.0 < 2 ^ 32) }
    ensures refused { IfErr result (λ fault. fault ≡ store_fault.NoMemory) }
{
    let entry = Entry {
        path: path.copy()?,
        before,
    };
    let text = write_entry(alloc, &entry)?;
    Ok(file_at(entry_path(alloc, number)?, text))
}

pub(crate) fn mark_touch(alloc: Global, number: EntryNumber) -> Result<Touch, NoMemory>
    ensures { IfOk result (λ touch. touch ≡ mark_touch number.0) }
{
    let bytes = Vec::from_slice(alloc, b"ok\n")?;
    let Some(text) = Blob::new(List::from_vec(bytes)) else {
        unreachable!()
    };
    Ok(file_at(mark_path(alloc, number)?, text))
}

/// What the owner of a file may do, and all others: read, and the owner write.
const FILE_MODE: u16 = 0o644;

fn file_at(path: Path, blob: Blob) -> Touch
    ensures { result ≡ record { path = path; node = Some (node.File 420 blob) } }
{
    let mode = FILE_MODE;
    let node = Some(Node::File { mode, blob });
    Touch { path, node }
}
