ghost use Rattle.std.specs.Prelude.{◌≡◌, ◌≢◌, [], None, ⊤, IfErr, OnOk, IsErrAnd, IsErrOf};
ghost use Rattle.folder_core.specs.Cause.{HasCause};
ghost use Rattle.folder_core.specs.Crash.{IsImage, Touches, Elapses};
ghost use Rattle.folder_core.specs.Folder.{NothingBelow, SameBut};
ghost use Rattle.folder_core.specs.Step.{OnTold, Step};
ghost use Rattle.backup_store.specs.Fault.{IfDamaged};
ghost use Rattle.backup_store.specs.Held.{IsOpen as OpensGate};
ghost use Rattle.backup_store.specs.Places.{gate_path};
ghost use Rattle.install_journal.specs.Closing.{IsSynced};
ghost use Rattle.install_journal.specs.Plan.{IsPlan};
ghost use Rattle.install_journal.specs.Recovering.{PutsAllBack};
ghost use Rattle.install_journal.specs.Restored.{RestoresSame};
ghost use Rattle.install_journal.specs.Restoring.{AreBare, AreSetBack, IsUnderway, KeepsTo};
ghost use Rattle.install_journal.specs.Undoing.{AsksRecovery, IsFailure, OnDamage};

use crate::closing::close;
use crate::fault::JournalFault;
use crate::plan::{OldKind, Plan};
use backup_store::{StoreFault, put_back};
use folder_core::{After, Folder, FolderError, Path};
use std::alloc::Global;

/// Removes what stands at a path, below which nothing stands, if anything does.
fn remove<F: Folder>(alloc: Global, folder: &mut F, path: &Path) -> Result<(), FolderError>
    requires not_root { OnTold (F.told folder.old) (λ s. path.now ≢ []) }
    requires alone { OnTold (F.told folder.old) (λ s. NothingBelow s.now path.now) }
    ensures removed { OnOk result (OnTold (F.told folder.new) (λ t. t.now path.now ≡ None)) }
    ensures elsewhere { Step (F.told folder.old) (F.told folder.new) (λ s t. SameBut path.now s.now t.now) }
    ensures crash { Step (F.told folder.old) (F.told folder.new) (Touches path.now) }
    ensures time { Step (F.told folder.old) (F.told folder.new)
        (λ s t. Elapses s.moment t.moment (F.left_since folder.old) (F.left_since folder.new) (IsImage t)) }
    ensures cause { HasCause (F.faults folder.old) (F.faults folder.new) (IsErrOf result FolderError.Failed) }
{
    let found = folder.look(alloc, path)?;
    if found.is_none() {
        return Ok(());
    }
    folder.set(path, None)
}

/// Removes what stands at the plan's paths, in falling order, so that a path goes after those below it.
fn remove_paths<F: Folder>(alloc: Global, folder: &mut F, plan: &Plan) -> Result<(), FolderError>
    requires { OnTold (F.told folder.old) (IsUnderway plan.now) }
    ensures bare { OnOk result (OnTold (F.told folder.new) (AreBare plan.now)) }
    ensures keeps { Step (F.told folder.old) (F.told folder.new) (KeepsTo plan.now) }
    ensures restores { RestoresSame F.told F.left_since folder.old folder.new }
    ensures cause { HasCause (F.faults folder.old) (F.faults folder.new) (IsErrOf result FolderError.Failed) }
{
    let oldest = plan.oldest.items();
    for place in (0..oldest.len()).rev() {
        remove(alloc, folder, &oldest[place].path)?;
    }
    Ok(())
}

/// Sets the plan's old nodes, in rising order, so that a path comes after its parent. Each entry is read again, so that no
/// more than one file is held.
fn set_nodes<F: Folder>(alloc: Global, folder: &mut F, plan: &Plan) -> Result<(), StoreFault>
    requires { OnTold (F.told folder.old) (AreBare plan.now) }
    ensures set { OnOk result (OnTold (F.told folder.new) (AreSetBack plan.now)) }
    ensures keeps { Step (F.told folder.old) (F.told folder.new) (KeepsTo plan.now) }
    ensures restores { RestoresSame F.told F.left_since folder.old folder.new }
    ensures never_damaged { IfErr result (λ fault. IfDamaged fault (λ at. OnTold (F.told folder.old) (λ s. ⊥))) }
    ensures cause { HasCause (F.faults folder.old) (F.faults folder.new) (IsErrOf result StoreFault.Failed) }
{
    let items = plan.oldest.items();
    for oldest in items {
        if oldest.kind == OldKind::Nothing {
            continue;
        }
        put_back(alloc, folder, oldest.number)?;
    }
    Ok(())
}

/// Puts the whole plan back, and closes the gate.
fn put_plan_back<F: Folder>(
    alloc: Global,
    folder: &mut F,
    plan: &Plan,
    gate: &Path,
) -> Result<(), StoreFault>
    requires gate { gate.now ≡ gate_path }
    requires underway { OnTold (F.told folder.old) (IsUnderway plan.now) }
    ensures restored { OnOk result (Step (F.told folder.old) (F.told folder.new) (λ s t. PutsAllBack plan.now.count s.synced t.now)) }
    ensures synced { OnOk result (OnTold (F.told folder.new) IsSynced) }
    ensures tells { Step (F.told folder.old) (F.told folder.new) (λ s t. ⊤) }
    ensures restores { RestoresSame F.told F.left_since folder.old folder.new }
    ensures never_damaged { IfErr result (λ fault. IfDamaged fault (λ at. OnTold (F.told folder.old) (λ s. ⊥))) }
    ensures cause { HasCause (F.faults folder.old) (F.faults folder.new) (IsErrOf result StoreFault.Failed) }
{
    remove_paths(alloc, folder, plan)?;
    set_nodes(alloc, folder, plan)?;
    folder.sync()?;
    close(folder, gate)?;
    Ok(())
}

/// Puts back what the plan has, in a folder that is synced: removes the paths, the deepest first, sets the old nodes, parents
/// first, syncs, closes the gate, and syncs. A crash at any moment leaves what restores as before.
pub(crate) fn restore<F: Folder>(
    alloc: Global,
    folder: &mut F,
    plan: &Plan,
    gate: &Path,
) -> Result<(), JournalFault>
    requires gate { gate.now ≡ gate_path }
    requires plan { OnTold (F.told folder.old) (λ s. IsPlan plan.now s.now) }
    requires synced { OnTold (F.told folder.old) IsSynced }
    requires open { OnTold (F.told folder.old) (λ s. OpensGate s.now) }
    ensures restored { OnOk result (Step (F.told folder.old) (F.told folder.new) (λ s t. PutsAllBack plan.now.count s.now t.now)) }
    ensures synced { OnOk result (OnTold (F.told folder.new) IsSynced) }
    ensures tells { Step (F.told folder.old) (F.told folder.new) (λ s t. ⊤) }
    ensures restores { RestoresSame F.told F.left_since folder.old folder.new }
    ensures recover { IfErr result AsksRecovery }
    ensures never_damaged { IfErr result (OnDamage (λ at. OnTold (F.told folder.old) (λ s. ⊥))) }
    ensures cause { HasCause (F.faults folder.old) (F.faults folder.new) (IsErrAnd result IsFailure) }
{
    match put_plan_back(alloc, folder, plan, gate) {
        Ok(()) => Ok(()),
        Err(StoreFault::Failed) => Err(JournalFault::Failed(After::Recover)),
        Err(StoreFault::Damaged { path }) => Err(JournalFault::Damaged { path }),
        Err(StoreFault::NoMemory) => Err(JournalFault::NoMemory(After::Recover)),
    }
}
