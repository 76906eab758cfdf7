ghost use Rattle.std.specs.Prelude.{◌≡◌, ⊤, List as Items, ℕ, IfOk, IfErr, OnOk, IsErrAnd};
ghost use Rattle.folder_core.specs.Cause.{HasCause};
ghost use Rattle.folder_core.specs.Crash.{AllImages, LeavesOnly};
ghost use Rattle.folder_core.specs.Folder.{Map};
ghost use Rattle.folder_core.specs.Step.{OnTold, Step};
ghost use Rattle.backup_store.specs.Held.{IsOpen as OpensGate};
ghost use Rattle.backup_store.specs.Looking.{IsStill};
ghost use Rattle.install_journal.specs.Broken.{IsBroken, NamesDamage};
ghost use Rattle.install_journal.specs.Closing.{IsSynced};
ghost use Rattle.install_journal.specs.Preparing.{IsShut, NeverEither, OnRecover, OnUnchanged};
ghost use Rattle.install_journal.specs.Recovering.{IsLeftOrRestores, OnNoMemoryUnchanged, PutsAllBack, Recovers, RestoresToo, SettlesWhatRestores};
ghost use Rattle.install_journal.specs.Restored.{IsRestored};
ghost use Rattle.install_journal.specs.Undoing.{IsFailure, OnDamage};

use crate::fault::JournalFault;
use crate::gate::{Gate, read_gate};
use crate::gathering::gather;
use crate::places::gate_path;
use crate::restoring::restore;
use folder_core::{After, Folder, FolderError};
use std::alloc::Global;

/// What a recovery found.
#[derive(Clone, Copy, Debug, PartialEq, Eq)]
pub enum Recovered {
    /// The gate was closed.
    Nothing,
    /// The gate was open, and so many entries counted.
    Entries(u32),
}

/// Ends a change that a crash cut off, or that was left: syncs, puts back all entries that count, and closes the gate. Where
/// the gate is closed, nothing is changed. A crash inside it leaves a folder from which a recovery reaches the same. Below
/// `.p2` nothing is ever put.
///
/// `Damaged` comes exactly where the gate is open and the entries that count can't be put back, and nothing is changed then.
/// It names the file of the first entry whose file is no entry's text or whose path is the root, `.p2` or below `.p2`; else,
/// in the order of paths, the first path without an entry at which something stands below a path that has one; else the first
/// path to be put back whose parent would be no directory. It never comes over what a change or a recovery left.
///
/// `Failed` and `NoMemory` say `Unchanged` before the first path is to be put back, and `Recover` from then on, after which
/// another recovery reaches the same. `NoMemory(Unchanged)` comes only once all is synced.
///
/// The cost is near linear in the entries: their paths are sorted, and each entry is read twice.
pub fn recover<F: Folder>(alloc: Global, folder: &mut F) -> Result<Recovered, JournalFault>
    ensures recovers { IfOk result (λ recovered. Step (F.told folder.old) (F.told folder.new) (λ s t. Recovers recovered s.now t.now)) }
    ensures synced { OnOk result (OnTold (F.told folder.new) IsSynced) }
    ensures settles { OnOk result (Step (F.told folder.old) (F.told folder.new) SettlesWhatRestores) }
    ensures tells { Step (F.told folder.old) (F.told folder.new) (λ s t. ⊤) }
    ensures leaves { OnTold (F.told folder.old) (λ s. LeavesOnly F.told F.left_since folder.old folder.new (IsLeftOrRestores s)) }
    ensures unchanged { IfErr result (OnUnchanged (Step (F.told folder.old) (F.told folder.new) (λ s t. t.now ≡ s.now))) }
    ensures shut { IfErr result (OnUnchanged (Step (F.told folder.old) (F.told folder.new) (λ s t. IsShut s → IsShut t))) }
    ensures no_memory { IfErr result (OnNoMemoryUnchanged (OnTold (F.told folder.new) IsSynced)) }
    ensures recover { IfErr result (OnRecover (OnTold (F.told folder.old) (λ s. AllImages (RestoresToo s.now) (F.told folder.new)))) }
    ensures undamaged { OnOk result (OnTold (F.told folder.old) (λ s. (path : Items (Items ℕ)) → ¬ (IsBroken s.now path))) }
    ensures damaged { IfErr result (OnDamage (λ at. OnTold (F.told folder.old) (λ s. IsBroken s.now at))) }
    ensures never_damaged { IfErr result (OnDamage (λ at. OnTold (F.told folder.old) (λ s. (restored : Map) → ¬ (IsRestored s.now restored)))) }
    ensures never_either { IfErr result NeverEither }
    ensures cause { HasCause (F.faults folder.old) (F.faults folder.new) (IsErrAnd result IsFailure) }
{
    match folder.sync() {
        Ok(()) => recover_synced(alloc, folder),
        Err(_) => Err(JournalFault::Failed(After::Unchanged)),
    }
}

/// Recovers in a folder that is synced.
fn recover_synced<F: Folder>(alloc: Global, folder: &mut F) -> Result<Recovered, JournalFault>
    requires { OnTold (F.told folder.old) IsSynced }
    ensures recovers { IfOk result (λ recovered. Step (F.told folder.old) (F.told folder.new) (λ s t. Recovers recovered s.now t.now)) }
    ensures synced { OnOk result (OnTold (F.told folder.new) IsSynced) }
    ensures tells { Step (F.told folder.old) (F.told folder.new) (λ s t. ⊤) }
    ensures leaves { OnTold (F.told folder.old) (λ s. LeavesOnly F.told F.left_since folder.old folder.new (IsLeftOrRestores s)) }
    ensures unchanged { IfErr result (OnUnchanged (Step (F.told folder.old) (F.told folder.new) IsStill)) }
    ensures recover { IfErr result (OnRecover (OnTold (F.told folder.old) (λ s. AllImages (RestoresToo s.now) (F.told folder.new)))) }
    ensures damaged { IfErr result (OnDamage (λ at. OnTold (F.told folder.old) (λ s. IsBroken s.now at))) }
    ensures never_either { IfErr result NeverEither }
    ensures cause { HasCause (F.faults folder.old) (F.faults folder.new) (IsErrAnd result IsFailure) }
{
    match read_gate(alloc, folder) {
        Ok(Gate::IsOpen) => Ok(Recovered::Entries(recover_open(alloc, folder)?)),
        Ok(Gate::IsClosed) => Ok(Recovered::Nothing),
        Err(FolderError::Failed) => Err(JournalFault::Failed(After::Unchanged)),
        Err(FolderError::NoMemory) => Err(JournalFault::NoMemory(After::Unchanged)),
    }
}

/// Puts back all entries that count, in a folder that is synced and whose gate is open. Answers how many there are.
fn recover_open<F: Folder>(alloc: Global, folder: &mut F) -> Result<u32, JournalFault>
    requires synced { OnTold (F.told folder.old) IsSynced }
    requires open { OnTold (F.told folder.old) (λ s. OpensGate s.now) }
    ensures restored { IfOk result (λ count. Step (F.told folder.old) (F.told folder.new) (λ s t. PutsAllBack count s.now t.now)) }
    ensures synced { OnOk result (OnTold (F.told folder.new) IsSynced) }
    ensures tells { Step (F.told folder.old) (F.told folder.new) (λ s t. ⊤) }
    ensures leaves { OnTold (F.told folder.old) (λ s. LeavesOnly F.told F.left_since folder.old folder.new (IsLeftOrRestores s)) }
    ensures unchanged { IfErr result (OnUnchanged (Step (F.told folder.old) (F.told folder.new) IsStill)) }
    ensures recover { IfErr result (OnRecover (OnTold (F.told folder.old) (λ s. AllImages (RestoresToo s.now) (F.told folder.new)))) }
    ensures damaged { IfErr result (OnDamage (λ at. OnTold (F.told folder.old) (λ s. NamesDamage s.now at))) }
    ensures never_either { IfErr result NeverEither }
    ensures cause { HasCause (F.faults folder.old) (F.faults folder.new) (IsErrAnd result IsFailure) }
{
    let Ok(gate) = gate_path(alloc) else {
        return Err(JournalFault::NoMemory(After::Unchanged));
    };
    let plan = gather(alloc, folder)?;
    restore(alloc, folder, &plan, &gate)?;
    Ok(plan.count)
}
