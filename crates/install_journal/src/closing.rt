ghost use Rattle.std.specs.Prelude.{◌≡◌, OnOk, OnErr, IsErrOf};
ghost use Rattle.folder_core.specs.Cause.{HasCause};
ghost use Rattle.folder_core.specs.Crash.{IsImage, LeavesOnly};
ghost use Rattle.folder_core.specs.Folder.{SameBut};
ghost use Rattle.folder_core.specs.Step.{OnTold, Step};
ghost use Rattle.backup_store.specs.Held.{IsOpen as OpensGate};
ghost use Rattle.backup_store.specs.Places.{gate_path};
ghost use Rattle.install_journal.specs.Closing.{IsSynced, IsButGate, TouchesGate, IsClosed};

use folder_core::{Folder, FolderError, Path};

/// Takes the gate away, in a folder that is synced, and syncs. Where no memory was found, nothing was changed.
pub(crate) fn close<F: Folder>(folder: &mut F, gate: &Path) -> Result<(), FolderError>
    requires gate { gate.now ≡ gate_path }
    requires synced { OnTold (F.told folder.old) IsSynced }
    requires open { OnTold (F.told folder.old) (λ s. OpensGate s.now) }
    ensures closed { OnOk result (Step (F.told folder.old) (F.told folder.new) IsClosed) }
    ensures no_memory { IsErrOf result FolderError.NoMemory → Step (F.told folder.old) (F.told folder.new) (λ s t. (t.now ≡ s.now) × IsSynced t) }
    ensures unchanged { IsErrOf result FolderError.NoMemory → OnTold (F.told folder.old) (λ s. LeavesOnly F.told F.left_since folder.old folder.new (IsImage s)) }
    ensures elsewhere { Step (F.told folder.old) (F.told folder.new) (λ s t. SameBut gate_path s.now t.now) }
    ensures touches { OnErr result (Step (F.told folder.old) (F.told folder.new) TouchesGate) }
    ensures leaves { OnTold (F.told folder.old) (λ s. LeavesOnly F.told F.left_since folder.old folder.new (IsButGate s.now)) }
    ensures cause { HasCause (F.faults folder.old) (F.faults folder.new) (IsErrOf result FolderError.Failed) }
{
    folder.set(gate, None)?;
    folder.sync()?;
    Ok(())
}
