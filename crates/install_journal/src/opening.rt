ghost use Rattle.std.specs.Prelude.{◌≡◌, IfOk, IfErr, OnOk, Some, IsErrAnd};
ghost use Rattle.folder_core.specs.Cause.{HasCause};
ghost use Rattle.folder_core.specs.Crash.{LeavesOnly};
ghost use Rattle.folder_core.specs.Step.{OnTold, Step};
ghost use Rattle.folder_core.specs.declared.node.Node.TheVariants as node;
ghost use Rattle.backup_store.specs.Held.{gate_text};
ghost use Rattle.backup_store.specs.Places.{gate_path};
ghost use Rattle.install_journal.specs.Closing.{MayBeOpen};
ghost use Rattle.install_journal.specs.Open.{IsOpen};
ghost use Rattle.install_journal.specs.Overlay.{SameOutside};
ghost use Rattle.install_journal.specs.Preparing.{IsFresh, IsShut, OnUnchanged, OnRecover, NeverEither, begun};
ghost use Rattle.install_journal.specs.Restored.{RestoresTo};
ghost use Rattle.install_journal.specs.Undoing.{IsFailure, OnDamage};

use crate::change::Change;
use crate::fault::JournalFault;
use folder_core::{After, Folder, FolderError, Node, Path};

/// Opens the gate in a folder whose journal is empty, and syncs.
pub(crate) fn open_gate<F: Folder>(
    folder: &mut F,
    gate: &Path,
    opened: &Node,
) -> Result<Change, JournalFault>
    requires gate { gate.now ≡ gate_path }
    requires node { opened.now ≡ node.File 420 gate_text }
    requires fresh { OnTold (F.told folder.old) IsFresh }
    ensures begun { IfOk result (λ change. change ≡ begun) }
    ensures is_open { IfOk result (λ change. OnTold (F.told folder.new) (IsOpen change)) }
    ensures stays { Step (F.told folder.old) (F.told folder.new) (λ s t. SameOutside t.now s.now) }
    ensures leaves { OnTold (F.told folder.old) (λ s. LeavesOnly F.told F.left_since folder.old folder.new (RestoresTo s.now)) }
    ensures shut { IfErr result (OnUnchanged (OnTold (F.told folder.new) IsShut)) }
    ensures may_be_open { IfErr result (OnRecover (OnTold (F.told folder.new) MayBeOpen)) }
    ensures never_damaged { IfErr result (OnDamage (λ at. ⊥)) }
    ensures never_either { IfErr result NeverEither }
    ensures cause { HasCause (F.faults folder.old) (F.faults folder.new) (IsErrAnd result IsFailure) }
{
    match folder.set(gate, Some(opened)) {
        Ok(()) => {}
        Err(FolderError::NoMemory) => return Err(JournalFault::NoMemory(After::Unchanged)),
        Err(FolderError::Failed) => return Err(JournalFault::Failed(After::Recover)),
    }
    match folder.sync() {
        Ok(()) => Ok(Change {
            kept: 0,
            left: 0,
            ready: true,
            failed: false,
        }),
        Err(_) => Err(JournalFault::Failed(After::Recover)),
    }
}
