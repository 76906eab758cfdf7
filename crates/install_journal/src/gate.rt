ghost use Rattle.std.specs.Prelude.{◌↔◌, IfOk, IsErrOf, IsTrue};
ghost use Rattle.folder_core.specs.Cause.{HasCause};
ghost use Rattle.folder_core.specs.Step.{OnTold};
ghost use Rattle.backup_store.specs.Held.{IsFileOf, gate_text};
ghost use Rattle.install_journal.specs.Gate.{Reads};
ghost use Rattle.install_journal.specs.Looks.{OnlyLooks};

use crate::places::gate_path;
use folder_core::{Folder, FolderError, Node};
use std::alloc::Global;

/// Whether a change has begun that wasn't finished. The gate is open exactly where `.p2/undo` is a file with the bytes
/// `open` and LF.
#[derive(Clone, Copy, Debug, PartialEq, Eq)]
pub enum Gate {
    IsOpen,
    IsClosed,
}

const OPEN: &[u8] = b"open\n";

/// Reads the gate, and changes nothing.
pub fn read_gate<F: Folder>(alloc: Global, folder: &mut F) -> Result<Gate, FolderError>
    ensures gate { IfOk result (λ gate. OnTold (F.told folder.old) (λ s. Reads s.now gate)) }
    ensures looks { OnlyLooks F.told F.left_since folder.old folder.new }
    ensures cause { HasCause (F.faults folder.old) (F.faults folder.new) (IsErrOf result FolderError.Failed) }
{
    let path = gate_path(alloc)?;
    let found = folder.look(alloc, &path)?;
    if opens(&found) {
        Ok(Gate::IsOpen)
    } else {
        Ok(Gate::IsClosed)
    }
}

fn opens(node: &Option<Node>) -> bool
    ensures { IsTrue result ↔ IsFileOf gate_text node.now }
{
    match node {
        Some(Node::File { blob, .. }) => blob.bytes() == OPEN,
        _ => false,
    }
}
