ghost use Rattle.std.specs.Prelude.{◌≡◌, ◌⊎◌, IfOk, IfErr, OnOk, Some, None, IsErrAnd};
ghost use Rattle.folder_core.specs.Cause.{HasCause};
ghost use Rattle.folder_core.specs.Crash.{IsImage, AllImages, LeavesOnly};
ghost use Rattle.folder_core.specs.Node.{entries_path};
ghost use Rattle.folder_core.specs.Step.{OnTold, Step};
ghost use Rattle.folder_core.specs.declared.node.Node.TheVariants as node;
ghost use Rattle.backup_store.specs.Held.{gate_text, IsOpen as OpensGate};
ghost use Rattle.backup_store.specs.Places.{gate_path};
ghost use Rattle.install_journal.specs.Closing.{MayBeOpen};
ghost use Rattle.install_journal.specs.Firsts.{Finds, IsFirst};
ghost use Rattle.install_journal.specs.Open.{IsOpen};
ghost use Rattle.install_journal.specs.Overlay.{SameOutside};
ghost use Rattle.install_journal.specs.Preparing.{IsDamage, IsPrepared, IsShut, OnUnchanged, OnRecover, NeverEither, begun, journal_path};
ghost use Rattle.install_journal.specs.Restored.{RestoresTo};
ghost use Rattle.install_journal.specs.Undoing.{IsFailure, OnDamage};

use crate::change::Change;
use crate::damage::find_damage;
use crate::fault::JournalFault;
use crate::opening::open_gate;
use crate::places::Places;
use crate::preparing::set_up;
use folder_core::{After, Blob, Folder, FolderError, Node};
use osgi_version::{List, NoMemory};
use std::alloc::Global;

/// What the owner of a file may do, and all others: read, and the owner write.
const FILE_MODE: u16 = 0o644;

impl Change {
    /// Begins a change, in a folder whose gate is closed: syncs, makes the journal's directories, removes what is in them,
    /// syncs, opens the gate, and syncs. From then on, a crash at any moment leaves the old installation, until the change is
    /// finished. Below `.p2` nothing is ever put but `undo`, `e` and what is directly in `e`, here and by each later call of the
    /// change.
    ///
    /// `Damaged` comes exactly where `.p2` has a child other than `undo` and `e`, or something lies below `.p2/undo` or below
    /// a child of `.p2/e`. It names the first such path in the order of paths. Nothing is changed then.
    pub fn begin<F: Folder>(alloc: Global, folder: &mut F) -> Result<Change, JournalFault>
        requires { OnTold (F.told folder.old) (λ s. ¬ (OpensGate s.now)) }
        ensures begun { IfOk result (λ change. change ≡ begun) }
        ensures is_open { IfOk result (λ change. OnTold (F.told folder.new) (IsOpen change)) }
        ensures stays { Step (F.told folder.old) (F.told folder.new) (λ s t. SameOutside t.now s.now) }
        ensures leaves { OnTold (F.told folder.old) (λ s. LeavesOnly F.told F.left_since folder.old folder.new (λ m. IsImage s m ⊎ RestoresTo s.now m)) }
        ensures restores { OnOk result (OnTold (F.told folder.old) (λ s. AllImages (RestoresTo s.now) (F.told folder.new))) }
        ensures shut { IfErr result (OnUnchanged (Step (F.told folder.old) (F.told folder.new) (λ s t. IsShut s → IsShut t))) }
        ensures may_be_open { IfErr result (OnRecover (OnTold (F.told folder.new) MayBeOpen)) }
        ensures recover { IfErr result (OnRecover (OnTold (F.told folder.old) (λ s. AllImages (RestoresTo s.now) (F.told folder.new)))) }
        ensures undamaged { OnOk result (OnTold (F.told folder.old) (λ s. Finds (IsDamage s.now) None)) }
        ensures damaged { IfErr result (OnDamage (λ at. OnTold (F.told folder.old) (λ s. IsFirst (IsDamage s.now) at))) }
        ensures unchanged { IfErr result (OnDamage (λ at. Step (F.told folder.old) (F.told folder.new) (λ s t. t.now ≡ s.now))) }
        ensures never_either { IfErr result NeverEither }
        ensures cause { HasCause (F.faults folder.old) (F.faults folder.new) (IsErrAnd result IsFailure) }
    {
        let Ok(places) = Places::new(alloc) else {
            return Err(JournalFault::NoMemory(After::Unchanged));
        };
        let Ok(opened) = open_node(alloc) else {
            return Err(JournalFault::NoMemory(After::Unchanged));
        };
        match folder.sync() {
            Ok(()) => begin_synced(alloc, folder, &places, &opened),
            Err(_) => Err(JournalFault::Failed(After::Unchanged)),
        }
    }
}

/// What an open gate is.
fn open_node(alloc: Global) -> Result<Node, NoMemory>
    ensures { IfOk result (λ opened. opened ≡ node.File 420 gate_text) }
{
    let Some(blob) = Blob::new(List::from_vec(Vec::from_slice(alloc, b"open\n")?)) else {
        unreachable!()
    };
    let mode = FILE_MODE;
    Ok(Node::File { mode, blob })
}

/// Begins a change in a folder that is synced.
fn begin_synced<F: Folder>(
    alloc: Global,
    folder: &mut F,
    places: &Places,
    opened: &Node,
) -> Result<Change, JournalFault>
    requires journal { places.now.journal ≡ journal_path }
    requires entries { places.now.entries ≡ entries_path }
    requires gate { places.now.gate ≡ gate_path }
    requires node { opened.now ≡ node.File 420 gate_text }
    requires prepared { OnTold (F.told folder.old) IsPrepared }
    ensures begun { IfOk result (λ change. change ≡ begun) }
    ensures is_open { IfOk result (λ change. OnTold (F.told folder.new) (IsOpen change)) }
    ensures stays { Step (F.told folder.old) (F.told folder.new) (λ s t. SameOutside t.now s.now) }
    ensures leaves { OnTold (F.told folder.old) (λ s. LeavesOnly F.told F.left_since folder.old folder.new (RestoresTo s.now)) }
    ensures shut { IfErr result (OnUnchanged (OnTold (F.told folder.new) IsShut)) }
    ensures may_be_open { IfErr result (OnRecover (OnTold (F.told folder.new) MayBeOpen)) }
    ensures undamaged { OnOk result (OnTold (F.told folder.old) (λ s. Finds (IsDamage s.now) None)) }
    ensures damaged { IfErr result (OnDamage (λ at. OnTold (F.told folder.old) (λ s. IsFirst (IsDamage s.now) at))) }
    ensures unchanged { IfErr result (OnDamage (λ at. Step (F.told folder.old) (F.told folder.new) (λ s t. t.now ≡ s.now))) }
    ensures never_either { IfErr result NeverEither }
    ensures cause { HasCause (F.faults folder.old) (F.faults folder.new) (IsErrAnd result IsFailure) }
{
    match find_damage(alloc, folder, places) {
        Ok(None) => {}
        Ok(Some(path)) => return Err(JournalFault::Damaged { path }),
        Err(FolderError::Failed) => return Err(JournalFault::Failed(After::Unchanged)),
        Err(FolderError::NoMemory) => return Err(JournalFault::NoMemory(After::Unchanged)),
    }
    match set_up(alloc, folder, places) {
        Ok(()) => {}
        Err(FolderError::Failed) => return Err(JournalFault::Failed(After::Unchanged)),
        Err(FolderError::NoMemory) => return Err(JournalFault::NoMemory(After::Unchanged)),
    }
    open_gate(folder, &places.gate, opened)
}
