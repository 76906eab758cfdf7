ghost use Rattle.std.specs.Prelude.{◌≡◌, ◌≢◌, [], ◌↔◌, IsTrue, OnOk, IsErrOf, Some, None};
ghost use Rattle.folder_core.specs.Cause.{HasCause};
ghost use Rattle.folder_core.specs.Folder.{SameBut};
ghost use Rattle.folder_core.specs.Node.{entries_path};
ghost use Rattle.folder_core.specs.Path.{parent};
ghost use Rattle.folder_core.specs.Step.{OnTold, Step};
ghost use Rattle.folder_core.specs.declared.node.Node.TheVariants as node;
ghost use Rattle.install_journal.specs.Firsts.{Finds};
ghost use Rattle.install_journal.specs.Preparing.{IsLeft, IsPrepared, Moves, LeavesClosed, HasFlatEntries, HasNoEntries, IsDamage, IsFresh, SparesGate, journal_path};

use crate::places::{Places, child};
use folder_core::{Folder, FolderError, Node, Path};
use std::alloc::Global;

/// Makes a directory where none stands. What stands there else goes.
pub(crate) fn make_directory<F: Folder>(
    alloc: Global,
    folder: &mut F,
    path: &Path,
) -> Result<(), FolderError>
    requires inside { ¬ (IsLeft path.now) }
    requires not_root { path.now ≢ [] }
    requires above { OnTold (F.told folder.old) (λ s. s.now (parent path.now) ≡ Some node.Dir) }
    requires prepared { OnTold (F.told folder.old) IsPrepared }
    ensures made { OnOk result (OnTold (F.told folder.new) (λ t. t.now path.now ≡ Some node.Dir)) }
    ensures elsewhere { Step (F.told folder.old) (F.told folder.new) (λ s t. SameBut path.now s.now t.now) }
    ensures moves { Step (F.told folder.old) (F.told folder.new) Moves }
    ensures leaves { LeavesClosed F.told F.left_since folder.old folder.new }
    ensures cause { HasCause (F.faults folder.old) (F.faults folder.new) (IsErrOf result FolderError.Failed) }
{
    let found = folder.look(alloc, path)?;
    if is_directory(&found) {
        return Ok(());
    }
    folder.set(path, Some(&Node::Dir))
}

pub(crate) fn is_directory(found: &Option<Node>) -> bool
    ensures { IsTrue result ↔ (found.now ≡ Some node.Dir) }
{
    matches!(found, Some(Node::Dir))
}

/// Removes what is in `.p2/e`.
pub(crate) fn clear_entries<F: Folder>(
    alloc: Global,
    folder: &mut F,
    entries: &Path,
) -> Result<(), FolderError>
    requires entries { entries.now ≡ entries_path }
    requires directory { OnTold (F.told folder.old) (λ s. s.now entries_path ≡ Some node.Dir) }
    requires flat { OnTold (F.told folder.old) (λ s. HasFlatEntries s.now) }
    requires prepared { OnTold (F.told folder.old) IsPrepared }
    ensures cleared { OnOk result (OnTold (F.told folder.new) (λ t. HasNoEntries t.now)) }
    ensures spares { Step (F.told folder.old) (F.told folder.new) (λ s t. SparesGate s.now t.now) }
    ensures moves { Step (F.told folder.old) (F.told folder.new) Moves }
    ensures leaves { LeavesClosed F.told F.left_since folder.old folder.new }
    ensures cause { HasCause (F.faults folder.old) (F.faults folder.new) (IsErrOf result FolderError.Failed) }
{
    let names = folder.kids(alloc, entries)?;
    let names = names.items();
    for name in names {
        folder.set(&child(entries, name)?, None)?;
    }
    Ok(())
}

/// Makes the journal's directories, removes what is in them, and syncs.
pub(crate) fn set_up<F: Folder>(
    alloc: Global,
    folder: &mut F,
    places: &Places,
) -> Result<(), FolderError>
    requires journal { places.now.journal ≡ journal_path }
    requires entries { places.now.entries ≡ entries_path }
    requires prepared { OnTold (F.told folder.old) IsPrepared }
    requires undamaged { OnTold (F.told folder.old) (λ s. Finds (IsDamage s.now) None) }
    ensures fresh { OnOk result (OnTold (F.told folder.new) IsFresh) }
    ensures moves { Step (F.told folder.old) (F.told folder.new) Moves }
    ensures leaves { LeavesClosed F.told F.left_since folder.old folder.new }
    ensures cause { HasCause (F.faults folder.old) (F.faults folder.new) (IsErrOf result FolderError.Failed) }
{
    make_directory(alloc, folder, &places.journal)?;
    make_directory(alloc, folder, &places.entries)?;
    clear_entries(alloc, folder, &places.entries)?;
    folder.sync()?;
    Ok(())
}
