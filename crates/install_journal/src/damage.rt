ghost use Rattle.std.specs.Prelude.{◌≡◌, ◌<◌, ◌⊎◌, ◌↔◌, length, codes, IsTrue, IfOk, IsErrOf};
ghost use Rattle.folder_core.specs.Cause.{HasCause};
ghost use Rattle.folder_core.specs.Node.{entries_path};
ghost use Rattle.folder_core.specs.Step.{OnTold};
ghost use Rattle.backup_store.specs.Places.{gate_path};
ghost use Rattle.install_journal.specs.Firsts.{Finds, IsEarlier};
ghost use Rattle.install_journal.specs.Looks.{OnlyLooks};
ghost use Rattle.install_journal.specs.Preparing.{IsChild, IsBelowEntry, IsStrayChild, IsDamage, journal_path};

use crate::places::{Places, child};
use folder_core::{Folder, FolderError, Name, Path};
use std::alloc::Global;

/// The first child of a directory. None where it has none, or is no directory.
pub(crate) fn first_child<F: Folder>(
    alloc: Global,
    folder: &mut F,
    path: &Path,
) -> Result<Option<Path>, FolderError>
    requires { length path.now < 64 }
    ensures found { IfOk result (λ found. OnTold (F.told folder.old) (λ s. IsChild s.now path.now found)) }
    ensures looks { OnlyLooks F.told F.left_since folder.old folder.new }
    ensures cause { HasCause (F.faults folder.old) (F.faults folder.new) (IsErrOf result FolderError.Failed) }
{
    let names = folder.kids(alloc, path)?;
    match names.get(0) {
        Some(name) => Ok(Some(child(path, name)?)),
        None => Ok(None),
    }
}

/// The first path below a child of `.p2/e`. None where nothing stands there.
fn below_entries<F: Folder>(
    alloc: Global,
    folder: &mut F,
    entries: &Path,
) -> Result<Option<Path>, FolderError>
    requires { entries.now ≡ entries_path }
    ensures found { IfOk result (λ found. OnTold (F.told folder.old) (λ s. Finds (IsBelowEntry s.now) found)) }
    ensures looks { OnlyLooks F.told F.left_since folder.old folder.new }
    ensures cause { HasCause (F.faults folder.old) (F.faults folder.new) (IsErrOf result FolderError.Failed) }
{
    let names = folder.kids(alloc, entries)?;
    let names = names.items();
    for name in names {
        let found = first_child(alloc, folder, &child(entries, name)?)?;
        if found.is_some() {
            return Ok(found);
        }
    }
    Ok(None)
}

/// The first child of `.p2` that is neither `undo` nor `e`. None where there is no other.
fn stray_child<F: Folder>(
    alloc: Global,
    folder: &mut F,
    journal: &Path,
) -> Result<Option<Path>, FolderError>
    requires { journal.now ≡ journal_path }
    ensures found { IfOk result (λ found. OnTold (F.told folder.old) (λ s. Finds (IsStrayChild s.now) found)) }
    ensures looks { OnlyLooks F.told F.left_since folder.old folder.new }
    ensures cause { HasCause (F.faults folder.old) (F.faults folder.new) (IsErrOf result FolderError.Failed) }
{
    let names = folder.kids(alloc, journal)?;
    let names = names.items();
    for name in names {
        if !is_own(name) {
            return Ok(Some(child(journal, name)?));
        }
    }
    Ok(None)
}

fn is_own(name: &Name) -> bool
    ensures { IsTrue result ↔ ((name.now ≡ codes "undo") ⊎ (name.now ≡ codes "e")) }
{
    let text = name.text().as_str();
    text == "undo" || text == "e"
}

/// The first path at which something stands that the journal didn't put there. None where there is no such path.
pub(crate) fn find_damage<F: Folder>(
    alloc: Global,
    folder: &mut F,
    places: &Places,
) -> Result<Option<Path>, FolderError>
    requires journal { places.now.journal ≡ journal_path }
    requires entries { places.now.entries ≡ entries_path }
    requires gate { places.now.gate ≡ gate_path }
    ensures found { IfOk result (λ found. OnTold (F.told folder.old) (λ s. Finds (IsDamage s.now) found)) }
    ensures looks { OnlyLooks F.told F.left_since folder.old folder.new }
    ensures cause { HasCause (F.faults folder.old) (F.faults folder.new) (IsErrOf result FolderError.Failed) }
{
    let stray = stray_child(alloc, folder, &places.journal)?;
    let below_gate = first_child(alloc, folder, &places.gate)?;
    let below = below_entries(alloc, folder, &places.entries)?;
    Ok(earlier(stray, earlier(below_gate, below)))
}

/// The earlier of two paths, in the order of paths. Where one wasn't found it is the other.
pub(crate) fn earlier(first: Option<Path>, second: Option<Path>) -> Option<Path>
    ensures { IsEarlier first second result }
{
    match (first, second) {
        (None, second) => second,
        (Some(first), None) => Some(first),
        (Some(first), Some(second)) => {
            if second < first {
                Some(second)
            } else {
                Some(first)
            }
        }
    }
}
