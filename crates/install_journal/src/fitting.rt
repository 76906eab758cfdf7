ghost use Rattle.std.specs.Prelude.{◌≡◌, ◌↔◌, IfOk, List as Items, IsTrue, IsErrOf};
ghost use Rattle.std.specs.Option.{option_copied};
ghost use Rattle.folder_core.specs.Cause.{HasCause};
ghost use Rattle.folder_core.specs.Path.{parent};
ghost use Rattle.folder_core.specs.Step.{OnTold};
ghost use Rattle.backup_store.specs.declared.entry.Entry.{Entry};
ghost use Rattle.install_journal.specs.Broken.{AreSound};
ghost use Rattle.install_journal.specs.Firsts.{Finds};
ghost use Rattle.install_journal.specs.Fitting.{AreInOrder, IsOldestOf, IsChildIfUncovered, IsBareChild, IsBare, WillBeDirectory, HangsLoose, IsLooseHere};
ghost use Rattle.install_journal.specs.Looks.{OnlyLooks};
ghost use Rattle.install_journal.specs.Plan.{IsGathered, FitsOrShows};

use crate::damage::earlier;
use crate::plan::{OldKind, Oldest, Plan};
use crate::preparing::is_directory;
use folder_core::{Folder, FolderError, Name, Path};
use osgi_version::{NoMemory, Twin};
use std::alloc::Global;

/// The path that shows why the entries can't be put back. None where they can.
///
/// The children of each path of the plan are listed once, and the parent of each node that is put back is looked up. With
/// n paths and k children these are n + k searches among the n paths, each of logarithmic time.
pub(crate) fn find_unfit<F: Folder>(
    alloc: Global,
    folder: &mut F,
    plan: &Plan,
) -> Result<Option<Path>, FolderError>
    requires { OnTold (F.told folder.old) (λ s. IsGathered plan.now s.now) }
    ensures found { IfOk result (λ found. OnTold (F.told folder.old) (λ s. (entries : Items Entry) → AreSound s.now entries → FitsOrShows entries s.now found)) }
    ensures looks { OnlyLooks F.told F.left_since folder.old folder.new }
    ensures cause { HasCause (F.faults folder.old) (F.faults folder.new) (IsErrOf result FolderError.Failed) }
{
    let oldest = plan.oldest.items();
    let uncovered = first_uncovered(alloc, folder, oldest)?;
    if uncovered.is_some() {
        return Ok(uncovered);
    }
    first_loose(alloc, folder, oldest)
}

/// The first path at which something stands that isn't in the plan, directly below one that is.
fn first_uncovered<F: Folder>(
    alloc: Global,
    folder: &mut F,
    oldest: &[Oldest],
) -> Result<Option<Path>, FolderError>
    ensures found { IfOk result (λ found. OnTold (F.told folder.old) (λ s. AreInOrder oldest.now → Finds (IsBare oldest.now s.now) found)) }
    ensures looks { OnlyLooks F.told F.left_since folder.old folder.new }
    ensures cause { HasCause (F.faults folder.old) (F.faults folder.new) (IsErrOf result FolderError.Failed) }
{
    let mut found = None;
    for one in oldest {
        let child = uncovered_child(alloc, folder, oldest, &one.path)?;
        found = earlier(found, child);
    }
    Ok(found)
}

/// The first child of a path that isn't in the plan.
fn uncovered_child<F: Folder>(
    alloc: Global,
    folder: &mut F,
    oldest: &[Oldest],
    above: &Path,
) -> Result<Option<Path>, FolderError>
    ensures found { IfOk result (λ found. OnTold (F.told folder.old) (λ s. AreInOrder oldest.now → Finds (IsBareChild oldest.now s.now above.now) found)) }
    ensures looks { OnlyLooks F.told F.left_since folder.old folder.new }
    ensures cause { HasCause (F.faults folder.old) (F.faults folder.new) (IsErrOf result FolderError.Failed) }
{
    let names = folder.kids(alloc, above)?;
    let names = names.items();
    for name in names {
        let child = child_if_uncovered(oldest, above, name)?;
        if child.is_some() {
            return Ok(child);
        }
    }
    Ok(None)
}

/// The child of this name. None where it is in the plan, or where the path above has 64 names already.
fn child_if_uncovered(
    oldest: &[Oldest],
    above: &Path,
    name: &Name,
) -> Result<Option<Path>, NoMemory>
    ensures { IfOk result (λ child. AreInOrder oldest.now → IsChildIfUncovered oldest.now above.now name.now child) }
{
    let mut path = above.copy()?;
    if !path.push(name.copy()?)? {
        return Ok(None);
    }
    match find_oldest(oldest, &path) {
        Some(_) => Ok(None),
        None => Ok(Some(path)),
    }
}

/// The one of this path. None where the plan has none.
fn find_oldest<'a>(oldest: &'a [Oldest], path: &Path) -> Option<&'a Oldest>
    ensures { AreInOrder oldest.now → IsOldestOf oldest.now path.now (option_copied result) }
{
    match oldest.binary_search_by(|one| one.path.cmp(path)) {
        Ok(place) => Some(&oldest[place]),
        Err(_) => None,
    }
}

/// The first path at which something is put back where its parent won't be a directory.
fn first_loose<F: Folder>(
    alloc: Global,
    folder: &mut F,
    oldest: &[Oldest],
) -> Result<Option<Path>, FolderError>
    ensures found { IfOk result (λ found. OnTold (F.told folder.old) (λ s. AreInOrder oldest.now → Finds (IsLooseHere oldest.now s.now) found)) }
    ensures looks { OnlyLooks F.told F.left_since folder.old folder.new }
    ensures cause { HasCause (F.faults folder.old) (F.faults folder.new) (IsErrOf result FolderError.Failed) }
{
    for one in oldest {
        if is_loose(alloc, folder, oldest, one)? {
            return Ok(Some(one.path.copy()?));
        }
    }
    Ok(None)
}

/// Whether it puts something back where the parent won't be a directory.
fn is_loose<F: Folder>(
    alloc: Global,
    folder: &mut F,
    oldest: &[Oldest],
    one: &Oldest,
) -> Result<bool, FolderError>
    ensures found { IfOk result (λ loose. OnTold (F.told folder.old) (λ s. AreInOrder oldest.now → (IsTrue loose ↔ HangsLoose oldest.now s.now one.now))) }
    ensures looks { OnlyLooks F.told F.left_since folder.old folder.new }
    ensures cause { HasCause (F.faults folder.old) (F.faults folder.new) (IsErrOf result FolderError.Failed) }
{
    if matches!(one.kind, OldKind::Nothing) {
        return Ok(false);
    }
    let above = parent_of(alloc, &one.path)?;
    let directory = will_be_directory(alloc, folder, oldest, &above)?;
    Ok(!directory)
}

/// Whether a directory will stand there, once all is put back.
fn will_be_directory<F: Folder>(
    alloc: Global,
    folder: &mut F,
    oldest: &[Oldest],
    path: &Path,
) -> Result<bool, FolderError>
    ensures found { IfOk result (λ directory. OnTold (F.told folder.old) (λ s. AreInOrder oldest.now → (IsTrue directory ↔ WillBeDirectory oldest.now s.now path.now))) }
    ensures looks { OnlyLooks F.told F.left_since folder.old folder.new }
    ensures cause { HasCause (F.faults folder.old) (F.faults folder.new) (IsErrOf result FolderError.Failed) }
{
    match find_oldest(oldest, path) {
        Some(one) => Ok(matches!(one.kind, OldKind::Directory)),
        None => {
            let stands = folder.look(alloc, path)?;
            Ok(is_directory(&stands))
        }
    }
}

/// All names but the last.
fn parent_of(alloc: Global, path: &Path) -> Result<Path, NoMemory>
    ensures { IfOk result (λ above. above ≡ parent path.now) }
{
    let names = path.names().items();
    let front = &names[..names.len().saturating_sub(1)];
    let mut above = Path::root(alloc);
    for name in front {
        if !above.push(name.copy()?)? {
            unreachable!();
        }
    }
    Ok(above)
}
