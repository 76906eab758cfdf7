ghost use Rattle.std.specs.Prelude.{◌≡◌, ◌+◌, ◌∷◌, ◌++◌, ◌<◌, [], true, false, List as Items, IfOk, IfErr, OnOk, IsErrAnd, IsErrOf};
ghost use Rattle.std.specs.Option.{option_copied};
ghost use Rattle.folder_core.specs.Cause.{HasCause};
ghost use Rattle.folder_core.specs.Step.{OnTold};
ghost use Rattle.backup_store.specs.Fault.{IfDamaged};
ghost use Rattle.backup_store.specs.Held.{Counts};
ghost use Rattle.backup_store.specs.Places.{entry_path};
ghost use Rattle.backup_store.specs.declared.entry.Entry.{Entry as AnEntry};
ghost use Rattle.install_journal.specs.Broken.{IsSound, IsUnsound, NamesUnsound};
ghost use Rattle.install_journal.specs.Looks.{OnlyLooks};
ghost use Rattle.install_journal.specs.Plan.{IsGathered, kind_of};
ghost use Rattle.install_journal.specs.Preparing.{IsUnchanged};
ghost use Rattle.install_journal.specs.Reading.{AreNoted, IsReadTo, IsReadWhole, IsListed};
ghost use Rattle.install_journal.specs.Undoing.{IsFailure, OnDamage};

use crate::fault::JournalFault;
use crate::plan::{OldKind, Oldest, Plan};
use backup_store::{Entry, EntryNumber, StoreFault, counts, entry_path, read_kept};
use folder_core::{After, Folder, Node, Path};
use osgi_version::{List, NoMemory};
use std::alloc::Global;
use std::collections::BTreeMap;

const MOST_ENTRIES: u32 = 1_000_000;

/// What is noted of the first entry of a path.
#[derive(Clone, Copy)]
struct First {
    number: EntryNumber,
    kind: OldKind,
}

/// The entries that were read so far.
#[derive(Drop)]
struct Gathered {
    count: u32,
    firsts: BTreeMap<Path, First>,
}

/// Reads the entries that count, and finds the oldest of each path. Each entry costs a look-up among the paths so far.
pub(crate) fn read_counted<F: Folder>(alloc: Global, folder: &mut F) -> Result<Plan, JournalFault>
    ensures gathered { IfOk result (λ plan. OnTold (F.told folder.old) (λ s. IsGathered plan s.now)) }
    ensures damaged { IfErr result (OnDamage (λ at. OnTold (F.told folder.old) (λ s. NamesUnsound s.now at))) }
    ensures unchanged { IfErr result IsUnchanged }
    ensures looks { OnlyLooks F.told F.left_since folder.old folder.new }
    ensures cause { HasCause (F.faults folder.old) (F.faults folder.new) (IsErrAnd result IsFailure) }
{
    match read_plan(alloc, folder) {
        Ok(plan) => Ok(plan),
        Err(StoreFault::Failed) => Err(JournalFault::Failed(After::Unchanged)),
        Err(StoreFault::Damaged { path }) => Err(JournalFault::Damaged { path }),
        Err(StoreFault::NoMemory) => Err(JournalFault::NoMemory(After::Unchanged)),
    }
}

fn read_plan<F: Folder>(alloc: Global, folder: &mut F) -> Result<Plan, StoreFault>
    ensures gathered { IfOk result (λ plan. OnTold (F.told folder.old) (λ s. IsGathered plan s.now)) }
    ensures damaged { IfErr result (λ fault. IfDamaged fault (λ at. OnTold (F.told folder.old) (λ s. NamesUnsound s.now at))) }
    ensures looks { OnlyLooks F.told F.left_since folder.old folder.new }
    ensures cause { HasCause (F.faults folder.old) (F.faults folder.new) (IsErrOf result StoreFault.Failed) }
{
    let Gathered { count, firsts } = read_all(alloc, folder)?;
    let oldest = in_order(alloc, firsts)?;
    Ok(Plan { count, oldest })
}

/// Reads entry after entry, as long as each counts.
fn read_all<F: Folder>(alloc: Global, folder: &mut F) -> Result<Gathered, StoreFault>
    ensures read { IfOk result (λ gathered. OnTold (F.told folder.old) (λ s. IsReadWhole s.now gathered)) }
    ensures damaged { IfErr result (λ fault. IfDamaged fault (λ at. OnTold (F.told folder.old) (λ s. NamesUnsound s.now at))) }
    ensures looks { OnlyLooks F.told F.left_since folder.old folder.new }
    ensures cause { HasCause (F.faults folder.old) (F.faults folder.new) (IsErrOf result StoreFault.Failed) }
{
    let mut gathered = Gathered {
        count: 0,
        firsts: BTreeMap::new(alloc),
    };
    'entries: while gathered.count < MOST_ENTRIES {
        if !read_next(alloc, folder, &mut gathered)? {
            return Ok(gathered);
        }
    }
    Ok(gathered)
}

/// Reads the next entry and notes it, and answers true, or answers false where it doesn't count.
fn read_next<F: Folder>(
    alloc: Global,
    folder: &mut F,
    gathered: &mut Gathered,
) -> Result<bool, StoreFault>
    requires { gathered.old.count < 1000000 }
    ensures more { IfOk result (λ more. more ≡ true → OnTold (F.told folder.old) (λ s. IsReadTo s.now gathered.old → IsReadTo s.now gathered.new)) }
    ensures counts { IfOk result (λ more. more ≡ true → gathered.new.count ≡ gathered.old.count + 1) }
    ensures end { IfOk result (λ more. more ≡ false → OnTold (F.told folder.old) (λ s. ¬ (Counts s.now (gathered.old.count + 1)))) }
    ensures kept { IfOk result (λ more. more ≡ false → gathered.new ≡ gathered.old) }
    ensures damaged { IfErr result (λ fault. IfDamaged fault (λ at. OnTold (F.told folder.old) (λ s. IsReadTo s.now gathered.old → NamesUnsound s.now at))) }
    ensures looks { OnlyLooks F.told F.left_since folder.old folder.new }
    ensures cause { HasCause (F.faults folder.old) (F.faults folder.new) (IsErrOf result StoreFault.Failed) }
{
    let number = EntryNumber(gathered.count + 1);
    if !counts(alloc, folder, number)? {
        return Ok(false);
    }
    let entry = read_sound(alloc, folder, number)?;
    note(gathered, entry)?;
    Ok(true)
}

/// The entry of this number. It is damage where its file is no entry's text, or its path is the root, `.p2` or below `.p2`.
fn read_sound<F: Folder>(
    alloc: Global,
    folder: &mut F,
    number: EntryNumber,
) -> Result<Entry, StoreFault>
    ensures sound { IfOk result (λ entry. OnTold (F.told folder.old) (λ s. IsSound s.now number.0 entry.path entry.before)) }
    ensures damaged { IfErr result (λ fault. IfDamaged fault (λ at. OnTold (F.told folder.old) (λ s. IsUnsound s.now number.0))) }
    ensures named { IfErr result (λ fault. IfDamaged fault (λ at. at ≡ entry_path number.0)) }
    ensures looks { OnlyLooks F.told F.left_since folder.old folder.new }
    ensures cause { HasCause (F.faults folder.old) (F.faults folder.new) (IsErrOf result StoreFault.Failed) }
{
    match read_kept(alloc, folder, number)? {
        Some(entry) if !entry.path.names().is_empty() => Ok(entry),
        _ => Err(StoreFault::Damaged {
            path: entry_path(alloc, number)?,
        }),
    }
}

/// Notes the next entry. Where an earlier one has its path, that one stays.
fn note(gathered: &mut Gathered, entry: Entry) -> Result<(), NoMemory>
    requires { gathered.old.count < 1000000 }
    ensures noted { OnOk result ((entries : Items AnEntry) → AreNoted entries gathered.old → AreNoted (entries ++ entry ∷ []) gathered.new) }
    ensures count { OnOk result (gathered.new.count ≡ gathered.old.count + 1) }
{
    let number = EntryNumber(gathered.count + 1);
    let Entry { path, before } = entry;
    let kind = kind_of(before.as_ref());
    if !gathered.firsts.contains_key(&path) {
        gathered.firsts.insert(path, First { number, kind })?;
    }
    gathered.count += 1;
    Ok(())
}

fn kind_of(before: Option<&Node>) -> OldKind
    ensures { result ≡ kind_of (option_copied before.entry) }
{
    match before {
        None => OldKind::Nothing,
        Some(Node::Dir) => OldKind::Directory,
        Some(_) => OldKind::Leaf,
    }
}

/// What was noted, in the order of paths.
fn in_order(alloc: Global, firsts: BTreeMap<Path, First>) -> Result<List<Oldest>, NoMemory>
    ensures { IfOk result (IsListed firsts) }
{
    let mut list = List::new(alloc);
    for (path, first) in firsts {
        let First { number, kind } = first;
        list.push(Oldest { path, number, kind })?;
    }
    Ok(list)
}
