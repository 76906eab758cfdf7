ghost use Rattle.std.specs.Prelude.{◌≡◌, ◌++◌, ◌∷◌, ◌^◌, ◌<◌, [], length, IfOk};
ghost use Rattle.folder_core.specs.Name.{IsName};
ghost use Rattle.folder_core.specs.Node.{entries_path};
ghost use Rattle.backup_store.specs.Places.{entry_path, mark_path};

use crate::entry::EntryNumber;
use folder_core::{Name, Path};
use osgi_version::{NoMemory, Text};
use std::alloc::Global;

/// Where the file of an entry stands: `.p2/e/K`.
pub fn entry_path(alloc: Global, number: EntryNumber) -> Result<Path, NoMemory>
    ensures path { IfOk result (λ path. path ≡ entry_path number.0) }
    ensures range { number.0 < 2 ^ 32 }
{
    let name = number.0.to_string(alloc)?;
    in_entries(alloc, name.as_str())
}

/// Where the mark of an entry stands: `.p2/e/K.ok`.
pub(crate) fn mark_path(alloc: Global, number: EntryNumber) -> Result<Path, NoMemory>
    ensures { IfOk result (λ path. path ≡ mark_path number.0) }
{
    let mut name = number.0.to_string(alloc)?;
    name.push_str(".ok")?;
    in_entries(alloc, name.as_str())
}

/// The path of this name in the directory of the entries.
fn in_entries(alloc: Global, name: &str) -> Result<Path, NoMemory>
    requires { IsName name.now }
    ensures { IfOk result (λ path. path ≡ entries_path ++ name.now ∷ []) }
{
    let journal = below(alloc, Path::root(alloc), ".p2")?;
    let entries = below(alloc, journal, "e")?;
    below(alloc, entries, name)
}

/// The path with this name at its end.
fn below(alloc: Global, mut path: Path, name: &str) -> Result<Path, NoMemory>
    requires name { IsName name.now }
    requires short { length path < 64 }
    ensures { IfOk result (λ longer. longer ≡ path ++ name.now ∷ []) }
{
    let Some(name) = Name::new(&Text::from_str(alloc, name)?)? else {
        unreachable!()
    };
    if path.push(name)? {
        Ok(path)
    } else {
        unreachable!()
    }
}
