ghost use Rattle.std.specs.Prelude.{◌≡◌, ◌++◌, ◌∷◌, ◌<◌, [], length, IfOk};
ghost use Rattle.folder_core.specs.Name.{IsName};
ghost use Rattle.folder_core.specs.Node.{entries_path};
ghost use Rattle.backup_store.specs.Places.{gate_path};
ghost use Rattle.install_journal.specs.Preparing.{journal_path};

use folder_core::{Name, Path};
use osgi_version::{NoMemory, Text, Twin};
use std::alloc::Global;

/// Where the journal stands in a folder.
#[derive(Debug, Drop)]
pub(crate) struct Places {
    /// `.p2`.
    pub(crate) journal: Path,
    /// `.p2/e`.
    pub(crate) entries: Path,
    /// `.p2/undo`.
    pub(crate) gate: Path,
}

impl Places {
    pub(crate) fn new(alloc: Global) -> Result<Places, NoMemory>
        ensures journal { IfOk result (λ places. places.journal ≡ journal_path) }
        ensures entries { IfOk result (λ places. places.entries ≡ entries_path) }
        ensures gate { IfOk result (λ places. places.gate ≡ gate_path) }
    {
        let journal = below(alloc, Path::root(alloc), ".p2")?;
        let entries = below(alloc, journal.copy()?, "e")?;
        let gate = gate_path(alloc)?;
        Ok(Places {
            journal,
            entries,
            gate,
        })
    }
}

/// Where the gate stands: `.p2/undo`.
pub(crate) fn gate_path(alloc: Global) -> Result<Path, NoMemory>
    ensures { IfOk result (λ path. path ≡ gate_path) }
{
    let journal = below(alloc, Path::root(alloc), ".p2")?;
    below(alloc, journal, "undo")
}

/// The path with this name at its end.
fn below(alloc: Global, mut path: Path, name: &str) -> Result<Path, NoMemory>
    requires name { IsName name.now }
    requires short { length path < 64 }
    ensures { IfOk result (λ longer. longer ≡ path ++ name.now ∷ []) }
{
    let Some(name) = Name::new(&Text::from_str(alloc, name)?)? else {
        unreachable!()
    };
    if path.push(name)? {
        Ok(path)
    } else {
        unreachable!()
    }
}

/// The path of a child.
pub(crate) fn child(path: &Path, name: &Name) -> Result<Path, NoMemory>
    requires { length path.now < 64 }
    ensures { IfOk result (λ longer. longer ≡ path.now ++ name.now ∷ []) }
{
    let mut longer = path.copy()?;
    if longer.push(name.copy()?)? {
        Ok(longer)
    } else {
        unreachable!()
    }
}
