ghost use Rattle.std.specs.Prelude.{◌≡◌, ◌≤◌, length, None, IfOk, IfSome, IsErrOf};
ghost use Rattle.folder_core.specs.Name.{AreRising};
ghost use Rattle.host_adapters.specs.Found.{HasAtMost};

use crate::faults::{Faults, HostFault};
use crate::host_place::{Place, below, find, find_root, find_text, text_of};
use crate::host_read::{read_file, read_names};
use folder_core::{Blob, Name, Path, Tree, TreeError};
use osgi_version::List;
use std::alloc::Global;
use std::fs::Files;

/// A tree of files of the host, below a root that is a directory or a link to one. No other link is followed: a link, as
/// a special file, is neither a file nor a directory. `kids` names all that stands in a directory, also what is neither,
/// and a directory with no file below it.
///
/// The source of a command doesn't change while the command runs, so a directory is looked at once as long as the calls
/// stay in it, and a file costs a look, an open, a read and a close.
///
/// Each error of the host is a fault, but for want of memory. So are a root that isn't there, and a name that is no
/// `Name`.
#[derive(Drop)]
pub struct HostTree<R> {
    files: HostFiles<R>,
    faults: Faults,
}

impl<R: Files + AllocGlobal + Clone + Drop> HostTree<R> {
    pub fn new(runtime: R, root: String) -> HostTree<R>
        ensures { ⟦<HostTree<R> as Tree>⟧.faults result ≡ 0 }
    {
        let files = HostFiles {
            runtime,
            root,
            directory: None,
        };
        HostTree {
            files,
            faults: Faults::new(),
        }
    }
}

impl<R: Files + AllocGlobal + Clone + Drop> Tree for HostTree<R> {
    ghost told = { λ _. None };

    ghost faults = { λ t. t.faults };

    ghost formed = { λ _. tt };

    fn kids(&mut self, alloc: Global, path: &Path) -> Result<List<Name>, TreeError> {
        let outcome = self.files.kids(alloc, path);
        Ok(self.faults.counted(outcome)?)
    }

    fn read(&mut self, alloc: Global, path: &Path, limit: u64) -> Result<Option<Blob>, TreeError> {
        let outcome = self.files.read(alloc, path, limit);
        match self.faults.counted(outcome)? {
            Found::Nothing => Ok(None),
            Found::Whole(blob) => Ok(Some(blob)),
            Found::TooLarge => Err(TreeError::TooLarge),
        }
    }
}

/// What a reading of a file finds.
#[derive(Drop)]
enum Found {
    Nothing,
    Whole(Blob),
    TooLarge,
}

/// The files below a root, and the place that was asked for last as a directory.
#[derive(Drop)]
struct HostFiles<R> {
    runtime: R,
    root: String,
    directory: Option<Place>,
}

impl<R: Files + AllocGlobal + Clone + Drop> HostFiles<R> {
    fn kids(&mut self, alloc: Global, path: &Path) -> Result<List<Name>, HostFault>
        ensures { IfOk result AreRising }
    {
        self.go_to(alloc, path.names().items())?;
        match &self.directory {
            Some(place) if place.is_directory() => {
                read_names(&self.runtime, alloc, place.text.as_str())
            }
            _ => Ok(List::new(alloc)),
        }
    }

    fn read(&mut self, alloc: Global, path: &Path, limit: u64) -> Result<Found, HostFault>
        requires { limit ≤ 67174400 }
        ensures { IfOk result (HasAtMost limit) }
    {
        let Some((name, holders)) = path.names().items().split_last() else {
            self.go_to(alloc, path.names().items())?;
            return Ok(Found::Nothing);
        };
        self.go_to(alloc, holders)?;
        match &self.directory {
            Some(place) if place.is_directory() => {
                read_in(&self.runtime, alloc, place.text.as_str(), name, limit)
            }
            _ => Ok(Found::Nothing),
        }
    }

    /// Looks at the place to which these names lead, unless it is the one that was looked at last. The root has to be
    /// there.
    fn go_to(&mut self, alloc: Global, names: &[Name]) -> Result<(), HostFault> {
        let text = text_of(alloc, self.root.as_str(), names)?;
        if is_at(&self.directory, text.as_str()) {
            return Ok(());
        }
        if self.directory.is_none() && find_root(&self.runtime, self.root.as_str())?.is_none() {
            return Err(HostFault::Failed);
        }
        self.directory = Some(find(&self.runtime, alloc, self.root.as_str(), names)?);
        Ok(())
    }
}

fn is_at(place: &Option<Place>, text: &str) -> bool {
    match place {
        Some(place) => place.text.as_str() == text,
        None => false,
    }
}

/// What a file directly below a directory has.
fn read_in<R: Files>(
    files: &R,
    alloc: Global,
    directory: &str,
    name: &Name,
    limit: u64,
) -> Result<Found, HostFault>
    requires { limit ≤ 67174400 }
    ensures { IfOk result (HasAtMost limit) }
{
    let text = below(alloc, directory, name)?;
    let told = match find_text(files, text.as_str())? {
        Some(found) if found.is_file() => found.len(),
        _ => return Ok(Found::Nothing),
    };
    match read_file(files, alloc, text.as_str(), told, limit)? {
        Some(blob) => Ok(Found::Whole(blob)),
        None => Ok(Found::TooLarge),
    }
}
