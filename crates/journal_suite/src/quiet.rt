//! A folder in memory that tells nothing, so that no call on it has to show what stands there.

use folder_core::{Failed, Folder, FolderError, Name, Node, Path};
use folder_memory::MemoryFolder;
use osgi_version::List;
use std::alloc::Global;

#[derive(Drop)]
pub struct Quiet {
    pub inner: MemoryFolder,
}

impl Quiet {
    pub fn new(alloc: Global) -> Quiet {
        Quiet {
            inner: MemoryFolder::new(alloc),
        }
    }
}

impl Folder for Quiet {
    ghost use Rattle.std.specs.Prelude.{None};
    ghost use Rattle.folder_memory.specs.Memory.{schedule_of};

    ghost told = { λ _. None };

    ghost left_since = { λ _ _ _. ⊥ };

    ghost faults = { λ f. (schedule_of f.inner).faults };

    ghost image_now = { λ _. tt };

    ghost counts_now = { λ _. tt };

    ghost only_now = { λ _. tt };

    fn look(&mut self, alloc: Global, path: &Path) -> Result<Option<Node>, FolderError> {
        self.inner.look(alloc, path)
    }

    fn kids(&mut self, alloc: Global, path: &Path) -> Result<List<Name>, FolderError> {
        self.inner.kids(alloc, path)
    }

    /// A `set` that isn't allowed is refused.
    fn set(&mut self, path: &Path, node: Option<&Node>) -> Result<(), FolderError> {
        if !self.inner.can_set(path) {
            return Err(FolderError::NoMemory);
        }
        self.inner.set(path, node)
    }

    fn sync(&mut self) -> Result<(), Failed> {
        self.inner.sync()
    }
}
