ghost use Rattle.std.specs.Prelude.{◌≡◌, ◌<◌, ◌↔◌, length, IsTrue, OnErr, OnOk, Some};
ghost use Rattle.folder_core.specs.Formed.{AreFiles-had};
ghost use Rattle.folder_core.specs.Path.{IsPath};
ghost use Rattle.folder_core.specs.Tree.{AreFiles};
ghost use Rattle.folder_memory.specs.Files.{files_of, put_at, HasFileAbove, HasRoom};

use crate::names::name_below;
use crate::nodes::copied_path;
use crate::places::{has_below, kids_of, last_before};
use crate::schedule::Schedule;
use folder_core::{Blob, Name, Path, Tree, TreeError};
use osgi_version::{List, NoMemory, Twin};
use std::alloc::Global;
use std::collections::BTreeMap;
use thiserror::Error;

/// Why a file wasn't put.
#[derive(Clone, Copy, Debug, PartialEq, Eq, Error)]
pub enum PutFault {
    /// A file stands above the path, or a directory at it.
    #[error("not a folder")]
    NotAFolder,
    #[error("out of memory")]
    NoMemory,
}

impl From<NoMemory> for PutFault {
    ghost use Rattle.std.specs.Prelude.{◌≡◌};
    ghost use Rattle.folder_memory.specs.declared.tree.PutFault.TheVariants as put_fault;

    ghost from_gives = { λ _ e. e ≡ put_fault.NoMemory };

    fn from(_error: NoMemory) -> PutFault {
        PutFault::NoMemory
    }
}

impl Twin for PutFault {
    fn copy(&self) -> Result<PutFault, NoMemory> {
        Ok(*self)
    }
}

/// A tree of files in memory. A look-up costs the logarithm of the number of its files, and so does a `put`.
#[derive(Debug, Drop)]
pub struct MemoryTree {
    files: BTreeMap<Path, Blob>,
    schedule: Schedule,
    ghost formed: { ∥ AreFiles (files_of files) ∥₁ },
}

impl MemoryTree {
    ghost use Rattle.folder_memory.specs.Files.{no_files, Puts};
    ghost use Rattle.folder_memory.specs.MemoryTree.{told_by, schedule_of};
    ghost use Rattle.folder_memory.specs.Schedule.{quiet};

    /// A tree with no file. No call fails.
    pub fn new(alloc: Global) -> MemoryTree
        ensures files { told_by result ≡ no_files }
        ensures schedule { schedule_of result ≡ quiet }
    {
        MemoryTree {
            files: BTreeMap::new(alloc),
            schedule: Schedule::new(alloc),
        }
    }

    /// These calls fail, counted from 1, from now on. They take the place of earlier ones. Each call goes through this list.
    pub fn fail_at(&mut self, calls: List<u64>)
        ensures files { told_by self.new ≡ told_by self.old }
        ensures schedule { schedule_of self.new
            ≡ record (schedule_of self.old) { listed = calls; listed_after = (schedule_of self.old).calls } }
    {
        self.schedule.fail_at(calls);
    }

    /// Puts a file at a path, in the place of an earlier one there, and makes the directories that are missing. Refused,
    /// it changes nothing.
    pub fn put(&mut self, path: &Path, blob: &Blob) -> Result<(), PutFault>
        ensures files { Puts path.now blob.now (told_by self.old) (told_by self.new) result }
        ensures schedule { schedule_of self.new ≡ schedule_of self.old }
    {
        if !has_room(&self.files, path) {
            return Err(PutFault::NotAFolder);
        }
        place_file(&mut self.files, path, blob)?;
        Ok(())
    }
}

fn has_file_above(files: &BTreeMap<Path, Blob>, path: &Path) -> bool
    requires { AreFiles (files_of files.now) }
    ensures { IsTrue result ↔ HasFileAbove (files_of files.now) path.now }
{
    match last_before(files, path) {
        Some((place, _)) => name_below(place, path).is_some(),
        None => false,
    }
}

fn has_room(files: &BTreeMap<Path, Blob>, path: &Path) -> bool
    requires { AreFiles (files_of files.now) }
    ensures { IsTrue result ↔ HasRoom (files_of files.now) path.now }
{
    !path.names().is_empty() && !has_file_above(files, path) && !has_below(files, path)
}

/// Puts a file at a path. Refused, it changes nothing.
fn place_file(files: &mut BTreeMap<Path, Blob>, path: &Path, blob: &Blob) -> Result<(), NoMemory>
    ensures ok { OnOk result (files_of files.new ≡ put_at (files_of files.old) path.now blob.now) }
    ensures err { OnErr result (files_of files.new ≡ files_of files.old) }
    ensures path { IsPath path.now }
{
    files.insert(copied_path(path)?, blob.copy()?)?;
    Ok(())
}

fn is_longer(blob: &Blob, limit: u64) -> bool
    ensures { IsTrue result ↔ (limit < length blob.now) }
{
    blob.bytes().len() as u64 > limit
}

impl Tree for MemoryTree {
    ghost use Rattle.std.specs.Prelude.{◌≡◌, ◌≤◌, ◌<◌, ◌↔◌, [], ◌∷◌, ◌++◌, length, Some, IfOk, IfSome, IsErrOf, IsSomeAnd};
    ghost use Rattle.folder_core.specs.Cause.{HasCause};
    ghost use Rattle.folder_core.specs.Formed.{AreFiles-had};
    ghost use Rattle.folder_core.specs.Name.{AreRising, AreThose};
    ghost use Rattle.folder_core.specs.Tree.{HasBelow};
    ghost use Rattle.folder_memory.specs.Files.{files_of};
    ghost use Rattle.folder_memory.specs.MemoryTree.{told_by, schedule_of};
    ghost use Rattle.folder_memory.specs.Schedule.{Counts, FailsNext};

    ghost told = { λ t. Some (files_of t.files) };

    ghost faults = { λ t. t.schedule.faults };

    ghost formed = { λ t. AreFiles-had (files_of t.files) t.formed };

    /// Goes through what stands below the path.
    fn kids(&mut self, alloc: Global, path: &Path) -> Result<List<Name>, TreeError>
        ensures kids { IfOk result (AreThose (λ name. HasBelow (told_by self.old) (path.now ++ name ∷ []))) }
        ensures rising { IfOk result AreRising }
        ensures never_too_large { ¬ (IsErrOf result TreeError.TooLarge) }
        ensures stays { ⟦<MemoryTree as Tree>⟧.told self.new ≡ ⟦<MemoryTree as Tree>⟧.told self.old }
        ensures cause { HasCause (schedule_of self.old).faults (schedule_of self.new).faults (IsErrOf result TreeError.Failed) }

        // It fails exactly where it is told to, but for want of memory.
        ensures fails { IsErrOf result TreeError.Failed ↔ FailsNext (schedule_of self.old) }
        ensures counts { Counts (FailsNext (schedule_of self.old)) (schedule_of self.old) (schedule_of self.new) }
    {
        if self.schedule.next() {
            return Err(TreeError::Failed);
        }
        Ok(kids_of(alloc, &self.files, path)?)
    }

    fn read(&mut self, _alloc: Global, path: &Path, limit: u64) -> Result<Option<Blob>, TreeError>
        requires { limit ≤ 67108864 }

        ensures found { IfOk result (λ found. told_by self.old path.now ≡ found) }
        ensures within { IfOk result (λ found. IfSome found (λ blob. length blob ≤ limit)) }
        ensures too_large { IsErrOf result TreeError.TooLarge → IsSomeAnd (told_by self.old path.now) (λ bytes. limit < length bytes) }
        ensures stays { ⟦<MemoryTree as Tree>⟧.told self.new ≡ ⟦<MemoryTree as Tree>⟧.told self.old }
        ensures cause { HasCause (schedule_of self.old).faults (schedule_of self.new).faults (IsErrOf result TreeError.Failed) }

        // It fails exactly where it is told to, but for want of memory.
        ensures fails { IsErrOf result TreeError.Failed ↔ FailsNext (schedule_of self.old) }
        ensures counts { Counts (FailsNext (schedule_of self.old)) (schedule_of self.old) (schedule_of self.new) }
    {
        if self.schedule.next() {
            return Err(TreeError::Failed);
        }
        let Some(blob) = self.files.get(path) else {
            return Ok(None);
        };
        if is_longer(blob, limit) {
            return Err(TreeError::TooLarge);
        }
        Ok(Some(blob.copy()?))
    }
}
