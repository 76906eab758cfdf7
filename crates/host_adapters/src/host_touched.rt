use crate::faults::HostFault;
use crate::host_place::find_text;
use indexmap::IndexSet;
use std::alloc::{AllocError, Global};
use std::fs::{File, Files, Metadata, OpenFile, read_dir};
use std::io;
use std::io::ErrorKind;
use std::os::unix::fs::PermissionsExt;

/// As many names as a path has at most, so no change stands deeper.
const MOST_NAMES: usize = 64;

const OWNER_READS: u32 = 0o400;

/// What was touched and not synced since: places, and the directories that hold them.
///
/// What a process before this one left unsynced nobody noted. So the first `sync` also takes what that process may have
/// touched: the root and the journal's own places; and where the gate of a change stands, every directory. That is
/// enough, since before a gate was taken away all else was synced, and where it stands a recovery sets or removes each path
/// of an entry again, and leaves those that are as they should be.
#[derive(Drop)]
pub struct Touched {
    places: IndexSet<String>,
    holders: IndexSet<String>,
    has_earlier: bool,
}

impl Touched {
    pub fn new(alloc: Global) -> Touched {
        Touched {
            places: IndexSet::new(alloc),
            holders: IndexSet::new(alloc),
            has_earlier: false,
        }
    }

    /// Notes a place that is about to be touched. A directory that can't be opened couldn't be synced, and is a fault.
    pub fn note(
        &mut self,
        files: &impl Files,
        alloc: Global,
        holder: &str,
        place: &str,
    ) -> Result<(), HostFault> {
        if self.add_holder(alloc, holder)? {
            File::open(files, holder)?;
        }
        self.places.insert(String::from_str(alloc, place)?)?;
        Ok(())
    }

    fn add_holder(&mut self, alloc: Global, holder: &str) -> Result<bool, HostFault> {
        Ok(self.holders.insert(String::from_str(alloc, holder)?)?)
    }

    /// Syncs each file that stands at a touched place, and then each directory that holds such a place and is there.
    /// Where one fails all stay noted.
    pub fn sync<R: Files + AllocGlobal + Clone + Drop>(
        &mut self,
        files: &R,
        root: &str,
    ) -> Result<(), HostFault> {
        if !self.has_earlier {
            self.note_earlier(files, files.alloc(), root)?;
            self.has_earlier = true;
        }
        for place in self.places.iter() {
            sync_file(files, place.as_str())?;
        }
        sync_directories(files, &self.holders)?;
        self.places.clear();
        self.holders.clear();
        Ok(())
    }

    fn note_earlier<R: Files + AllocGlobal + Clone + Drop>(
        &mut self,
        files: &R,
        alloc: Global,
        root: &str,
    ) -> Result<(), HostFault> {
        self.note_entries(files, alloc, format!(in alloc; "{root}/.p2/e")?.as_str())?;
        self.add_holder(alloc, format!(in alloc; "{root}/.p2")?.as_str())?;
        self.add_holder(alloc, root)?;
        let gate = format!(in alloc; "{root}/.p2/undo")?;
        if find_text(files, gate.as_str())?.is_some() {
            self.note_directories(files, alloc, root)?;
        }
        Ok(())
    }

    /// Notes a directory, if it is there, and the files in it.
    fn note_entries<R: Files + AllocGlobal + Clone + Drop>(
        &mut self,
        files: &R,
        alloc: Global,
        directory: &str,
    ) -> Result<(), HostFault> {
        match find_text(files, directory)? {
            Some(found) if found.is_dir() => {}
            _ => return Ok(()),
        }
        for entry in read_dir(files, directory)? {
            self.places
                .insert(place_in(alloc, directory, entry?.file_name())?)?;
        }
        self.add_holder(alloc, directory)?;
        Ok(())
    }

    /// Notes each directory below a root, as deep as a change can reach.
    fn note_directories<R: Files + AllocGlobal + Clone + Drop>(
        &mut self,
        files: &R,
        alloc: Global,
        root: &str,
    ) -> Result<(), HostFault> {
        let mut level = Vec::new(alloc);
        level.push(String::from_str(alloc, root)?)?;
        for _ in 0..MOST_NAMES {
            level = directories_below(files, alloc, level.as_slice())?;
            self.add_holders(alloc, level.as_slice())?;
        }
        Ok(())
    }

    fn add_holders(&mut self, alloc: Global, holders: &[String]) -> Result<(), HostFault> {
        for holder in holders {
            self.add_holder(alloc, holder.as_str())?;
        }
        Ok(())
    }
}

fn place_in(alloc: Global, directory: &str, name: &str) -> Result<String, AllocError> {
    Ok(format!(in alloc; "{directory}/{name}")?)
}

/// The directories that stand directly in one of these. A link is none.
fn directories_below<R: Files + AllocGlobal + Clone + Drop>(
    files: &R,
    alloc: Global,
    level: &[String],
) -> Result<Vec<String>, HostFault> {
    let mut below = Vec::new(alloc);
    for directory in level {
        push_directories(files, alloc, directory.as_str(), &mut below)?;
    }
    Ok(below)
}

fn push_directories<R: Files + AllocGlobal + Clone + Drop>(
    files: &R,
    alloc: Global,
    directory: &str,
    below: &mut Vec<String>,
) -> Result<(), HostFault> {
    for entry in read_dir(files, directory)? {
        let place = place_in(alloc, directory, entry?.file_name())?;
        let is_directory = match find_text(files, place.as_str())? {
            Some(found) => found.is_dir(),
            None => false,
        };
        if is_directory {
            below.push(place)?;
        }
    }
    Ok(())
}

/// What is gone, a link, and a directory have nothing to sync but their name. A file that its owner can't read was synced
/// when it was written.
fn sync_file(files: &impl Files, place: &str) -> Result<(), HostFault> {
    match found_at(files.symlink_metadata(place))? {
        Some(found) if found.is_file() && found.permissions().mode() & OWNER_READS != 0 => {
            Ok(File::open(files, place)?.sync_all()?)
        }
        _ => Ok(()),
    }
}

/// What stands at a place, also where the way to it leads through a file by now.
fn found_at(outcome: io::Result<Metadata>) -> io::Result<Option<Metadata>> {
    match outcome {
        Ok(found) => Ok(Some(found)),
        Err(error) if matches!(error.kind(), ErrorKind::NotFound | ErrorKind::NotADirectory) => Ok(
            None,
        ),
        Err(error) => Err(error),
    }
}

fn sync_directories(files: &impl Files, directories: &IndexSet<String>) -> Result<(), HostFault> {
    for directory in directories.iter() {
        sync_directory(files, directory.as_str())?;
    }
    Ok(())
}

/// A directory that is gone was touched itself, and what stands in its place is synced by the one that holds it.
fn sync_directory(files: &impl Files, directory: &str) -> Result<(), HostFault> {
    match found_at(files.metadata(directory))? {
        Some(found) if found.is_dir() => Ok(File::open(files, directory)?.sync_all()?),
        _ => Ok(()),
    }
}
