use crate::faults::HostFault;
use crate::host_place::{find_root, find_text};
use folder_core::{Failed, Node};
use std::fs::{File, Files, Metadata, OpenFile, OpenOptions, Permissions};
use std::io;
use std::io::{ErrorKind, Write};
use std::os::unix::fs::PermissionsExt;

const OWNER_READS: u16 = 0o400;

/// Makes a root that isn't there, and the directories above it that aren't. Each is synced into the one that holds it.
/// A root that is there by now was made by another process, and is a fault.
pub fn make_root(files: &impl Files, root: &str) -> Result<(), Failed> {
    for end in 1..root.len() {
        if let Some((above, rest)) = root.split_at_checked(end)
            && rest.starts_with('/')
        {
            changed(make_missing(files, above))?;
        }
    }
    changed(make_directory(files, root))
}

/// What a step that may have changed something tells: of its failure no more than that.
pub fn changed<T, E: Drop>(outcome: Result<T, E>) -> Result<T, Failed> {
    match outcome {
        Ok(value) => Ok(value),
        Err(_) => Err(Failed),
    }
}

fn make_missing(files: &impl Files, directory: &str) -> Result<(), HostFault> {
    if find_root(files, directory)?.is_some() {
        return Ok(());
    }
    make_directory(files, directory)
}

fn make_directory(files: &impl Files, directory: &str) -> Result<(), HostFault> {
    let holder = File::open(files, holder_of(directory))?;
    files.create_dir(directory)?;
    Ok(holder.sync_all()?)
}

fn holder_of(directory: &str) -> &str {
    match directory.rsplit_once('/') {
        Some(("", _)) => "/",
        Some((holder, _)) => holder,
        None => ".",
    }
}

/// Puts a node at a text, or takes the one there away.
pub fn put(files: &impl Files, text: &str, node: Option<&Node>) -> Result<(), HostFault> {
    let found = find_text(files, text)?;
    changed(replace(files, text, found.as_ref(), node))?;
    Ok(())
}

/// A directory that stands where one is put stays, with all that is in it.
fn replace(
    files: &impl Files,
    text: &str,
    found: Option<&Metadata>,
    node: Option<&Node>,
) -> io::Result<()> {
    match (found, node) {
        (Some(found), Some(Node::Dir)) if found.is_dir() => return Ok(()),
        (Some(found), _) => take_away(files, text, found)?,
        (None, _) => {}
    }
    match node {
        None => Ok(()),
        Some(Node::Dir) => files.create_dir(text),
        Some(Node::File { mode, blob }) => write_new(files, text, *mode, blob.bytes()),
        Some(Node::Link { target }) => files.symlink(target.as_str(), text),
    }
}

/// Takes away a file, a link or an empty directory. Any other node stays, with an error.
fn take_away(files: &impl Files, text: &str, found: &Metadata) -> io::Result<()> {
    if found.is_dir() {
        return files.remove_dir(text);
    }
    if found.is_file() || found.is_symlink() {
        return files.remove_file(text);
    }
    Err(io::Error::from(ErrorKind::Unsupported))
}

/// Makes a file where nothing stands. It has its mode before it has its first byte. A file that its owner can't read
/// couldn't be opened again, and is synced at once.
fn write_new(files: &impl Files, text: &str, mode: u16, bytes: &[u8]) -> io::Result<()> {
    let mut file = OpenOptions::new()
        .write(true)
        .create_new(true)
        .open(files, text)?;
    file.set_permissions(Permissions::from_mode(u32::from(mode)))?;
    file.write_all(bytes)?;
    if mode & OWNER_READS == 0 {
        file.sync_all()?;
    }
    Ok(())
}
