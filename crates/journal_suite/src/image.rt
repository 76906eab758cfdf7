//! What a crash leaves, and which installation stands.

use crate::line::say;
use crate::quiet::Quiet;
use folder_core::{Node, Touch};
use folder_memory::{ImageFault, MemoryFolder};
use folder_rows::{RowFault, push_contents, push_image_fault, read_choice};
use osgi_version::{List, NoMemory, Twin};
use std::alloc::Global;
use suite_row::Row;

/// Which image a crash leaves: the nodes that were synced, those that stand now, or a directory at each touched path.
#[derive(Clone, Copy, Debug, PartialEq, Eq)]
pub enum Left {
    Synced,
    Now,
    Directories,
}

pub const EACH: [Left; 3] = [Left::Synced, Left::Now, Left::Directories];

/// The folder as a crash leaves it. None where directories can't stand at all touched paths.
pub fn crashed(alloc: Global, folder: &Quiet, left: Left) -> Result<Option<Quiet>, RowFault> {
    let choice = chosen(alloc, &folder.inner, left)?;
    match folder.inner.image(alloc, &choice) {
        Ok(inner) => Ok(Some(Quiet { inner })),
        Err(ImageFault::NotWellFormed) => Ok(None),
        Err(ImageFault::NotTouched { .. }) => Err(RowFault::Spelling),
        Err(ImageFault::NoMemory) => Err(RowFault::NoMemory),
    }
}

fn chosen(alloc: Global, folder: &MemoryFolder, left: Left) -> Result<List<Touch>, NoMemory> {
    let mut choice = List::new(alloc);
    if left == Left::Synced {
        return Ok(choice);
    }
    for path in folder.touched() {
        let path_left = path.copy()?;
        let node = node_left(folder.node(path), left)?;
        choice.push(Touch {
            path: path_left,
            node,
        })?;
    }
    Ok(choice)
}

fn node_left(now: Option<&Node>, left: Left) -> Result<Option<Node>, NoMemory> {
    match now {
        _ if left == Left::Directories => Ok(Some(Node::Dir)),
        Some(node) => Ok(Some(node.copy()?)),
        None => Ok(None),
    }
}

/// A copy of a folder, in which all is synced and no call fails.
pub fn copy_of(alloc: Global, folder: &Quiet) -> Result<Quiet, RowFault> {
    match crashed(alloc, folder, Left::Now)? {
        Some(copy) => Ok(copy),
        None => Err(RowFault::Spelling),
    }
}

/// What stands outside `.p2`, spelled as the rows spell it.
pub fn installation(alloc: Global, folder: &Quiet) -> Result<Vec<u8>, NoMemory> {
    let mut whole = Vec::new(alloc);
    push_contents(&mut whole, &folder.inner)?;
    let mut text = Vec::new(alloc);
    push_parts(&mut text, whole.as_slice(), false)?;
    Ok(text)
}

/// Adds the fields of a line that are in the journal, or the others.
fn push_parts(text: &mut Vec<u8>, whole: &[u8], journal: bool) -> Result<(), NoMemory> {
    for field in whole.split(|byte| *byte == b' ') {
        if !field.is_empty() && is_journal(field) == journal {
            text.push(b' ')?;
            text.extend_from_slice(field)?;
        }
    }
    Ok(())
}

fn is_journal(field: &[u8]) -> bool {
    field.starts_with(b".p2=") || field.starts_with(b".p2/")
}

/// `show`: what stands outside `.p2`. `journal`: what stands in it.
pub fn show(
    alloc: Global,
    folder: &Quiet,
    journal: bool,
    line: &mut Vec<u8>,
) -> Result<(), RowFault> {
    let mut whole = Vec::new(alloc);
    push_contents(&mut whole, &folder.inner)?;
    say(line, if journal { "journal" } else { "show" })?;
    Ok(push_parts(line, whole.as_slice(), journal)?)
}

/// `crash CHOICE ..`: the folder becomes the image of these choices.
pub fn crash(
    alloc: Global,
    folder: &mut Quiet,
    row: &Row,
    line: &mut Vec<u8>,
) -> Result<(), RowFault> {
    let choice = read_choice(alloc, &folder.inner, row, 1)?;
    match folder.inner.image(alloc, &choice) {
        Ok(inner) => {
            folder.inner = inner;
            Ok(say(line, "crashed")?)
        }
        Err(fault) => Ok(push_image_fault(line, fault)?),
    }
}
