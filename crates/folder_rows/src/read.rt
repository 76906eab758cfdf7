use crate::fault::RowFault;
use folder_core::{Blob, Node, Path, Touch};
use folder_memory::MemoryFolder;
use osgi_version::{List, NoMemory, Text, Twin};
use std::alloc::Global;
use suite_row::Row;

const USUAL_MODE: u16 = 0o644;

/// The path with this text.
pub fn read_path(alloc: Global, text: &Text) -> Result<Path, RowFault> {
    match Path::read(alloc, text)? {
        Some(path) => Ok(path),
        None => Err(RowFault::Spelling),
    }
}

/// The node that a field says, or None where it says `none`.
pub fn read_node(alloc: Global, text: &Text) -> Result<Option<Node>, RowFault> {
    node_of(alloc, text.as_str())
}

fn node_of(alloc: Global, spelling: &str) -> Result<Option<Node>, RowFault> {
    match spelling {
        "none" => Ok(None),
        "dir" => Ok(Some(Node::Dir)),
        _ => Ok(Some(link_or_file(alloc, spelling)?)),
    }
}

fn link_or_file(alloc: Global, spelling: &str) -> Result<Node, RowFault> {
    if let Some(target) = spelling.strip_prefix('>') {
        let target = Text::from_str(alloc, target)?;
        return Ok(Node::Link { target });
    }
    if let Some((mode, bytes)) = spelling.split_once('#') {
        return file(mode, bytes_of(alloc, bytes)?);
    }
    match spelling.split_once('*') {
        Some((mode, count)) => file(mode, zeros(alloc, count)?),
        None => Err(RowFault::Spelling),
    }
}

fn file(mode: &str, bytes: Vec<u8>) -> Result<Node, RowFault> {
    let Some(mode) = mode_of(mode) else {
        return Err(RowFault::Spelling);
    };
    match Blob::new(List::from_vec(bytes)) {
        Some(blob) => Ok(Node::File { mode, blob }),
        None => Err(RowFault::Spelling),
    }
}

fn mode_of(digits: &str) -> Option<u16> {
    if digits.is_empty() {
        return Some(USUAL_MODE);
    }
    u16::from_str_radix(digits, 8).ok()
}

fn bytes_of(alloc: Global, text: &str) -> Result<Vec<u8>, NoMemory> {
    Ok(Vec::from_slice(alloc, text.as_bytes())?)
}

fn zeros(alloc: Global, count: &str) -> Result<Vec<u8>, RowFault> {
    match count.parse::<u32>() {
        Ok(count) => Ok(repeated(alloc, 0, count)?),
        Err(_) => Err(RowFault::Spelling),
    }
}

fn repeated(alloc: Global, byte: u8, count: u32) -> Result<Vec<u8>, NoMemory> {
    Ok(vec![in alloc; byte; count as usize]?)
}

/// The path and the node that a field `PATH=NODE` says.
pub fn read_touch(alloc: Global, text: &Text) -> Result<Touch, RowFault> {
    let Some((path, node)) = text.as_str().split_once('=') else {
        return Err(RowFault::Spelling);
    };
    let path = path_of(alloc, path)?;
    let node = node_of(alloc, node)?;
    Ok(Touch { path, node })
}

fn path_of(alloc: Global, spelling: &str) -> Result<Path, RowFault> {
    let text = Text::from_str(alloc, spelling)?;
    read_path(alloc, &text)
}

/// What a crash leaves at touched paths, by the fields of a row from this place on: the choices for
/// `MemoryFolder::image`.
pub fn read_choice(
    alloc: Global,
    folder: &MemoryFolder,
    row: &Row,
    first: usize,
) -> Result<List<Touch>, RowFault> {
    let mut choice = List::new(alloc);
    for place in first..row.len() {
        add_choices(alloc, folder, row.field(place), &mut choice)?;
    }
    Ok(choice)
}

fn add_choices(
    alloc: Global,
    folder: &MemoryFolder,
    field: &Text,
    choice: &mut List<Touch>,
) -> Result<(), RowFault> {
    match field.as_str() {
        "synced" => Ok(()),
        "now" => Ok(add_now(folder, choice)?),
        "dirs" => Ok(add_dirs(folder, choice)?),
        _ => Ok(choice.push(read_touch(alloc, field)?)?),
    }
}

/// The node that each touched path has now.
pub(crate) fn read_now(alloc: Global, folder: &MemoryFolder) -> Result<List<Touch>, NoMemory> {
    let mut choice = List::new(alloc);
    add_now(folder, &mut choice)?;
    Ok(choice)
}

fn add_now(folder: &MemoryFolder, choice: &mut List<Touch>) -> Result<(), NoMemory> {
    for path in folder.touched() {
        choice.push(touch_now(folder, path)?)?;
    }
    Ok(())
}

fn touch_now(folder: &MemoryFolder, path: &Path) -> Result<Touch, NoMemory> {
    let path_now = path.copy()?;
    let node = match folder.node(path) {
        Some(node) => Some(node.copy()?),
        None => None,
    };
    Ok(Touch {
        path: path_now,
        node,
    })
}

fn add_dirs(folder: &MemoryFolder, choice: &mut List<Touch>) -> Result<(), NoMemory> {
    for path in folder.touched() {
        let path = path.copy()?;
        choice.push(Touch {
            path,
            node: Some(Node::Dir),
        })?;
    }
    Ok(())
}

/// The numbers that the fields of a row from this place on say.
pub fn read_numbers(alloc: Global, row: &Row, first: usize) -> Result<List<u64>, RowFault> {
    let mut numbers = List::new(alloc);
    for place in first..row.len() {
        match row.number(place) {
            Some(number) => numbers.push(number)?,
            None => return Err(RowFault::Spelling),
        }
    }
    Ok(numbers)
}
