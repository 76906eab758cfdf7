//! Rows that put the nodes of a folder, and those that ask for them.

ghost use Rattle.std.specs.Prelude.{IfSome};
ghost use Rattle.std.specs.Option.{option_copied};
ghost use Rattle.folder_core.specs.Folder.{CanSet};
ghost use Rattle.folder_core.specs.Node.{IsNode, IsSmallAt};
ghost use Rattle.folder_memory.specs.Memory.{told_by};

use crate::writing::{push_lines, push_text, push_word};
use folder_core::{Blob, Folder, FolderError, Name, Node, Path};
use folder_memory::{ImageFault, MemoryFolder};
use osgi_version::{List, NoMemory, Twin};
use std::alloc::Global;
use suite_row::Row;

const MOST_SHOWN: usize = 1_000;

const FILE_MODE: u16 = 0o644;

/// `set dir PATH`, `set file PATH TEXT` or `set link PATH TARGET`.
pub(crate) fn push_set(
    alloc: Global,
    folder: &mut MemoryFolder,
    row: &Row,
    text: &mut Vec<u8>,
) -> Result<(), NoMemory> {
    let Some(node) = node_of(alloc, row)? else {
        return push_word(text, "no node");
    };
    match Path::read(alloc, row.field(2))? {
        Some(path) => set_at(folder, &path, &node, text),
        None => push_word(text, "no path"),
    }
}

fn node_of(alloc: Global, row: &Row) -> Result<Option<Node>, NoMemory> {
    match row.word(1) {
        "dir" => Ok(Some(Node::Dir)),
        "file" => file_of(alloc, row),
        "link" => Ok(Some(Node::Link {
            target: row.field(3).copy()?,
        })),
        _ => Ok(None),
    }
}

fn file_of(alloc: Global, row: &Row) -> Result<Option<Node>, NoMemory> {
    let bytes = List::from_vec(Vec::from_slice(alloc, row.field(3).bytes())?);
    Ok(Blob::new(bytes).map(|blob| Node::File {
        mode: FILE_MODE,
        blob,
    }))
}

fn set_at(
    folder: &mut MemoryFolder,
    path: &Path,
    node: &Node,
    text: &mut Vec<u8>,
) -> Result<(), NoMemory> {
    if !node.may_stand_at(path) || !folder.can_set(path) {
        return push_word(text, "not there");
    }
    match folder.set(path, Some(node)) {
        Ok(()) => push_word(text, "set"),
        Err(FolderError::Failed) => push_word(text, "failed"),
        Err(FolderError::NoMemory) => Err(NoMemory),
    }
}

/// `nodes`: all paths in their order, a directory with `/` behind it and a link with `@`.
pub(crate) fn push_nodes(
    alloc: Global,
    folder: &mut MemoryFolder,
    text: &mut Vec<u8>,
) -> Result<(), NoMemory> {
    push_word(text, "nodes")?;
    let mut open = Vec::new(alloc);
    open.push(Path::root(alloc))?;
    for _ in 0..MOST_SHOWN {
        let Some(path) = open.pop() else {
            break;
        };
        push_shown(alloc, folder, &path, &mut open, text)?;
    }
    Ok(())
}

/// One path. Those below it are still open.
fn push_shown(
    alloc: Global,
    folder: &mut MemoryFolder,
    path: &Path,
    open: &mut Vec<Path>,
    text: &mut Vec<u8>,
) -> Result<(), NoMemory> {
    if !path.names().is_empty() {
        push_marked(folder, path, text)?;
    }
    match folder.kids(alloc, path) {
        Ok(names) => open_kids(path, names.items(), open),
        Err(FolderError::NoMemory) => Err(NoMemory),
        Err(FolderError::Failed) => push_word(text, " failed"),
    }
}

fn push_marked(folder: &MemoryFolder, path: &Path, text: &mut Vec<u8>) -> Result<(), NoMemory> {
    push_text(text, &path.text()?)?;
    match folder.node(path) {
        Some(Node::Dir) => push_word(text, "/"),
        Some(Node::Link { .. }) => push_word(text, "@"),
        _ => Ok(()),
    }
}

/// The last is taken first.
fn open_kids(path: &Path, names: &[Name], open: &mut Vec<Path>) -> Result<(), NoMemory> {
    for name in names.iter().rev() {
        open.push(child_of(path, name)?)?;
    }
    Ok(())
}

fn child_of(path: &Path, name: &Name) -> Result<Path, NoMemory> {
    let mut child = path.copy()?;
    child.push(name.copy()?)?;
    Ok(child)
}

/// `node PATH`: what stands there.
pub(crate) fn push_node(
    alloc: Global,
    folder: &MemoryFolder,
    row: &Row,
    text: &mut Vec<u8>,
) -> Result<(), NoMemory> {
    match Path::read(alloc, row.field(1))? {
        Some(path) => push_found(alloc, folder.node(&path), text),
        None => push_word(text, "no path"),
    }
}

fn push_found(alloc: Global, node: Option<&Node>, text: &mut Vec<u8>) -> Result<(), NoMemory> {
    match node {
        None => push_word(text, "absent"),
        Some(Node::Dir) => push_word(text, "dir"),
        Some(Node::Link { target }) => {
            push_word(text, "link")?;
            push_text(text, target)
        }
        Some(Node::File { mode, blob }) => push_file(alloc, *mode, blob, text),
    }
}

fn push_file(alloc: Global, mode: u16, blob: &Blob, text: &mut Vec<u8>) -> Result<(), NoMemory> {
    let head = format!(in alloc; "file {mode:o}")?;
    push_word(text, head.as_str())?;
    push_lines(text, blob.bytes())
}

/// `touched`: the paths that were set since the last sync, in turn.
pub(crate) fn push_touched(folder: &MemoryFolder, text: &mut Vec<u8>) -> Result<(), NoMemory> {
    push_word(text, "touched")?;
    for path in folder.touched() {
        push_text(text, &path.text()?)?;
    }
    Ok(())
}

/// `crash`: what was synced is left, and nothing else.
pub(crate) fn push_crash(
    alloc: Global,
    folder: &mut MemoryFolder,
    text: &mut Vec<u8>,
) -> Result<(), NoMemory> {
    match folder.image(alloc, &List::new(alloc)) {
        Ok(image) => {
            *folder = image;
            push_word(text, "crashed")
        }
        Err(ImageFault::NoMemory) => Err(NoMemory),
        Err(_) => push_word(text, "no image"),
    }
}
