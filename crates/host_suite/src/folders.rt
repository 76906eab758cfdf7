//! The folder at hand, and others over the same files.

ghost use Rattle.std.specs.Prelude.{◌≡◌, None};

use crate::lines::{push as push_word, push_done, text_of};
use folder_core::{Folder, FolderError, Name, Node, Path};
use folder_rows::{RowFault, push_names, push_node, read_node, read_path, word_of};
use host_adapters::HostFolder;
use osgi_version::{List, NoMemory};
use std::alloc::Global;
use std::fs::File;
use suite_row::Row;

/// `open ROOT`: another folder takes the place of the one at hand.
pub fn open(
    rt: HostRuntime,
    folder: &mut HostFolder<HostRuntime, File>,
    row: &Row,
    line: &mut Vec<u8>,
) -> Result<(), RowFault> {
    let root = text_of(rt.alloc(), row.word(1))?;
    *folder = HostFolder::new(rt, root);
    Ok(push_word(line, "ok")?)
}

/// `other ROOT PATH`: what a second folder has at a path, beside the one at hand.
pub fn push_other(rt: HostRuntime, row: &Row, line: &mut Vec<u8>) -> Result<(), RowFault> {
    let path = read_path(rt.alloc(), row.field(2))?;
    Ok(push_second(rt, row.word(1), &path, line)?)
}

fn push_second(
    rt: HostRuntime,
    root: &str,
    path: &Path,
    line: &mut Vec<u8>,
) -> Result<(), NoMemory> {
    let root = text_of(rt.alloc(), root)?;
    let mut second = HostFolder::new(rt, root);
    push_found(second.look(rt.alloc(), path), line)
}

/// `put PATH NODE`, `look PATH`, `kids PATH` or `sync`.
pub fn push<F: Folder>(
    alloc: Global,
    folder: &mut F,
    row: &Row,
    line: &mut Vec<u8>,
) -> Result<(), RowFault>
    requires { F.told folder.old ≡ None }
{
    match row.word(0) {
        "put" => push_put(alloc, folder, row, line),
        "look" => push_look(alloc, folder, row, line),
        "kids" => push_kids(alloc, folder, row, line),
        _ => Ok(push_done(line, folder.sync().is_ok())?),
    }
}

fn push_put<F: Folder>(
    alloc: Global,
    folder: &mut F,
    row: &Row,
    line: &mut Vec<u8>,
) -> Result<(), RowFault>
    requires { F.told folder.old ≡ None }
{
    Ok(push_word(line, word_of_put(alloc, folder, row)?)?)
}

fn word_of_put<F: Folder>(
    alloc: Global,
    folder: &mut F,
    row: &Row,
) -> Result<&'static str, RowFault>
    requires { F.told folder.old ≡ None }
{
    let path = read_path(alloc, row.field(1))?;
    let node = read_node(alloc, row.field(2))?;
    Ok(word_of_answer(put(folder, &path, &node)))
}

/// Puts a node, or takes the one there away. A node that may not stand there fails, as `set` takes none.
pub fn put<F: Folder>(folder: &mut F, path: &Path, node: &Option<Node>) -> Result<(), FolderError>
    requires { F.told folder.old ≡ None }
{
    match node {
        Some(some) if !some.may_stand_at(path) => Err(FolderError::Failed),
        Some(some) => folder.set(path, Some(some)),
        None => folder.set(path, None),
    }
}

pub fn word_of_answer(answer: Result<(), FolderError>) -> &'static str {
    match answer {
        Ok(()) => "ok",
        Err(error) => word_of(error),
    }
}

fn push_look<F: Folder>(
    alloc: Global,
    folder: &mut F,
    row: &Row,
    line: &mut Vec<u8>,
) -> Result<(), RowFault> {
    let path = read_path(alloc, row.field(1))?;
    Ok(push_found(folder.look(alloc, &path), line)?)
}

fn push_found(
    found: Result<Option<Node>, FolderError>,
    line: &mut Vec<u8>,
) -> Result<(), NoMemory> {
    match found {
        Ok(node) => push_node(line, node.as_ref()),
        Err(error) => push_word(line, word_of(error)),
    }
}

fn push_kids<F: Folder>(
    alloc: Global,
    folder: &mut F,
    row: &Row,
    line: &mut Vec<u8>,
) -> Result<(), RowFault> {
    let path = read_path(alloc, row.field(1))?;
    Ok(push_told(folder.kids(alloc, &path), line)?)
}

fn push_told(told: Result<List<Name>, FolderError>, line: &mut Vec<u8>) -> Result<(), NoMemory> {
    match told {
        Ok(names) => push_names_of(&names, line),
        Err(error) => push_word(line, word_of(error)),
    }
}

/// Adds `names`, and each with a blank before it.
pub fn push_names_of(names: &List<Name>, line: &mut Vec<u8>) -> Result<(), NoMemory> {
    push_word(line, "names")?;
    push_names(line, names)
}
