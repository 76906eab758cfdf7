ghost use Rattle.std.specs.Prelude.{◌≤◌};

use crate::folders::push_kids;
use crate::lines::{count_at, push};
use crate::nodes::{word_of_put, word_of_tree};
use folder_core::{Blob, Name, Node, Path, Tree, TreeError};
use folder_memory::{MemoryTree, PutFault};
use folder_rows::{RowFault, push_node, read_node, read_numbers, read_path};
use osgi_version::{List, NoMemory};
use std::alloc::Global;
use suite_row::Row;

const MOST_LIMIT: u64 = 67_108_864;

/// Answers a row that acts on the tree, by its second word.
pub fn answer(
    alloc: Global,
    tree: &mut MemoryTree,
    row: &Row,
    line: &mut Vec<u8>,
) -> Result<bool, RowFault> {
    match row.word(1) {
        "new" => {
            *tree = MemoryTree::new(alloc);
            push(line, b"ok")?;
        }
        "put" => put(alloc, tree, row, line)?,
        "kids" => kids(alloc, tree, row, line)?,
        "read" => read(alloc, tree, row, line)?,
        "fail" => {
            tree.fail_at(read_numbers(alloc, row, 2)?);
            push(line, b"ok")?;
        }
        _ => return Ok(false),
    }
    Ok(true)
}

// The calls go through the trait, as its users make them.

fn kids_of<T: Tree>(alloc: Global, tree: &mut T, path: &Path) -> Result<List<Name>, TreeError> {
    tree.kids(alloc, path)
}

fn read_of<T: Tree>(
    alloc: Global,
    tree: &mut T,
    path: &Path,
    limit: u64,
) -> Result<Option<Blob>, TreeError>
    requires { limit ≤ 67108864 }
{
    tree.read(alloc, path, limit)
}

fn put(
    alloc: Global,
    tree: &mut MemoryTree,
    row: &Row,
    line: &mut Vec<u8>,
) -> Result<(), RowFault> {
    let path = read_path(alloc, row.field(2))?;
    let node = read_node(alloc, row.field(3))?;
    put_node(tree, &path, node.as_ref(), line)
}

fn put_node(
    tree: &mut MemoryTree,
    path: &Path,
    node: Option<&Node>,
    line: &mut Vec<u8>,
) -> Result<(), RowFault> {
    match node {
        Some(Node::File { blob, .. }) => Ok(put_blob(tree, path, blob, line)?),
        _ => Err(RowFault::Spelling),
    }
}

fn put_blob(
    tree: &mut MemoryTree,
    path: &Path,
    blob: &Blob,
    line: &mut Vec<u8>,
) -> Result<(), NoMemory> {
    push(line, word_of_answer(tree.put(path, blob)).as_bytes())
}

fn word_of_answer(answer: Result<(), PutFault>) -> &'static str {
    match answer {
        Ok(()) => "ok",
        Err(fault) => word_of_put(fault),
    }
}

fn kids(
    alloc: Global,
    tree: &mut MemoryTree,
    row: &Row,
    line: &mut Vec<u8>,
) -> Result<(), RowFault> {
    let path = read_path(alloc, row.field(2))?;
    Ok(push_told(line, kids_of(alloc, tree, &path))?)
}

fn push_told(line: &mut Vec<u8>, told: Result<List<Name>, TreeError>) -> Result<(), NoMemory> {
    match told {
        Ok(names) => push_kids(line, &names),
        Err(error) => push(line, word_of_tree(error).as_bytes()),
    }
}

fn read(
    alloc: Global,
    tree: &mut MemoryTree,
    row: &Row,
    line: &mut Vec<u8>,
) -> Result<(), RowFault> {
    let limit = count_at(row, 3)?;
    if limit > MOST_LIMIT {
        return Err(RowFault::Spelling);
    }
    let path = read_path(alloc, row.field(2))?;
    Ok(push_found(line, read_of(alloc, tree, &path, limit))?)
}

// A file of a tree has no mode. It stands as one of the usual mode.
fn push_found(line: &mut Vec<u8>, found: Result<Option<Blob>, TreeError>) -> Result<(), NoMemory> {
    match found {
        Ok(Some(blob)) => push_node(line, Some(&Node::File { mode: 0o644, blob })),
        Ok(None) => push_node(line, None),
        Err(error) => push(line, word_of_tree(error).as_bytes()),
    }
}
