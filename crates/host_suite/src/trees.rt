use crate::folders::push_names_of;
use crate::lines::{push, text_of};
use folder_core::{Path, Tree, TreeError};
use folder_rows::{RowFault, read_path};
use host_adapters::HostTree;
use osgi_version::{NoMemory, push_field};
use std::alloc::Global;
use suite_row::Row;

/// As many bytes are read of a file.
const LIMIT: u64 = 3;

/// `tree ROOT read PATH` or `tree ROOT kids PATH`.
pub fn push_answer(rt: HostRuntime, row: &Row, line: &mut Vec<u8>) -> Result<(), RowFault> {
    let path = read_path(rt.alloc(), row.field(3))?;
    Ok(push_over(rt, row, &path, line)?)
}

fn push_over(rt: HostRuntime, row: &Row, path: &Path, line: &mut Vec<u8>) -> Result<(), NoMemory> {
    let root = text_of(rt.alloc(), row.word(1))?;
    let mut tree = HostTree::new(rt, root);
    match row.word(2) {
        "read" => push_read(rt.alloc(), &mut tree, path, line),
        _ => push_kids(rt.alloc(), &mut tree, path, line),
    }
}

fn push_read<T: Tree>(
    alloc: Global,
    tree: &mut T,
    path: &Path,
    line: &mut Vec<u8>,
) -> Result<(), NoMemory> {
    match tree.read(alloc, path, LIMIT) {
        Ok(Some(blob)) => push_field(line, blob.bytes()),
        Ok(None) => push(line, "none"),
        Err(error) => push(line, word_of(error)),
    }
}

fn push_kids<T: Tree>(
    alloc: Global,
    tree: &mut T,
    path: &Path,
    line: &mut Vec<u8>,
) -> Result<(), NoMemory> {
    match tree.kids(alloc, path) {
        Ok(names) => push_names_of(&names, line),
        Err(error) => push(line, word_of(error)),
    }
}

fn word_of(error: TreeError) -> &'static str {
    match error {
        TreeError::Failed => "failed",
        TreeError::TooLarge => "too-large",
        TreeError::NoMemory => "no-memory",
    }
}
