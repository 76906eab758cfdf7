use crate::lines::push;
use crate::{folders, names, nodes, paths, streams, trees};
use folder_memory::{MemoryFolder, MemoryInput, MemorySink, MemoryTree};
use folder_rows::RowFault;
use osgi_version::{List, NoMemory};
use std::alloc::Global;
use suite_row::Row;

/// What the rows act on.
#[derive(Drop)]
pub struct Objects {
    pub folder: MemoryFolder,
    pub tree: MemoryTree,
    pub input: MemoryInput,
    pub sink: MemorySink,
}

impl Objects {
    pub fn new(alloc: Global) -> Result<Objects, NoMemory> {
        let sink = MemorySink::new(alloc, 0, List::new(alloc))?;
        Ok(Objects::with_sink(alloc, sink))
    }

    fn with_sink(alloc: Global, sink: MemorySink) -> Objects {
        Objects {
            folder: MemoryFolder::new(alloc),
            tree: MemoryTree::new(alloc),
            input: MemoryInput::new(alloc, List::new(alloc), List::new(alloc)),
            sink,
        }
    }
}

/// The line that answers a row.
pub fn answer(alloc: Global, objects: &mut Objects, row: &str) -> Result<Vec<u8>, NoMemory> {
    let mut line = Vec::new(alloc);
    push_answer(alloc, objects, row, &mut line)?;
    line.push(b'\n')?;
    Ok(line)
}

fn push_answer(
    alloc: Global,
    objects: &mut Objects,
    row: &str,
    line: &mut Vec<u8>,
) -> Result<(), NoMemory> {
    match Row::read(alloc, row.as_bytes())? {
        Some(row) => push_told(about(alloc, objects, &row, line), line),
        None => push(line, b"no-row"),
    }
}

fn push_told(told: Result<bool, RowFault>, line: &mut Vec<u8>) -> Result<(), NoMemory> {
    match told {
        Ok(true) => Ok(()),
        Ok(false) => push(line, b"unknown"),
        Err(RowFault::Spelling) => {
            line.clear();
            push(line, b"unreadable")
        }
        Err(RowFault::NoMemory) => Err(NoMemory),
    }
}

/// Adds the answer to a line. False where no module knows the row's first word.
fn about(
    alloc: Global,
    objects: &mut Objects,
    row: &Row,
    line: &mut Vec<u8>,
) -> Result<bool, RowFault> {
    match row.word(0) {
        "name" => names::answer(alloc, row, line),
        "path" => paths::answer(alloc, row, line),
        "node" => nodes::answer(alloc, row, line),
        "tree" => trees::answer(alloc, &mut objects.tree, row, line),
        "input" => streams::about_input(alloc, &mut objects.input, row, line),
        "sink" => streams::about_sink(alloc, &mut objects.sink, row, line),
        "pump" => {
            let room = row.number(1);
            streams::pump(alloc, &mut objects.input, &mut objects.sink, room, line)
        }
        _ => folders::answer(alloc, &mut objects.folder, row, line),
    }
}
