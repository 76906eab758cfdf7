//! What a command is run over: a folder, a source and a sink in memory.

use crate::folders::{push_crash, push_node, push_nodes, push_set, push_touched};
use crate::lines::small_number;
use crate::running::push_run;
use crate::sources::push_put;
use crate::writing::push_word;
use folder_memory::{MemoryFolder, MemoryTree};
use osgi_version::{List, NoMemory};
use std::alloc::Global;
use suite_row::Row;

const AMPLE_ROOM: u64 = 4_096;

/// What fails, and the sink's room, hold for the next command alone.
#[derive(Drop)]
pub(crate) struct Bench {
    pub(crate) folder: MemoryFolder,
    pub(crate) source: MemoryTree,
    pub(crate) room: u64,
    pub(crate) sink_fails: List<u64>,
}

impl Bench {
    pub(crate) fn new(alloc: Global) -> Bench {
        Bench {
            folder: MemoryFolder::new(alloc),
            source: MemoryTree::new(alloc),
            room: AMPLE_ROOM,
            sink_fails: List::new(alloc),
        }
    }

    /// Nothing fails any more.
    pub(crate) fn mend(&mut self, alloc: Global) {
        self.folder.fail_at(List::new(alloc));
        self.folder.fuse(u64::MAX);
        self.source.fail_at(List::new(alloc));
        self.sink_fails = List::new(alloc);
        self.room = AMPLE_ROOM;
    }
}

/// The rows that act on the bench, or ask for what is there.
pub(crate) fn push_change(
    alloc: Global,
    bench: &mut Bench,
    row: &Row,
    text: &mut Vec<u8>,
) -> Result<(), NoMemory> {
    match row.word(0) {
        "new" => push_new(alloc, bench, text),
        "run" => push_run(alloc, bench, row, text),
        "set" => push_set(alloc, &mut bench.folder, row, text),
        "nodes" => push_nodes(alloc, &mut bench.folder, text),
        "node" => push_node(alloc, &bench.folder, row, text),
        "touched" => push_touched(&bench.folder, text),
        "crash" => push_crash(alloc, &mut bench.folder, text),
        "fuse" => push_fuse(bench, row, text),
        "folder-fails" => push_folder_fails(alloc, bench, row, text),
        "source-fails" => push_source_fails(alloc, bench, row, text),
        "sink-fails" => push_sink_fails(alloc, bench, row, text),
        "room" => push_room(bench, row, text),
        _ => push_put(alloc, &mut bench.source, row, text),
    }
}

/// `new`: an empty folder and an empty source.
fn push_new(alloc: Global, bench: &mut Bench, text: &mut Vec<u8>) -> Result<(), NoMemory> {
    *bench = Bench::new(alloc);
    push_word(text, "ready")
}

/// `fuse N`: after N calls the folder fails.
fn push_fuse(bench: &mut Bench, row: &Row, text: &mut Vec<u8>) -> Result<(), NoMemory> {
    bench.folder.fuse(u64::from(small_number(row, 1)));
    push_word(text, "set")
}

/// `room N`: the sink takes N bytes.
fn push_room(bench: &mut Bench, row: &Row, text: &mut Vec<u8>) -> Result<(), NoMemory> {
    bench.room = u64::from(small_number(row, 1));
    push_word(text, "set")
}

/// The calls that a row names, counted from 1.
fn calls_of(alloc: Global, row: &Row) -> Result<List<u64>, NoMemory> {
    let mut calls = List::new(alloc);
    for place in 1..row.len() {
        calls.push(u64::from(small_number(row, place)))?;
    }
    Ok(calls)
}

fn push_folder_fails(
    alloc: Global,
    bench: &mut Bench,
    row: &Row,
    text: &mut Vec<u8>,
) -> Result<(), NoMemory> {
    bench.folder.fail_at(calls_of(alloc, row)?);
    push_word(text, "set")
}

fn push_source_fails(
    alloc: Global,
    bench: &mut Bench,
    row: &Row,
    text: &mut Vec<u8>,
) -> Result<(), NoMemory> {
    bench.source.fail_at(calls_of(alloc, row)?);
    push_word(text, "set")
}

fn push_sink_fails(
    alloc: Global,
    bench: &mut Bench,
    row: &Row,
    text: &mut Vec<u8>,
) -> Result<(), NoMemory> {
    bench.sink_fails = calls_of(alloc, row)?;
    push_word(text, "set")
}
