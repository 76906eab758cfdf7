//! `run WORD..`: the exit status, what else the status tells, and the lines that were printed.

use crate::bench::Bench;
use crate::writing::{after_word, push_lines, push_word, words_of};
use director_core::run;
use director_words::Status;
use folder_memory::{MemoryInput, MemorySink};
use osgi_version::{List, NoMemory, Text, Twin, push_number};
use std::alloc::Global;
use suite_row::Row;

pub(crate) fn push_run(
    alloc: Global,
    bench: &mut Bench,
    row: &Row,
    text: &mut Vec<u8>,
) -> Result<(), NoMemory> {
    let words = words_of(alloc, row)?;
    push_command(alloc, bench, words.as_slice(), text)?;
    bench.mend(alloc);
    Ok(())
}

fn push_command(
    alloc: Global,
    bench: &mut Bench,
    words: &[Text],
    text: &mut Vec<u8>,
) -> Result<(), NoMemory> {
    let mut out = MemorySink::new(alloc, bench.room, bench.sink_fails.copy()?)?;
    let status = command(alloc, bench, words, &mut out);
    push_end(&status, out.bytes(), text)
}

fn command(alloc: Global, bench: &mut Bench, words: &[Text], out: &mut MemorySink) -> Status {
    let mut input = MemoryInput::new(alloc, List::new(alloc), List::new(alloc));
    run(
        alloc,
        words,
        &mut bench.folder,
        &mut bench.source,
        &mut input,
        out,
    )
}

fn push_end(status: &Status, printed: &[u8], text: &mut Vec<u8>) -> Result<(), NoMemory> {
    push_number(text, u32::from(status.code()))?;
    push_held(status, text)?;
    push_lines(text, printed)
}

/// What a fault left, and which state was committed.
fn push_held(status: &Status, text: &mut Vec<u8>) -> Result<(), NoMemory> {
    match status {
        Status::FolderFault(after) => push_word(text, after_word(*after)),
        Status::NoMemory(after) => push_word(text, after_word(*after)),
        Status::SinkFault { committed: None } => push_word(text, " committed none"),
        Status::SinkFault {
            committed: Some(number),
        } => push_committed(*number, text),
        _ => Ok(()),
    }
}

fn push_committed(number: u32, text: &mut Vec<u8>) -> Result<(), NoMemory> {
    push_word(text, " committed ")?;
    push_number(text, number)
}
