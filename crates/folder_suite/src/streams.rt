ghost use Rattle.std.specs.Prelude.{◌≤◌, length, IfOk};

use crate::lines::{copied, count_at, push, push_count, push_counted};
use folder_core::{Failed, Input, Sink};
use folder_memory::{MemoryInput, MemorySink};
use folder_rows::{RowFault, read_numbers};
use osgi_version::{List, NoMemory, push_field};
use std::alloc::Global;
use suite_row::Row;

// Any loop of reads ends after so many.
const MOST_READS: u32 = 1000;

/// Answers a row that acts on the input, by its second word.
pub fn about_input(
    alloc: Global,
    input: &mut MemoryInput,
    row: &Row,
    line: &mut Vec<u8>,
) -> Result<bool, RowFault> {
    match row.word(1) {
        "new" => {
            *input = input_of(alloc, row)?;
            push(line, b"ok")?;
        }
        "read" => read(alloc, input, count_at(row, 2)?, line)?,
        _ => return Ok(false),
    }
    Ok(true)
}

/// The bytes and the failing calls that a row tells.
fn input_of(alloc: Global, row: &Row) -> Result<MemoryInput, RowFault> {
    let bytes = copied(alloc, row.field(2).bytes())?;
    let failing = read_numbers(alloc, row, 3)?;
    Ok(MemoryInput::new(alloc, List::from_vec(bytes), failing))
}

// The calls go through the traits, as their users make them.

fn read_of<I: Input>(input: &mut I, into: &mut [u8]) -> Result<usize, Failed>
    ensures { IfOk result (λ n. n ≤ length into.new) }
{
    input.read(into)
}

fn write_of<S: Sink>(sink: &mut S, piece: &[u8]) -> Result<usize, Failed> {
    sink.write(piece)
}

// Reads into room for so many bytes.
fn read(
    alloc: Global,
    input: &mut MemoryInput,
    room: u64,
    line: &mut Vec<u8>,
) -> Result<(), RowFault> {
    let mut into = room_of(alloc, room)?;
    Ok(push_read(input, into.as_mut_slice(), line)?)
}

fn push_read(input: &mut MemoryInput, into: &mut [u8], line: &mut Vec<u8>) -> Result<(), NoMemory> {
    match read_of(input, into) {
        Ok(count) => push_counted(line, count, front_of(into, count)),
        Err(Failed) => push(line, b"failed"),
    }
}

fn room_of(alloc: Global, room: u64) -> Result<Vec<u8>, NoMemory> {
    Ok(vec![in alloc; b'-'; room as usize]?)
}

fn front_of(bytes: &[u8], count: usize) -> &[u8] {
    bytes.get(..count).unwrap_or(bytes)
}

/// Answers a row that acts on the sink, by its second word.
pub fn about_sink(
    alloc: Global,
    sink: &mut MemorySink,
    row: &Row,
    line: &mut Vec<u8>,
) -> Result<bool, RowFault> {
    match row.word(1) {
        "new" => {
            *sink = sink_of(alloc, row)?;
            push(line, b"ok")?;
        }
        "write" => write(sink, row.field(2).bytes(), line)?,
        "bytes" => push_field(line, sink.bytes())?,
        _ => return Ok(false),
    }
    Ok(true)
}

/// The room and the failing calls that a row tells.
fn sink_of(alloc: Global, row: &Row) -> Result<MemorySink, RowFault> {
    let room = count_at(row, 2)?;
    let failing = read_numbers(alloc, row, 3)?;
    Ok(MemorySink::new(alloc, room, failing)?)
}

fn write(sink: &mut MemorySink, piece: &[u8], line: &mut Vec<u8>) -> Result<(), NoMemory> {
    push_moved(line, write_of(sink, piece))
}

fn push_moved(line: &mut Vec<u8>, moved: Result<usize, Failed>) -> Result<(), NoMemory> {
    match moved {
        Ok(count) => push_count(line, count as u64),
        Err(Failed) => push(line, b"failed"),
    }
}

/// Moves all bytes from the input to the sink, so many at a time, and tells how many there were.
pub fn pump(
    alloc: Global,
    input: &mut MemoryInput,
    sink: &mut MemorySink,
    room: Option<u64>,
    line: &mut Vec<u8>,
) -> Result<bool, RowFault> {
    let Some(room) = room else {
        return Err(RowFault::Spelling);
    };
    let mut into = room_of(alloc, room)?;
    push_moved(line, moved(input, sink, into.as_mut_slice()))?;
    Ok(true)
}

fn moved<I: Input, S: Sink>(input: &mut I, sink: &mut S, into: &mut [u8]) -> Result<usize, Failed> {
    let mut moved = 0usize;
    for _ in 0..MOST_READS {
        let count = read_of(input, into)?;
        if count == 0 {
            break;
        }
        moved = moved.saturating_add(write_of(sink, front_of(into, count))?);
    }
    Ok(moved)
}
