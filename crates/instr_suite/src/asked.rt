//! What the rows ask.

use crate::push::{push_truth, push_word};
use crate::shown::{push_calls, push_refusal};
use instr_parser::{Call, InstrRefusal, calls};
use osgi_version::{List, NoMemory, Text, Twin};
use std::alloc::Global;
use suite_row::Row;

/// The id of the native touchpoint.
const NATIVE: &[u8] = b"org.eclipse.equinox.p2.native";

type Read = Result<List<Call>, InstrRefusal>;

/// The line that answers a row. A comment and an empty line are copied.
pub(crate) fn answer(alloc: Global, line: &str) -> Result<Vec<u8>, NoMemory> {
    let mut answer = Vec::new(alloc);
    if line.is_empty() || line.starts_with('#') {
        push_word(&mut answer, line)?;
    } else {
        push_answer(&mut answer, alloc, line)?;
    }
    answer.push(b'\n')?;
    Ok(answer)
}

fn push_answer(answer: &mut Vec<u8>, alloc: Global, line: &str) -> Result<(), NoMemory> {
    match Row::read(alloc, line.as_bytes())? {
        Some(row) => push_row(answer, alloc, &row),
        None => push_word(answer, "no row"),
    }
}

fn push_row(answer: &mut Vec<u8>, alloc: Global, row: &Row) -> Result<(), NoMemory> {
    match row.word(0) {
        "native" => push_read(answer, native(alloc, row.field(1).bytes())),
        "calls" => push_read(answer, in_unit(alloc, row)),
        "bytes" => push_bytes(answer, alloc, row),
        "long" => push_long(answer, alloc, row),
        "twin" => push_truth(answer, is_copied(alloc, row.field(1))),
        "same" => push_truth(answer, is_same(alloc, row.field(1), row.field(2))),
        "message" => push_message(answer, alloc, row.field(1)),
        _ => push_word(answer, "no question"),
    }
}

/// The calls of a text in a unit of the native touchpoint without imports.
fn native(alloc: Global, text: &[u8]) -> Read {
    calls(alloc, text, b"", Some(NATIVE))
}

/// `calls TOUCHPOINT IMPORTS TEXT`: the same in a unit with that touchpoint, where it isn't `none`, and these imports.
fn in_unit(alloc: Global, row: &Row) -> Read {
    let imports = row.field(2).bytes();
    let text = row.field(3).bytes();
    match row.word(1) {
        "none" => calls(alloc, text, imports, None),
        touchpoint => calls(alloc, text, imports, Some(touchpoint.as_bytes())),
    }
}

fn push_read(answer: &mut Vec<u8>, read: Read) -> Result<(), NoMemory> {
    match read {
        Ok(calls) => push_calls(answer, calls.items()),
        Err(refusal) => push_refusal(answer, &refusal),
    }
}

/// `bytes TEXT`: the same of the bytes that the text's characters, below 256, have as their numbers.
fn push_bytes(answer: &mut Vec<u8>, alloc: Global, row: &Row) -> Result<(), NoMemory> {
    let mut bytes = Vec::new(alloc);
    for character in row.word(1).chars() {
        bytes.push(u8::try_from(u32::from(character)).unwrap_or(b'?'))?;
    }
    push_read(answer, native(alloc, &bytes))
}

/// `long COUNT PART TEXT`: the same of a text with so many of the part in place of its `*`.
fn push_long(answer: &mut Vec<u8>, alloc: Global, row: &Row) -> Result<(), NoMemory> {
    let text = lengthened(alloc, row)?;
    push_read(answer, native(alloc, &text))
}

fn lengthened(alloc: Global, row: &Row) -> Result<Vec<u8>, NoMemory> {
    let mut text = Vec::new(alloc);
    let (front, back) = row.word(3).split_once('*').unwrap_or((row.word(3), ""));
    push_word(&mut text, front)?;
    for _ in 0..row.number(1).unwrap_or(0) {
        push_word(&mut text, row.word(2))?;
    }
    push_word(&mut text, back)?;
    Ok(text)
}

/// Whether the copy of the calls is equal to them.
fn is_copied(alloc: Global, text: &Text) -> bool {
    match native(alloc, text.bytes()) {
        Ok(calls) => is_twin(&calls),
        Err(_) => false,
    }
}

fn is_twin(calls: &List<Call>) -> bool {
    match calls.copy() {
        Ok(copied) => copied == *calls,
        Err(NoMemory) => false,
    }
}

/// Whether both texts read alike.
fn is_same(alloc: Global, text: &Text, other: &Text) -> bool {
    let read = native(alloc, text.bytes());
    reads_as(alloc, other, &read)
}

fn reads_as(alloc: Global, text: &Text, read: &Read) -> bool {
    native(alloc, text.bytes()) == *read
}

/// What is said of a refused text.
fn push_message(answer: &mut Vec<u8>, alloc: Global, text: &Text) -> Result<(), NoMemory> {
    match native(alloc, text.bytes()) {
        Ok(_) => push_word(answer, "none"),
        Err(refusal) => {
            let message = format!(in alloc; "{refusal}")?;
            push_word(answer, message.as_str())
        }
    }
}
