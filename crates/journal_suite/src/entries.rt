//! Questions about the text of an entry.

ghost use Rattle.std.specs.Prelude.{IfSome, IsTrue};
ghost use Rattle.folder_core.specs.Node.{IsNode};
ghost use Rattle.backup_store.specs.Entry.{IsSmall};

use crate::line::say;
use backup_store::{Entry, EntryNumber, entry_path, read_entry, write_entry};
use folder_core::{Blob, Node};
use folder_rows::{RowFault, push_node, push_path, read_node, read_path};
use osgi_version::{NoMemory, Text, push_field, push_number};
use std::alloc::Global;
use suite_row::Row;

const MOST_BYTES: usize = 67_108_864;

// A longer text stands as its number of bytes.
const MOST_SPELLED: usize = 4096;

/// `read TEXT`: the entry of this text.
pub fn read(alloc: Global, row: &Row, line: &mut Vec<u8>) -> Result<(), RowFault> {
    Ok(push_read(alloc, row.field(1).bytes(), line)?)
}

/// `bytes TEXT`: the entry whose bytes are the characters of this text, each below 256.
pub fn read_bytes(alloc: Global, row: &Row, line: &mut Vec<u8>) -> Result<(), RowFault> {
    let bytes = bytes_of(alloc, row.field(1))?;
    Ok(push_read(alloc, bytes.as_slice(), line)?)
}

fn bytes_of(alloc: Global, text: &Text) -> Result<Vec<u8>, RowFault> {
    let mut bytes = Vec::new(alloc);
    for letter in text.as_str().chars() {
        match u8::try_from(u32::from(letter)) {
            Ok(byte) => push_byte(&mut bytes, byte)?,
            Err(_) => return Err(RowFault::Spelling),
        }
    }
    Ok(bytes)
}

fn push_byte(bytes: &mut Vec<u8>, byte: u8) -> Result<(), NoMemory> {
    bytes.push(byte)?;
    Ok(())
}

/// `file COUNT`: the entry of a file of so many zeros, by its text.
pub fn read_zeros(alloc: Global, row: &Row, line: &mut Vec<u8>) -> Result<(), RowFault> {
    let text = long_file(alloc, count_of(row)?)?;
    Ok(push_read(alloc, text.as_slice(), line)?)
}

fn long_file(alloc: Global, count: u32) -> Result<Vec<u8>, NoMemory> {
    let mut text = Vec::from_slice(alloc, b"p2entry 1\npath a\nfile 644 ")?;
    push_number(&mut text, count)?;
    push_repeated(&mut text, b'\n', 1)?;
    push_repeated(&mut text, 0, count)?;
    Ok(text)
}

/// `link COUNT`: whether a link is read whose target has so many letters.
pub fn read_link(alloc: Global, row: &Row, line: &mut Vec<u8>) -> Result<(), RowFault> {
    let text = long_link(alloc, count_of(row)?)?;
    Ok(say_is_entry(alloc, text.as_slice(), line)?)
}

fn long_link(alloc: Global, count: u32) -> Result<Vec<u8>, NoMemory> {
    let mut text = Vec::from_slice(alloc, b"p2entry 1\npath a\nlink ")?;
    push_repeated(&mut text, b'x', count)?;
    push_repeated(&mut text, b'\n', 1)?;
    Ok(text)
}

fn say_is_entry(alloc: Global, bytes: &[u8], line: &mut Vec<u8>) -> Result<(), NoMemory> {
    match read_entry(alloc, bytes)? {
        Some(_) => say(line, "entry"),
        None => say(line, "no-entry"),
    }
}

fn count_of(row: &Row) -> Result<u32, RowFault> {
    match row.word(1).parse::<u32>() {
        Ok(count) => Ok(count),
        Err(_) => Err(RowFault::Spelling),
    }
}

fn push_repeated(text: &mut Vec<u8>, byte: u8, count: u32) -> Result<(), NoMemory> {
    let bytes = vec![in *text.allocator(); byte; count as usize]?;
    text.extend_from_slice(bytes.as_slice())?;
    Ok(())
}

fn push_read(alloc: Global, bytes: &[u8], line: &mut Vec<u8>) -> Result<(), NoMemory> {
    match read_entry(alloc, bytes)? {
        Some(entry) => push_entry(line, &entry),
        None => say(line, "no-entry"),
    }
}

/// Adds an entry to a line as `PATH=NODE`.
pub fn push_entry(line: &mut Vec<u8>, entry: &Entry) -> Result<(), NoMemory> {
    say(line, "")?;
    push_path(line, &entry.path)?;
    line.push(b'=')?;
    push_node(line, entry.before.as_ref())
}

/// `write PATH NODE`: the text of this entry, and whether it reads back.
pub fn write(alloc: Global, row: &Row, line: &mut Vec<u8>) -> Result<(), RowFault> {
    let path = read_path(alloc, row.field(1))?;
    let before = read_node(alloc, row.field(2))?;
    let entry = Entry { path, before };
    push_written(alloc, &entry, line)
}

fn push_written(alloc: Global, entry: &Entry, line: &mut Vec<u8>) -> Result<(), RowFault> {
    if !may_be_written(entry) {
        return Ok(say(line, "refused")?);
    }
    match write_entry(alloc, entry) {
        Ok(text) => Ok(push_text(alloc, entry, &text, line)?),
        Err(_) => Err(RowFault::NoMemory),
    }
}

fn may_be_written(entry: &Entry) -> bool
    ensures node { IsTrue result → IfSome entry.now.before IsNode }
    ensures small { IsTrue result → IfSome entry.now.before IsSmall }
{
    match &entry.before {
        Some(node) => node.may_stand_at(&entry.path) && is_small(node),
        None => true,
    }
}

fn is_small(node: &Node) -> bool
    ensures { IsTrue result → IsSmall node.now }
{
    match node {
        Node::File { blob, .. } => blob.bytes().len() <= MOST_BYTES,
        _ => true,
    }
}

fn push_text(
    alloc: Global,
    entry: &Entry,
    text: &Blob,
    line: &mut Vec<u8>,
) -> Result<(), NoMemory> {
    if text.bytes().len() > MOST_SPELLED {
        push_number(line, text.bytes().len() as u32)?;
    } else {
        push_field(line, text.bytes())?;
    }
    let word = if is_text_of(alloc, text, entry)? {
        "same"
    } else {
        "another"
    };
    say(line, word)
}

fn is_text_of(alloc: Global, text: &Blob, entry: &Entry) -> Result<bool, NoMemory> {
    match read_entry(alloc, text.bytes())? {
        Some(read) => Ok(read == *entry),
        None => Ok(false),
    }
}

/// `place NUMBER`: where the entry of this number stands.
pub fn place(alloc: Global, row: &Row, line: &mut Vec<u8>) -> Result<(), RowFault> {
    let path = entry_path(alloc, EntryNumber(count_of(row)?))?;
    Ok(push_path(line, &path)?)
}
