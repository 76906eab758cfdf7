//! Rows that put the files of a source.

use crate::lines::small_number;
use crate::writing::push_word;
use folder_core::{Blob, Path};
use folder_memory::{MemoryTree, PutFault};
use osgi_version::{List, NoMemory, Text};
use std::alloc::Global;
use suite_row::Row;

/// `source PATH LINE..`, `text PATH TEXT`, `comment PATH BYTES`, `comments PREFIX COUNT BYTES`,
/// `requirements PATH COUNT` or `units PATH FIRST COUNT`.
pub(crate) fn push_put(
    alloc: Global,
    source: &mut MemoryTree,
    row: &Row,
    text: &mut Vec<u8>,
) -> Result<(), NoMemory> {
    let put = match row.word(0) {
        "source" => put(alloc, source, row.field(1), lines_of(alloc, row)?)?,
        "text" => put(alloc, source, row.field(1), text_of(alloc, row)?)?,
        "comment" => put_comment(alloc, source, row.field(1), small_number(row, 2))?,
        "comments" => put_comments(alloc, source, row)?,
        "requirements" => put(alloc, source, row.field(1), requirements_of(alloc, row)?)?,
        "units" => put(alloc, source, row.field(1), units_of(alloc, row)?)?,
        _ => "no question",
    };
    push_word(text, put)
}

fn put(
    alloc: Global,
    source: &mut MemoryTree,
    at: &Text,
    bytes: Vec<u8>,
) -> Result<&'static str, NoMemory> {
    match Blob::new(List::from_vec(bytes)) {
        Some(blob) => put_blob(alloc, source, at, &blob),
        None => Ok("too large"),
    }
}

fn put_blob(
    alloc: Global,
    source: &mut MemoryTree,
    at: &Text,
    blob: &Blob,
) -> Result<&'static str, NoMemory> {
    let Some(path) = Path::read(alloc, at)? else {
        return Ok("no path");
    };
    match source.put(&path, blob) {
        Ok(()) => Ok("put"),
        Err(PutFault::NotAFolder) => Ok("not a folder"),
        Err(PutFault::NoMemory) => Err(NoMemory),
    }
}

/// The bytes of ISO-8859-1. A character that it lacks is `?`.
fn push_latin(bytes: &mut Vec<u8>, text: &str) -> Result<(), NoMemory> {
    for letter in text.chars() {
        bytes.push(u8::try_from(u32::from(letter)).unwrap_or(b'?'))?;
    }
    Ok(())
}

/// The further fields as lines.
fn lines_of(alloc: Global, row: &Row) -> Result<Vec<u8>, NoMemory> {
    let mut bytes = Vec::new(alloc);
    for place in 2..row.len() {
        push_latin(&mut bytes, row.word(place))?;
        bytes.push(b'\n')?;
    }
    Ok(bytes)
}

/// One field as it stands.
fn text_of(alloc: Global, row: &Row) -> Result<Vec<u8>, NoMemory> {
    let mut bytes = Vec::new(alloc);
    push_latin(&mut bytes, row.word(2))?;
    Ok(bytes)
}

/// A comment of so many bytes.
fn comment_of(alloc: Global, length: u32) -> Result<Vec<u8>, NoMemory> {
    Ok(vec![in alloc; b'#'; length as usize]?)
}

fn put_comment(
    alloc: Global,
    source: &mut MemoryTree,
    at: &Text,
    length: u32,
) -> Result<&'static str, NoMemory> {
    put(alloc, source, at, comment_of(alloc, length)?)
}

/// Folders of numbers from 0, each with a comment.
fn put_comments(
    alloc: Global,
    source: &mut MemoryTree,
    row: &Row,
) -> Result<&'static str, NoMemory> {
    for number in 0..small_number(row, 2) {
        put_numbered(alloc, source, row, number)?;
    }
    Ok("put")
}

fn put_numbered(
    alloc: Global,
    source: &mut MemoryTree,
    row: &Row,
    number: u32,
) -> Result<&'static str, NoMemory> {
    let folder = row.word(1);
    let at = format!(in alloc; "{folder}{number}/p2.inf")?;
    let at = Text::from_str(alloc, at.as_str())?;
    put_comment(alloc, source, &at, small_number(row, 3))
}

/// A unit a/1 of so many requirements.
fn requirements_of(alloc: Global, row: &Row) -> Result<Vec<u8>, NoMemory> {
    let mut bytes = Vec::from_slice(alloc, b"units.0.id=a\nunits.0.version=1\n")?;
    for number in 0..small_number(row, 2) {
        push_requirement(alloc, &mut bytes, number)?;
    }
    Ok(bytes)
}

fn push_requirement(alloc: Global, bytes: &mut Vec<u8>, number: u32) -> Result<(), NoMemory> {
    let lines = format!(in alloc;
        "units.0.requires.{number}.namespace=n\nunits.0.requires.{number}.name=m\n"
    )?;
    push_word(bytes, lines.as_str())
}

/// The units tN/1 of so many numbers from the first.
fn units_of(alloc: Global, row: &Row) -> Result<Vec<u8>, NoMemory> {
    let mut bytes = Vec::new(alloc);
    for number in 0..small_number(row, 3) {
        push_unit(
            alloc,
            &mut bytes,
            small_number(row, 2).saturating_add(number),
        )?;
    }
    Ok(bytes)
}

fn push_unit(alloc: Global, bytes: &mut Vec<u8>, number: u32) -> Result<(), NoMemory> {
    let lines = format!(in alloc; "units.{number}.id=t{number}\nunits.{number}.version=1\n")?;
    push_word(bytes, lines.as_str())
}
