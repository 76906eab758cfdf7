//! Whole descriptions.

use crate::push::{push_count, push_word};
use crate::shown::{push_refusal, push_units};
use inf_reader::units_of;
use osgi_version::{List, NoMemory, push_number};
use props_reader::{Pairs, PropsFault, read};
use std::alloc::Global;
use suite_row::Row;
use unit_model::Unit;

/// The text in ISO-8859-1, as descriptions are written. Letters that this doesn't have are left away.
fn latin(alloc: Global, text: &str) -> Result<Vec<u8>, NoMemory> {
    let mut bytes = Vec::new(alloc);
    for letter in text.chars() {
        if let Ok(byte) = u8::try_from(u32::from(letter)) {
            bytes.push(byte)?;
        }
    }
    Ok(bytes)
}

/// The pairs of a description. None where it has none.
fn pairs_of(alloc: Global, bytes: &[u8]) -> Result<Option<Pairs>, NoMemory> {
    match read(alloc, bytes) {
        Ok(pairs) => Ok(Some(pairs)),
        Err(PropsFault::BadEscape { .. }) => Ok(None),
        Err(PropsFault::NoMemory) => Err(NoMemory),
    }
}

fn read_pairs(alloc: Global, text: &str) -> Result<Option<Pairs>, NoMemory> {
    let bytes = latin(alloc, text)?;
    pairs_of(alloc, bytes.as_slice())
}

/// The units of a description in the folder `f`. None where it is refused.
pub(crate) fn read_units(alloc: Global, text: &str) -> Result<Option<List<Unit>>, NoMemory> {
    match read_pairs(alloc, text)? {
        Some(pairs) => Ok(units_of(alloc, b"f", &pairs).ok()),
        None => Ok(None),
    }
}

fn push_told(
    line: &mut Vec<u8>,
    alloc: Global,
    folder: &[u8],
    pairs: &Pairs,
) -> Result<(), NoMemory> {
    match units_of(alloc, folder, pairs) {
        Ok(units) => push_units(line, units.items()),
        Err(refusal) => push_refusal(line, &refusal),
    }
}

/// `inf FOLDER TEXT`: the units, or the refusal.
pub(crate) fn push_described(line: &mut Vec<u8>, alloc: Global, row: &Row) -> Result<(), NoMemory> {
    match read_pairs(alloc, row.word(2))? {
        Some(pairs) => push_told(line, alloc, row.field(1).bytes(), &pairs),
        None => push_word(line, "no pairs"),
    }
}

/// A requirement of this number.
fn push_requirement(text: &mut Vec<u8>, number: u32) -> Result<(), NoMemory> {
    push_word(text, "units.0.requires.")?;
    push_number(text, number)?;
    push_word(text, ".name=n\nunits.0.requires.")?;
    push_number(text, number)?;
    push_word(text, ".namespace=m\n")
}

/// A unit of so many requirements, and further lines.
fn requiring(alloc: Global, count: u32, lines: &str) -> Result<Vec<u8>, NoMemory> {
    let mut text = Vec::new(alloc);
    push_word(&mut text, "units.0.id=a\nunits.0.version=1\n")?;
    for number in 0..count {
        push_requirement(&mut text, number)?;
    }
    push_word(&mut text, lines)?;
    Ok(text)
}

fn push_sizes(line: &mut Vec<u8>, units: &[Unit]) -> Result<(), NoMemory> {
    push_word(line, "requirements")?;
    for unit in units {
        push_count(line, u32::try_from(unit.required.len()).unwrap_or(u32::MAX))?;
    }
    Ok(())
}

fn push_counted(line: &mut Vec<u8>, alloc: Global, pairs: &Pairs) -> Result<(), NoMemory> {
    match units_of(alloc, b"f", pairs) {
        Ok(units) => push_sizes(line, units.items()),
        Err(refusal) => push_refusal(line, &refusal),
    }
}

fn push_requiring(line: &mut Vec<u8>, alloc: Global, text: &[u8]) -> Result<(), NoMemory> {
    match pairs_of(alloc, text)? {
        Some(pairs) => push_counted(line, alloc, &pairs),
        None => push_word(line, "no pairs"),
    }
}

/// `many COUNT LINES`: how many requirements each unit has where the first is given so many, with further lines behind
/// them, or the refusal.
pub(crate) fn push_many(line: &mut Vec<u8>, alloc: Global, row: &Row) -> Result<(), NoMemory> {
    match row.word(1).parse::<u32>() {
        Ok(count) => {
            let text = requiring(alloc, count, row.word(2))?;
            push_requiring(line, alloc, text.as_slice())
        }
        Err(_) => push_word(line, "no number"),
    }
}
