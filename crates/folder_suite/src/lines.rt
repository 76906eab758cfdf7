use folder_rows::RowFault;
use osgi_version::{NoMemory, Text, push_field};
use std::alloc::Global;
use std::cmp::Ordering;
use suite_row::Row;

pub fn push(line: &mut Vec<u8>, bytes: &[u8]) -> Result<(), NoMemory> {
    line.extend_from_slice(bytes)?;
    Ok(())
}

pub fn copied(alloc: Global, bytes: &[u8]) -> Result<Vec<u8>, NoMemory> {
    Ok(Vec::from_slice(alloc, bytes)?)
}

pub fn push_bool(line: &mut Vec<u8>, is_so: bool) -> Result<(), NoMemory> {
    let word = if is_so { "true" } else { "false" };
    push(line, word.as_bytes())
}

pub fn push_count(line: &mut Vec<u8>, count: u64) -> Result<(), NoMemory> {
    let digits = count.to_string(*line.allocator())?;
    push(line, digits.as_bytes())
}

/// Adds a count, and bytes as a field.
pub fn push_counted(line: &mut Vec<u8>, count: usize, bytes: &[u8]) -> Result<(), NoMemory> {
    push_count(line, count as u64)?;
    line.push(b' ')?;
    push_field(line, bytes)
}

pub fn push_order(line: &mut Vec<u8>, order: Ordering) -> Result<(), NoMemory> {
    let word = match order {
        Ordering::Less => "less",
        Ordering::Equal => "equal",
        Ordering::Greater => "greater",
    };
    push(line, word.as_bytes())
}

/// The number at a place of a row.
pub fn count_at(row: &Row, place: usize) -> Result<u64, RowFault> {
    match row.number(place) {
        Some(count) => Ok(count),
        None => Err(RowFault::Spelling),
    }
}

/// The text of a piece so many times, with something between each two.
pub fn repeated(alloc: Global, piece: &str, between: &str, count: u64) -> Result<Text, NoMemory> {
    let mut text = String::new(alloc);
    push_repeated(&mut text, piece, between, count)?;
    Text::from_str(alloc, text.as_str())
}

fn push_repeated(
    text: &mut String,
    piece: &str,
    between: &str,
    count: u64,
) -> Result<(), NoMemory> {
    for place in 0..count {
        if place > 0 {
            text.push_str(between)?;
        }
        text.push_str(piece)?;
    }
    Ok(())
}
