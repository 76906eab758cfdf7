use crate::lines::{count_at, push, push_bool, push_count, push_counted, push_order, repeated};
use folder_core::{Name, Path};
use folder_rows::{RowFault, push_names, read_path};
use osgi_version::{NoMemory, Text, Twin};
use std::alloc::Global;
use suite_row::Row;

/// Answers a row of paths, by its second word.
pub fn answer(alloc: Global, row: &Row, line: &mut Vec<u8>) -> Result<bool, RowFault> {
    match row.word(1) {
        "of" => of(alloc, row.field(2), line)?,
        "repeated" => of_repeated(alloc, row, line)?,
        "names" => names(alloc, row, line)?,
        "push" => pushed(alloc, row, line)?,
        "fill" => filled(alloc, row, line)?,
        "order" => order(alloc, row, line)?,
        "equal" => equal(alloc, row, line)?,
        _ => return Ok(false),
    }
    Ok(true)
}

fn of(alloc: Global, text: &Text, line: &mut Vec<u8>) -> Result<(), NoMemory> {
    match Path::read(alloc, text)? {
        Some(path) => push_copy(&path, line),
        None => push(line, b"no-path"),
    }
}

// How many names a path has, and its text.
fn push_copy(path: &Path, line: &mut Vec<u8>) -> Result<(), NoMemory> {
    let twin = path.copy()?;
    push_spelled(&twin, line)
}

fn push_spelled(path: &Path, line: &mut Vec<u8>) -> Result<(), NoMemory> {
    let text = path.text()?;
    push_counted(line, path.names().len(), text.bytes())
}

// A path of one name so many times: how many names it has, and how many bytes its text.
fn of_repeated(alloc: Global, row: &Row, line: &mut Vec<u8>) -> Result<(), RowFault> {
    let text = repeated(alloc, row.word(2), "/", count_at(row, 3)?)?;
    Ok(push_path_lengths(alloc, &text, line)?)
}

fn push_path_lengths(alloc: Global, text: &Text, line: &mut Vec<u8>) -> Result<(), NoMemory> {
    match Path::read(alloc, text)? {
        Some(path) => push_lengths_of(&path, text, line),
        None => push(line, b"no-path"),
    }
}

fn push_lengths_of(path: &Path, read: &Text, line: &mut Vec<u8>) -> Result<(), NoMemory> {
    push_count(line, path.names().len() as u64)?;
    let text = path.text()?;
    push_lengths(&text, read, line)
}

fn push_lengths(text: &Text, read: &Text, line: &mut Vec<u8>) -> Result<(), NoMemory> {
    line.push(b' ')?;
    push_count(line, text.bytes().len() as u64)?;
    line.push(b' ')?;
    push_bool(line, *text == *read)
}

fn names(alloc: Global, row: &Row, line: &mut Vec<u8>) -> Result<(), RowFault> {
    let path = read_path(alloc, row.field(2))?;
    push_count(line, path.names().len() as u64)?;
    Ok(push_names(line, path.names())?)
}

fn name_of(text: &Text) -> Result<Name, RowFault> {
    match Name::new(text)? {
        Some(name) => Ok(name),
        None => Err(RowFault::Spelling),
    }
}

fn pushed(alloc: Global, row: &Row, line: &mut Vec<u8>) -> Result<(), RowFault> {
    let mut path = read_path(alloc, row.field(2))?;
    let name = name_of(row.field(3))?;
    Ok(push_longer(&mut path, name, line)?)
}

fn push_longer(path: &mut Path, name: Name, line: &mut Vec<u8>) -> Result<(), NoMemory> {
    push_bool(line, path.push(name)?)?;
    line.push(b' ')?;
    push_spelled(path, line)
}

// Pushes a name so many times to the root: how often that was done, and how many names the path has.
fn filled(alloc: Global, row: &Row, line: &mut Vec<u8>) -> Result<(), RowFault> {
    let mut path = Path::root(alloc);
    let taken = fill(&mut path, row.field(2), count_at(row, 3)?)?;
    Ok(push_filled(line, taken, &path)?)
}

fn fill(path: &mut Path, name: &Text, count: u64) -> Result<u64, RowFault> {
    let mut taken = 0u64;
    for _ in 0..count {
        if path.push(name_of(name)?)? {
            taken = taken.saturating_add(1);
        }
    }
    Ok(taken)
}

fn push_filled(line: &mut Vec<u8>, taken: u64, path: &Path) -> Result<(), NoMemory> {
    push_count(line, taken)?;
    line.push(b' ')?;
    push_count(line, path.names().len() as u64)
}

fn order(alloc: Global, row: &Row, line: &mut Vec<u8>) -> Result<(), RowFault> {
    let first = read_path(alloc, row.field(2))?;
    let second = read_path(alloc, row.field(3))?;
    Ok(push_compared(&first, &second, line)?)
}

// The order as `cmp` tells it, and whether `<` says the same.
fn push_compared(first: &Path, second: &Path, line: &mut Vec<u8>) -> Result<(), NoMemory> {
    push_order(line, first.cmp(second))?;
    line.push(b' ')?;
    push_bool(line, first < second)
}

fn equal(alloc: Global, row: &Row, line: &mut Vec<u8>) -> Result<(), RowFault> {
    Ok(push_bool(line, are_equal(alloc, row)?)?)
}

fn are_equal(alloc: Global, row: &Row) -> Result<bool, RowFault> {
    let first = read_path(alloc, row.field(2))?;
    let second = read_path(alloc, row.field(3))?;
    Ok(first == second)
}
