use crate::lines::{count_at, push, push_bool, push_counted, push_order, repeated};
use folder_core::Name;
use folder_rows::RowFault;
use osgi_version::{NoMemory, Text, Twin, push_field};
use std::alloc::Global;
use suite_row::Row;

/// Answers a row of names, by its second word.
pub fn answer(alloc: Global, row: &Row, line: &mut Vec<u8>) -> Result<bool, RowFault> {
    match row.word(1) {
        "of" => of(row.field(2), line)?,
        "repeated" => of_repeated(alloc, row, line)?,
        "order" => order(row, line)?,
        "equal" => equal(row, line)?,
        _ => return Ok(false),
    }
    Ok(true)
}

fn name_of(text: &Text) -> Result<Name, RowFault> {
    match Name::new(text)? {
        Some(name) => Ok(name),
        None => Err(RowFault::Spelling),
    }
}

fn of(text: &Text, line: &mut Vec<u8>) -> Result<(), NoMemory> {
    match Name::new(text)? {
        Some(name) => push_copy(&name, line),
        None => push(line, b"no-name"),
    }
}

fn push_copy(name: &Name, line: &mut Vec<u8>) -> Result<(), NoMemory> {
    let twin = name.copy()?;
    push_field(line, twin.text().bytes())
}

// A name of a piece so many times: how many bytes it has, and the first of them.
fn of_repeated(alloc: Global, row: &Row, line: &mut Vec<u8>) -> Result<(), RowFault> {
    let text = repeated(alloc, row.word(2), "", count_at(row, 3)?)?;
    Ok(push_name_length(&text, line)?)
}

fn push_name_length(text: &Text, line: &mut Vec<u8>) -> Result<(), NoMemory> {
    match Name::new(text)? {
        Some(name) => push_length_of_copy(&name, line),
        None => push(line, b"no-name"),
    }
}

fn push_length_of_copy(name: &Name, line: &mut Vec<u8>) -> Result<(), NoMemory> {
    let twin = name.copy()?;
    push_length(twin.text().bytes(), line)
}

fn push_length(bytes: &[u8], line: &mut Vec<u8>) -> Result<(), NoMemory> {
    match bytes.first() {
        Some(first) => push_counted(line, bytes.len(), &[*first]),
        None => push(line, b"empty"),
    }
}

fn order(row: &Row, line: &mut Vec<u8>) -> Result<(), RowFault> {
    let first = name_of(row.field(2))?;
    let second = name_of(row.field(3))?;
    Ok(push_compared(&first, &second, line)?)
}

// The order as `cmp` tells it, and whether `<` says the same.
fn push_compared(first: &Name, second: &Name, line: &mut Vec<u8>) -> Result<(), NoMemory> {
    push_order(line, first.cmp(second))?;
    line.push(b' ')?;
    push_bool(line, first < second)
}

fn equal(row: &Row, line: &mut Vec<u8>) -> Result<(), RowFault> {
    Ok(push_bool(line, are_equal(row)?)?)
}

fn are_equal(row: &Row) -> Result<bool, RowFault> {
    let first = name_of(row.field(2))?;
    let second = name_of(row.field(3))?;
    Ok(first == second)
}
