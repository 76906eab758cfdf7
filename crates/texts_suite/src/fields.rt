use crate::answer::Answer;
use crate::bytes::bytes_of;
use osgi_version::{NoMemory, Text, TextFault, Twin, push_field, push_number, read_field};
use std::alloc::Global;
use suite_row::Row;

pub fn reply(alloc: Global, row: &Row, answer: &mut Answer) -> Result<(), NoMemory> {
    let text = row.field(2);
    match row.word(1) {
        "utf8" => utf8(alloc, text, answer),
        "message" => message(alloc, text, answer),
        "ascii" => ascii(alloc, text, answer),
        "twin" => answer.truth(is_copied(text)),
        "write" => write(alloc, text, answer),
        "read" => read(alloc, text, answer),
        "number" => number(alloc, row, answer),
        "twins" => twins(row, answer),
        _ => answer.word("no question"),
    }
}

/// How many bytes the text of these bytes has, and what they are.
fn utf8(alloc: Global, spelled: &Text, answer: &mut Answer) -> Result<(), NoMemory> {
    let bytes = bytes_of(alloc, spelled)?;
    match Text::new(alloc, bytes.as_slice()) {
        Ok(text) => put_bytes(&text, answer),
        Err(TextFault::NotUtf8 { at }) => {
            answer.word("not_utf8")?;
            answer.number(at)
        }
        Err(TextFault::NoMemory) => Err(NoMemory),
    }
}

fn put_bytes(text: &Text, answer: &mut Answer) -> Result<(), NoMemory> {
    answer.number(text.bytes().len() as u64)?;
    for byte in text.bytes() {
        answer.number(u64::from(*byte))?;
    }
    Ok(())
}

/// What is said of bytes that are no text.
fn message(alloc: Global, spelled: &Text, answer: &mut Answer) -> Result<(), NoMemory> {
    let bytes = bytes_of(alloc, spelled)?;
    match Text::new(alloc, bytes.as_slice()) {
        Ok(_) => answer.word("none"),
        Err(fault) => answer.message(&fault),
    }
}

fn ascii(alloc: Global, text: &Text, answer: &mut Answer) -> Result<(), NoMemory> {
    if !text.bytes().is_ascii() {
        return answer.word("not_ascii");
    }
    let text = Text::from_ascii(alloc, text.bytes())?;
    put_bytes(&text, answer)
}

fn is_copied(text: &Text) -> bool {
    match text.copy() {
        Ok(copied) => copied == *text,
        Err(NoMemory) => false,
    }
}

/// The field of these bytes.
fn write(alloc: Global, spelled: &Text, answer: &mut Answer) -> Result<(), NoMemory> {
    let bytes = bytes_of(alloc, spelled)?;
    let mut line = Vec::new(alloc);
    push_field(&mut line, bytes.as_slice())?;
    answer.bytes(line.as_slice())
}

/// The bytes of the text that has this field.
fn read(alloc: Global, spelling: &Text, answer: &mut Answer) -> Result<(), NoMemory> {
    match read_field(alloc, spelling.bytes())? {
        Some(text) => put_bytes(&text, answer),
        None => answer.word("none"),
    }
}

/// The numbers of the row, without a blank between them.
fn number(alloc: Global, row: &Row, answer: &mut Answer) -> Result<(), NoMemory> {
    let mut line = Vec::new(alloc);
    for place in 2..row.len() {
        if let Ok(number) = row.word(place).parse::<u32>() {
            push_number(&mut line, number)?;
        }
    }
    answer.bytes(line.as_slice())
}

/// How many of the six types of whole numbers without a sign, and of the six with one, give an equal copy of this
/// number of at most 127.
fn twins(row: &Row, answer: &mut Answer) -> Result<(), NoMemory> {
    match row.word(2).parse::<u8>() {
        Ok(number) if number <= 127 => {
            answer.number(unsigned_twins(number))?;
            answer.number(signed_twins(number as i8))
        }
        _ => answer.word("none"),
    }
}

fn unsigned_twins(number: u8) -> u64 {
    let mut equal = u64::from(number.copy() == Ok(number));
    equal += u64::from(u16::from(number).copy() == Ok(u16::from(number)));
    equal += u64::from(u32::from(number).copy() == Ok(u32::from(number)));
    equal += u64::from(u64::from(number).copy() == Ok(u64::from(number)));
    equal += u64::from(u128::from(number).copy() == Ok(u128::from(number)));
    equal += u64::from(usize::from(number).copy() == Ok(usize::from(number)));
    equal
}

fn signed_twins(number: i8) -> u64 {
    let mut equal = u64::from(number.copy() == Ok(number));
    equal += u64::from(i16::from(number).copy() == Ok(i16::from(number)));
    equal += u64::from(i32::from(number).copy() == Ok(i32::from(number)));
    equal += u64::from(i64::from(number).copy() == Ok(i64::from(number)));
    equal += u64::from(i128::from(number).copy() == Ok(i128::from(number)));
    equal += u64::from(isize::from(number).copy() == Ok(isize::from(number)));
    equal
}
