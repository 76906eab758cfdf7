use crate::answer::Answer;
use crate::bytes::bytes_of;
use osgi_version::{NoMemory, Text, Twin};
use props_reader::{Pairs, PropsFault, read};
use std::alloc::Global;
use suite_row::Row;

pub fn reply(alloc: Global, row: &Row, answer: &mut Answer) -> Result<(), NoMemory> {
    let text = row.field(2);
    match row.word(1) {
        "pairs" => pairs(alloc, text, answer),
        "pair" => pair(alloc, row, answer),
        "twin" => twin(alloc, text, answer),
        "same" => same(alloc, text, row.field(3), answer),
        "message" => message(alloc, text, answer),
        "many" => many(alloc, row, answer),
        _ => answer.word("no question"),
    }
}

/// The pairs of the text of these bytes.
fn read_spelled(alloc: Global, spelled: &Text) -> Result<Pairs, PropsFault> {
    let bytes = bytes_of(alloc, spelled)?;
    read(alloc, bytes.as_slice())
}

fn refused(fault: PropsFault, answer: &mut Answer) -> Result<(), NoMemory> {
    match fault {
        PropsFault::BadEscape { line } => {
            answer.word("bad_escape")?;
            answer.number(line)
        }
        PropsFault::NoMemory => Err(NoMemory),
    }
}

/// How many pairs there are, and the key and the value of each.
fn pairs(alloc: Global, text: &Text, answer: &mut Answer) -> Result<(), NoMemory> {
    match read_spelled(alloc, text) {
        Ok(pairs) => put_pairs(&pairs, answer),
        Err(fault) => refused(fault, answer),
    }
}

fn put_pairs(pairs: &Pairs, answer: &mut Answer) -> Result<(), NoMemory> {
    answer.number(pairs.len() as u64)?;
    for place in 0..pairs.len() {
        put_pair(pairs.pair(place), answer)?;
    }
    Ok(())
}

fn put_pair(pair: Option<(&Text, &Text)>, answer: &mut Answer) -> Result<(), NoMemory> {
    match pair {
        Some((key, value)) => {
            answer.field(key.bytes())?;
            answer.field(value.bytes())
        }
        None => answer.word("none"),
    }
}

/// The pair at a place.
fn pair(alloc: Global, row: &Row, answer: &mut Answer) -> Result<(), NoMemory> {
    let Ok(place) = row.word(2).parse::<usize>() else {
        return answer.word("no question");
    };
    match read_spelled(alloc, row.field(3)) {
        Ok(pairs) => put_pair(pairs.pair(place), answer),
        Err(fault) => refused(fault, answer),
    }
}

/// Whether the copy is equal.
fn twin(alloc: Global, text: &Text, answer: &mut Answer) -> Result<(), NoMemory> {
    match read_spelled(alloc, text) {
        Ok(pairs) => answer.truth(is_copied(&pairs)),
        Err(fault) => refused(fault, answer),
    }
}

fn is_copied(pairs: &Pairs) -> bool {
    match pairs.copy() {
        Ok(copied) => copied == *pairs,
        Err(NoMemory) => false,
    }
}

fn same(alloc: Global, text: &Text, other: &Text, answer: &mut Answer) -> Result<(), NoMemory> {
    match read_spelled(alloc, text) {
        Ok(pairs) => answer.truth(is_read(alloc, other, &pairs)),
        Err(fault) => refused(fault, answer),
    }
}

fn is_read(alloc: Global, text: &Text, pairs: &Pairs) -> bool {
    match read_spelled(alloc, text) {
        Ok(read) => read == *pairs,
        Err(_) => false,
    }
}

/// What is said of a refused text.
fn message(alloc: Global, text: &Text, answer: &mut Answer) -> Result<(), NoMemory> {
    match read_spelled(alloc, text) {
        Ok(_) => answer.word("none"),
        Err(fault) => answer.message(&fault),
    }
}

/// How many pairs a text of so many lines has, each a key of its own, and the last of them.
fn many(alloc: Global, row: &Row, answer: &mut Answer) -> Result<(), NoMemory> {
    let mut text = Vec::new(alloc);
    let count = row.word(2).parse::<u32>().unwrap_or(0);
    for number in 0..count {
        let line = format!(in alloc; "k{number}=v{number}\n")?;
        text.extend_from_slice(line.as_bytes())?;
    }
    match read(alloc, text.as_slice()) {
        Ok(pairs) => put_last(&pairs, answer),
        Err(fault) => refused(fault, answer),
    }
}

fn put_last(pairs: &Pairs, answer: &mut Answer) -> Result<(), NoMemory> {
    answer.number(pairs.len() as u64)?;
    put_pair(pairs.pair(pairs.len().saturating_sub(1)), answer)
}
