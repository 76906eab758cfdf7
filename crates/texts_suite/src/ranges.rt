use crate::answer::Answer;
use crate::versions::refused;
use osgi_version::{NoMemory, Range, Text, Twin, Version, VersionFault};
use std::alloc::Global;
use suite_row::Row;

pub fn reply(alloc: Global, row: &Row, answer: &mut Answer) -> Result<(), NoMemory> {
    let text = row.field(2);
    match row.word(1) {
        "text" => canonical(alloc, text, answer),
        "parts" => parts(alloc, text, answer),
        "again" => again(alloc, text, answer),
        "twin" => twin(alloc, text, answer),
        "same" => same(alloc, text, row.field(3), answer),
        "holds" => holds(alloc, text, row.field(3), answer),
        _ => answer.word("no question"),
    }
}

fn canonical(alloc: Global, text: &Text, answer: &mut Answer) -> Result<(), NoMemory> {
    match Range::parse(alloc, text.bytes()) {
        Ok(range) => answer.field(range.text(alloc)?.bytes()),
        Err(fault) => refused(fault, answer),
    }
}

/// Each end, and whether it is included.
fn parts(alloc: Global, text: &Text, answer: &mut Answer) -> Result<(), NoMemory> {
    match Range::parse(alloc, text.bytes()) {
        Ok(range) => put_parts(&range, answer),
        Err(fault) => refused(fault, answer),
    }
}

fn put_parts(range: &Range, answer: &mut Answer) -> Result<(), NoMemory> {
    put_end(&range.floor, range.floor_included, answer)?;
    match &range.ceiling {
        Some(ceiling) => put_end(&ceiling.version, ceiling.included, answer),
        None => answer.word("open"),
    }
}

fn put_end(version: &Version, included: bool, answer: &mut Answer) -> Result<(), NoMemory> {
    answer.number(u64::from(version.major))?;
    answer.number(u64::from(version.minor))?;
    answer.number(u64::from(version.micro))?;
    answer.field(version.qualifier.bytes())?;
    answer.word(if included { "included" } else { "excluded" })
}

/// Whether the canonical text reads back.
fn again(alloc: Global, text: &Text, answer: &mut Answer) -> Result<(), NoMemory> {
    match Range::parse(alloc, text.bytes()) {
        Ok(range) => {
            let written = range.text(alloc)?;
            answer.truth(is_read(alloc, &written, &range))
        }
        Err(fault) => refused(fault, answer),
    }
}

fn is_read(alloc: Global, text: &Text, range: &Range) -> bool {
    match Range::parse(alloc, text.bytes()) {
        Ok(read) => read == *range,
        Err(_) => false,
    }
}

/// Whether the copy is equal.
fn twin(alloc: Global, text: &Text, answer: &mut Answer) -> Result<(), NoMemory> {
    match Range::parse(alloc, text.bytes()) {
        Ok(range) => answer.truth(is_copied(&range)),
        Err(fault) => refused(fault, answer),
    }
}

fn is_copied(range: &Range) -> bool {
    match range.copy() {
        Ok(copied) => copied == *range,
        Err(NoMemory) => false,
    }
}

fn same(alloc: Global, text: &Text, other: &Text, answer: &mut Answer) -> Result<(), NoMemory> {
    match Range::parse(alloc, text.bytes()) {
        Ok(range) => answer.truth(is_read(alloc, other, &range)),
        Err(fault) => refused(fault, answer),
    }
}

fn holds(alloc: Global, text: &Text, version: &Text, answer: &mut Answer) -> Result<(), NoMemory> {
    match Range::parse(alloc, text.bytes()) {
        Ok(range) => match is_held(alloc, &range, version) {
            Ok(held) => answer.truth(held),
            Err(fault) => refused(fault, answer),
        },
        Err(fault) => refused(fault, answer),
    }
}

fn is_held(alloc: Global, range: &Range, version: &Text) -> Result<bool, VersionFault> {
    let version = Version::parse(alloc, version.bytes())?;
    Ok(range.holds(&version))
}
