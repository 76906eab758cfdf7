use crate::answer::Answer;
use osgi_version::{NoMemory, Text, Twin, Version, VersionFault};
use std::alloc::Global;
use std::cmp::Ordering;
use suite_row::Row;

pub fn reply(alloc: Global, row: &Row, answer: &mut Answer) -> Result<(), NoMemory> {
    let text = row.field(2);
    match row.word(1) {
        "text" => canonical(alloc, text, answer),
        "parts" => parts(alloc, text, answer),
        "again" => again(alloc, text, answer),
        "twin" => twin(alloc, text, answer),
        "order" => order(alloc, text, row.field(3), answer),
        "same" => same(alloc, text, row.field(3), answer),
        "message" => message(alloc, text, answer),
        _ => answer.word("no question"),
    }
}

pub fn refused(fault: VersionFault, answer: &mut Answer) -> Result<(), NoMemory> {
    match fault {
        VersionFault::Bad { at } => {
            answer.word("bad")?;
            answer.number(at)
        }
        VersionFault::Raw => answer.word("raw"),
        VersionFault::NoMemory => Err(NoMemory),
    }
}

fn canonical(alloc: Global, text: &Text, answer: &mut Answer) -> Result<(), NoMemory> {
    match Version::parse(alloc, text.bytes()) {
        Ok(version) => answer.field(version.text(alloc)?.bytes()),
        Err(fault) => refused(fault, answer),
    }
}

/// The three numbers and the qualifier.
fn parts(alloc: Global, text: &Text, answer: &mut Answer) -> Result<(), NoMemory> {
    match Version::parse(alloc, text.bytes()) {
        Ok(version) => put_parts(&version, answer),
        Err(fault) => refused(fault, answer),
    }
}

fn put_parts(version: &Version, answer: &mut Answer) -> Result<(), NoMemory> {
    answer.number(u64::from(version.major))?;
    answer.number(u64::from(version.minor))?;
    answer.number(u64::from(version.micro))?;
    answer.field(version.qualifier.bytes())
}

/// Whether the canonical text reads back.
fn again(alloc: Global, text: &Text, answer: &mut Answer) -> Result<(), NoMemory> {
    match Version::parse(alloc, text.bytes()) {
        Ok(version) => {
            let written = version.text(alloc)?;
            answer.truth(is_read(alloc, &written, &version))
        }
        Err(fault) => refused(fault, answer),
    }
}

fn is_read(alloc: Global, text: &Text, version: &Version) -> bool {
    match Version::parse(alloc, text.bytes()) {
        Ok(read) => read == *version,
        Err(_) => false,
    }
}

/// Whether the copy is equal.
fn twin(alloc: Global, text: &Text, answer: &mut Answer) -> Result<(), NoMemory> {
    match Version::parse(alloc, text.bytes()) {
        Ok(version) => answer.truth(is_copied(&version)),
        Err(fault) => refused(fault, answer),
    }
}

fn is_copied(version: &Version) -> bool {
    match version.copy() {
        Ok(copied) => copied == *version,
        Err(NoMemory) => false,
    }
}

fn order(alloc: Global, text: &Text, other: &Text, answer: &mut Answer) -> Result<(), NoMemory> {
    match Version::parse(alloc, text.bytes()) {
        Ok(version) => match order_to(alloc, &version, other) {
            Ok(order) => answer.word(name_of(order)),
            Err(fault) => refused(fault, answer),
        },
        Err(fault) => refused(fault, answer),
    }
}

fn order_to(alloc: Global, version: &Version, other: &Text) -> Result<Ordering, VersionFault> {
    let other = Version::parse(alloc, other.bytes())?;
    Ok(version.order(&other))
}

fn name_of(order: Ordering) -> &'static str {
    match order {
        Ordering::Less => "less",
        Ordering::Equal => "equal",
        Ordering::Greater => "greater",
    }
}

fn same(alloc: Global, text: &Text, other: &Text, answer: &mut Answer) -> Result<(), NoMemory> {
    match Version::parse(alloc, text.bytes()) {
        Ok(version) => answer.truth(is_read(alloc, other, &version)),
        Err(fault) => refused(fault, answer),
    }
}

/// What is said of a refused text.
fn message(alloc: Global, text: &Text, answer: &mut Answer) -> Result<(), NoMemory> {
    match Version::parse(alloc, text.bytes()) {
        Ok(_) => answer.word("none"),
        Err(fault) => answer.message(&fault),
    }
}
