//! Copies of units, notes and judgements.

use crate::description::read_units;
use crate::names::read_name;
use crate::push::{push_count, push_name, push_text, push_truth, push_word};
use osgi_version::{List, NoMemory, Text, Twin};
use std::alloc::Global;
use suite_row::Row;
use unit_model::{Judgement, Note, UnitName};

/// `copies TEXT`: whether the copies of the description's units are equal to them.
pub(crate) fn push_copies(line: &mut Vec<u8>, alloc: Global, row: &Row) -> Result<(), NoMemory> {
    match read_units(alloc, row.word(1))? {
        Some(units) => push_truth(line, units.copy()? == units),
        None => push_word(line, "refused"),
    }
}

fn push_paths(line: &mut Vec<u8>, paths: &[Text]) -> Result<(), NoMemory> {
    for path in paths {
        push_text(line, path)?;
    }
    Ok(())
}

fn push_note_parts(line: &mut Vec<u8>, note: &Note) -> Result<(), NoMemory> {
    push_word(line, "note")?;
    push_name(line, &note.unit)?;
    push_text(line, &note.source)?;
    push_text(line, &note.target)?;
    push_paths(line, note.paths.items())
}

/// The fields from this one on.
fn texts_from(alloc: Global, row: &Row, first: usize) -> Result<List<Text>, NoMemory> {
    let mut texts = List::new(alloc);
    for place in first..row.len() {
        texts.push(row.field(place).copy()?)?;
    }
    Ok(texts)
}

fn note_of(alloc: Global, row: &Row, unit: UnitName) -> Result<Note, NoMemory> {
    let source = row.field(3).copy()?;
    let target = row.field(4).copy()?;
    let paths = texts_from(alloc, row, 5)?;
    Ok(Note {
        unit,
        source,
        target,
        paths,
    })
}

/// `note ID VERSION SOURCE TARGET PATH ..`: a copy of the note.
pub(crate) fn push_note(line: &mut Vec<u8>, alloc: Global, row: &Row) -> Result<(), NoMemory> {
    match read_name(alloc, row.field(1), row.field(2))? {
        Some(unit) => push_note_copy(line, &note_of(alloc, row, unit)?),
        None => push_word(line, "bad version"),
    }
}

fn push_note_copy(line: &mut Vec<u8>, note: &Note) -> Result<(), NoMemory> {
    let copied = note.copy()?;
    push_note_parts(line, &copied)?;
    push_word(line, if copied == *note { " equal" } else { " other" })
}

fn push_named(line: &mut Vec<u8>, word: &str, name: &UnitName) -> Result<(), NoMemory> {
    push_word(line, word)?;
    push_name(line, name)
}

fn push_judged(line: &mut Vec<u8>, judgement: &Judgement) -> Result<(), NoMemory> {
    match judgement {
        Judgement::Good => push_word(line, "good"),
        Judgement::Root(unit) => push_named(line, "root", unit),
        Judgement::Applies(unit) => push_named(line, "applies", unit),
        Judgement::Requirement { unit, row } => {
            push_named(line, "requirement", unit)?;
            push_count(line, *row)
        }
        Judgement::Singleton { first, second } => {
            push_named(line, "singleton", first)?;
            push_name(line, second)
        }
        Judgement::Unrooted(unit) => push_named(line, "unrooted", unit),
    }
}

/// Good where the second version isn't one.
fn singleton_of(alloc: Global, row: &Row, first: UnitName) -> Result<Judgement, NoMemory> {
    match read_name(alloc, row.field(4), row.field(5))? {
        Some(second) => Ok(Judgement::Singleton { first, second }),
        None => Ok(Judgement::Good),
    }
}

fn judgement_of(alloc: Global, row: &Row, unit: UnitName) -> Result<Judgement, NoMemory> {
    match row.word(1) {
        "root" => Ok(Judgement::Root(unit)),
        "applies" => Ok(Judgement::Applies(unit)),
        "requirement" => Ok(Judgement::Requirement {
            unit,
            row: row.word(4).parse::<u32>().unwrap_or(0),
        }),
        "singleton" => singleton_of(alloc, row, unit),
        "unrooted" => Ok(Judgement::Unrooted(unit)),
        _ => Ok(Judgement::Good),
    }
}

fn push_judgement_copy(line: &mut Vec<u8>, judgement: &Judgement) -> Result<(), NoMemory> {
    let copied = judgement.copy()?;
    push_judged(line, &copied)?;
    push_word(
        line,
        if copied == *judgement {
            " equal"
        } else {
            " other"
        },
    )
}

/// `judgement WORD ID VERSION ..`: a copy of the judgement.
pub(crate) fn push_judgement(line: &mut Vec<u8>, alloc: Global, row: &Row) -> Result<(), NoMemory> {
    match read_name(alloc, row.field(2), row.field(3))? {
        Some(unit) => push_judgement_copy(line, &judgement_of(alloc, row, unit)?),
        None => push_word(line, "bad version"),
    }
}
