//! The lines of a plan.

use crate::writing::{push_lines, push_word};
use director_words::{add_line, done_line, plan_line};
use osgi_version::{NoMemory, Twin, Version, VersionFault};
use std::alloc::Global;
use suite_row::Row;
use unit_model::UnitName;

/// `plan PROFILE NUMBER`: the first line.
pub(crate) fn push_plan(alloc: Global, row: &Row, text: &mut Vec<u8>) -> Result<(), NoMemory> {
    let line = plan_line(alloc, row.field(1).bytes(), small_number(row, 2))?;
    push_line(text, line.items())
}

/// `done PROFILE NUMBER`: the last line.
pub(crate) fn push_done(alloc: Global, row: &Row, text: &mut Vec<u8>) -> Result<(), NoMemory> {
    let line = done_line(alloc, row.field(1).bytes(), small_number(row, 2))?;
    push_line(text, line.items())
}

fn push_line(text: &mut Vec<u8>, line: &[u8]) -> Result<(), NoMemory> {
    push_word(text, "line")?;
    push_lines(text, line)
}

/// The number that a field has, or 0.
pub(crate) fn small_number(row: &Row, place: usize) -> u32 {
    match row.word(place).parse::<u32>() {
        Ok(number) => number,
        Err(_) => 0,
    }
}

/// `add ID VERSION`: the line of a unit that comes.
pub(crate) fn push_add(alloc: Global, row: &Row, text: &mut Vec<u8>) -> Result<(), NoMemory> {
    let id = row.field(1).copy()?;
    match Version::parse(alloc, row.field(2).bytes()) {
        Ok(version) => {
            let line = add_line(alloc, &UnitName { id, version })?;
            push_line(text, line.items())
        }
        Err(VersionFault::NoMemory) => Err(NoMemory),
        Err(_) => push_word(text, "no version"),
    }
}
