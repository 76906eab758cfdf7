//! What a row asks.

use osgi_version::{List, NoMemory, Text, Twin, Version, VersionFault};
use std::alloc::Global;
use suite_row::Row;
use unit_model::UnitName;

/// A budget, the numbers of the installed units, and strict and optional roots.
#[derive(Drop)]
pub(crate) struct Question {
    pub(crate) budget: u32,
    pub(crate) installed: List<u32>,
    pub(crate) roots: List<UnitName>,
    pub(crate) optional: List<UnitName>,
}

/// `.. BUDGET NUMBERS | ID VERSION .. | ID VERSION ..`
pub(crate) fn read_question(alloc: Global, row: &Row) -> Result<Question, NoMemory> {
    let first = bar(row, 2);
    let second = bar(row, first.saturating_add(1));
    let installed = numbers(alloc, row, first)?;
    let roots = names(alloc, row, first, second)?;
    let optional = names(alloc, row, second, row.len())?;
    Ok(Question {
        budget: row.word(1).parse::<u32>().unwrap_or(0),
        installed,
        roots,
        optional,
    })
}

/// Where the first bar stands from a place on, or else the end.
fn bar(row: &Row, from: usize) -> usize {
    for place in from..row.len() {
        if row.word(place) == "|" {
            return place;
        }
    }
    row.len()
}

/// The numbers behind the budget and before the end.
fn numbers(alloc: Global, row: &Row, end: usize) -> Result<List<u32>, NoMemory> {
    let mut numbers = List::new(alloc);
    for place in 2..end {
        numbers.push(row.word(place).parse::<u32>().unwrap_or(u32::MAX))?;
    }
    Ok(numbers)
}

/// The version that a row has. Memory is wanting where it has none, which no row is to show.
fn version_of(alloc: Global, text: &Text) -> Result<Version, NoMemory> {
    match Version::parse(alloc, text.bytes()) {
        Ok(version) => Ok(version),
        Err(VersionFault::Bad { .. } | VersionFault::Raw | VersionFault::NoMemory) => Err(NoMemory),
    }
}

fn name(alloc: Global, id: &Text, version: &Text) -> Result<UnitName, NoMemory> {
    let version = version_of(alloc, version)?;
    let id = id.copy()?;
    Ok(UnitName { id, version })
}

/// The names between a bar and an end: an id and a version each.
fn names(alloc: Global, row: &Row, bar: usize, end: usize) -> Result<List<UnitName>, NoMemory> {
    let mut names = List::new(alloc);
    for place in (bar.saturating_add(1)..end).step_by(2) {
        names.push(name(alloc, row.field(place), row.field(place.saturating_add(1)))?)?;
    }
    Ok(names)
}
