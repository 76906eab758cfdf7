//! Constraints that rows ask for.

use crate::push::{push_constraints, push_word};
use osgi_version::{NoMemory, Twin, Version, VersionFault, push_number};
use pb_rows::{Constraints, EncodeFault, add_apart, add_most, add_need, add_root};
use std::alloc::Global;
use suite_row::Row;
use unit_model::UnitName;

/// The most variables of a row.
const MOST: usize = 8192;

fn number(row: &Row, place: usize) -> u32 {
    row.word(place).parse::<u32>().unwrap_or(0)
}

/// The numbers from one place up to another.
fn numbers(alloc: Global, row: &Row, from: usize, to: usize) -> Result<Vec<u32>, NoMemory> {
    let mut numbers = Vec::new(alloc);
    for place in from..to {
        numbers.push(number(row, place))?;
    }
    Ok(numbers)
}

fn push_told(
    line: &mut Vec<u8>,
    constraints: Constraints,
    told: Result<(), EncodeFault>,
) -> Result<(), NoMemory> {
    match told {
        Ok(()) => {
            let list = constraints.into_list();
            push_constraints(line, list.items())
        }
        Err(EncodeFault::TooLarge) => push_word(line, " too large"),
        Err(EncodeFault::NoMemory) => Err(NoMemory),
    }
}

fn root(constraints: &mut Constraints, name: &UnitName, named: &[u32]) -> Result<(), EncodeFault> {
    if named.len() > MOST {
        return Ok(());
    }
    add_root(constraints, name, named)
}

fn push_named(
    line: &mut Vec<u8>,
    alloc: Global,
    name: &UnitName,
    named: &[u32],
) -> Result<(), NoMemory> {
    let mut constraints = Constraints::new(alloc);
    let told = root(&mut constraints, name, named);
    push_told(line, constraints, told)
}

/// `root ID VERSION VARIABLES`
pub(crate) fn push_root(line: &mut Vec<u8>, alloc: Global, row: &Row) -> Result<(), NoMemory> {
    let named = numbers(alloc, row, 3, row.len())?;
    match Version::parse(alloc, row.field(2).bytes()) {
        Ok(version) => {
            let id = row.field(1).copy()?;
            push_named(line, alloc, &UnitName { id, version }, &named)
        }
        Err(VersionFault::Bad { .. } | VersionFault::Raw) => push_word(line, " of no version"),
        Err(VersionFault::NoMemory) => Err(NoMemory),
    }
}

fn need(constraints: &mut Constraints, row: &Row, matching: &[u32]) -> Result<(), EncodeFault> {
    if matching.len() > MOST {
        return Ok(());
    }
    add_need(
        constraints,
        number(row, 1),
        number(row, 2),
        number(row, 3),
        matching,
    )
}

/// `need VARIABLE ROW MIN VARIABLES`
pub(crate) fn push_need(line: &mut Vec<u8>, alloc: Global, row: &Row) -> Result<(), NoMemory> {
    let matching = numbers(alloc, row, 4, row.len())?;
    let mut constraints = Constraints::new(alloc);
    let told = need(&mut constraints, row, &matching);
    push_told(line, constraints, told)
}

fn most(constraints: &mut Constraints, row: &Row, matching: &[u32]) -> Result<(), EncodeFault> {
    if matching.len() > MOST {
        return Ok(());
    }
    add_most(
        constraints,
        number(row, 1),
        number(row, 2),
        number(row, 3),
        matching,
    )
}

/// `most VARIABLE ROW MAX VARIABLES`
pub(crate) fn push_most(line: &mut Vec<u8>, alloc: Global, row: &Row) -> Result<(), NoMemory> {
    let matching = numbers(alloc, row, 4, row.len())?;
    let mut constraints = Constraints::new(alloc);
    let told = most(&mut constraints, row, &matching);
    push_told(line, constraints, told)
}

/// The place of the word `/`, or behind the last word where there is none.
fn slash(row: &Row) -> usize {
    for place in 0..row.len() {
        if row.word(place) == "/" {
            return place;
        }
    }
    row.len()
}

fn apart(
    constraints: &mut Constraints,
    row: &Row,
    singles: &[u32],
    others: &[u32],
) -> Result<(), EncodeFault> {
    if singles.len() > MOST {
        return Ok(());
    }
    add_apart(constraints, row.field(1), singles, others)
}

/// `apart ID SINGLETONS / OTHERS`
pub(crate) fn push_apart(line: &mut Vec<u8>, alloc: Global, row: &Row) -> Result<(), NoMemory> {
    let slash = slash(row);
    let singles = numbers(alloc, row, 2, slash)?;
    let others = numbers(alloc, row, slash.saturating_add(1), row.len())?;
    let mut constraints = Constraints::new(alloc);
    let told = apart(&mut constraints, row, &singles, &others);
    push_told(line, constraints, told)
}

/// The variables from 1 to a number.
fn first(alloc: Global, count: u32) -> Result<Vec<u32>, NoMemory> {
    let mut first = Vec::new(alloc);
    for number in 0..count {
        first.push(number + 1)?;
    }
    Ok(first)
}

fn repeat(constraints: &mut Constraints, times: u32, matching: &[u32]) -> Result<(), EncodeFault> {
    if matching.len() > MOST {
        return Ok(());
    }
    for row in 0..times {
        add_need(constraints, 8192, row, 1, matching)?;
    }
    Ok(())
}

fn push_length(
    line: &mut Vec<u8>,
    constraints: Constraints,
    told: Result<(), EncodeFault>,
) -> Result<(), NoMemory> {
    match told {
        Ok(()) => {
            line.push(b' ')?;
            push_number(
                line,
                u32::try_from(constraints.into_list().len()).unwrap_or(u32::MAX),
            )
        }
        Err(EncodeFault::TooLarge) => push_word(line, " too large"),
        Err(EncodeFault::NoMemory) => Err(NoMemory),
    }
}

/// `many TIMES COUNT`: how many constraints there are where variable 8192 needs one of so many, so many times.
pub(crate) fn push_many(line: &mut Vec<u8>, alloc: Global, row: &Row) -> Result<(), NoMemory> {
    let matching = first(alloc, number(row, 2))?;
    let mut constraints = Constraints::new(alloc);
    let told = repeat(&mut constraints, number(row, 1), &matching);
    push_length(line, constraints, told)
}
