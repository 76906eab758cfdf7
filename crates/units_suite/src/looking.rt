//! What is asked of units.

use crate::description::read_units;
use crate::push::{push_truth, push_word};
use ldap_filter::{Env, EnvFault};
use osgi_version::{List, NoMemory};
use std::alloc::Global;
use suite_row::Row;
use unit_model::{Unit, applies, matches};

/// The field as a place in a list.
fn place(row: &Row, field: usize) -> usize {
    row.word(field).parse::<usize>().unwrap_or(usize::MAX)
}

/// Whether a unit answers a requirement of another. None where a place is too great.
fn is_answered(units: &List<Unit>, asking: usize, number: usize, asked: usize) -> Option<bool> {
    let required = units.get(asking)?.required.get(number)?;
    Some(matches(required, units.get(asked)?))
}

fn push_found(line: &mut Vec<u8>, found: Option<bool>) -> Result<(), NoMemory> {
    match found {
        Some(truth) => push_truth(line, truth),
        None => push_word(line, "no unit"),
    }
}

/// `matches UNIT ROW OTHER TEXT`: whether the other unit of the description answers that requirement of the unit.
pub(crate) fn push_matches(line: &mut Vec<u8>, alloc: Global, row: &Row) -> Result<(), NoMemory> {
    match read_units(alloc, row.word(4))? {
        Some(units) => push_found(
            line,
            is_answered(&units, place(row, 1), place(row, 2), place(row, 3)),
        ),
        None => push_word(line, "refused"),
    }
}

/// The environment of the keys and values from this field on. None where a key isn't one.
fn read_env(alloc: Global, row: &Row, first: usize) -> Result<Option<Env>, NoMemory> {
    let mut env = Env::new(alloc);
    for place in (first..row.len()).step_by(2) {
        match env.set(row.field(place).bytes(), row.field(place + 1)) {
            Ok(()) => {}
            Err(EnvFault::BadKey) => return Ok(None),
            Err(EnvFault::NoMemory) => return Err(NoMemory),
        }
    }
    Ok(Some(env))
}

fn push_applied(line: &mut Vec<u8>, units: &[Unit], env: &Env) -> Result<(), NoMemory> {
    push_word(line, "applies")?;
    for unit in units {
        push_word(
            line,
            if applies(unit, env) {
                " true"
            } else {
                " false"
            },
        )?;
    }
    Ok(())
}

fn push_applied_in(
    line: &mut Vec<u8>,
    alloc: Global,
    units: &[Unit],
    row: &Row,
) -> Result<(), NoMemory> {
    match read_env(alloc, row, 2)? {
        Some(env) => push_applied(line, units, &env),
        None => push_word(line, "bad key"),
    }
}

/// `applies TEXT KEY VALUE ..`: whether each unit of the description applies in the environment.
pub(crate) fn push_applies(line: &mut Vec<u8>, alloc: Global, row: &Row) -> Result<(), NoMemory> {
    match read_units(alloc, row.word(1))? {
        Some(units) => push_applied_in(line, alloc, units.items(), row),
        None => push_word(line, "refused"),
    }
}

fn push_same(
    line: &mut Vec<u8>,
    alloc: Global,
    units: &List<Unit>,
    text: &str,
) -> Result<(), NoMemory> {
    match read_units(alloc, text)? {
        Some(others) => push_truth(line, *units == others),
        None => push_word(line, "refused"),
    }
}

/// `equal TEXT TEXT`: whether two descriptions have the same units.
pub(crate) fn push_equal(line: &mut Vec<u8>, alloc: Global, row: &Row) -> Result<(), NoMemory> {
    match read_units(alloc, row.word(1))? {
        Some(units) => push_same(line, alloc, &units, row.word(2)),
        None => push_word(line, "refused"),
    }
}
