//! The steps of a script, which is the rest of a row.
//!
//! `begin`, `PATH=NODE` for a touch, `all:PATH=NODE;PATH=NODE` for a list of touches, `undo:K`, `look:PATH`, `kids:PATH`, `finish`, `abandon`, `leave`, `recover`, `gate`,
//! `sync`, `fuse:PASSES`, `fail:CALL`, and `put:PATH=NODE` for what another puts there.

use folder_core::{Path, Touch};
use folder_rows::{RowFault, read_path, read_touch};
use osgi_version::{List, Text};
use std::alloc::Global;
use suite_row::Row;

#[derive(Drop)]
pub enum Step {
    Begin,
    Touch(Touch),
    All(List<Touch>),
    Put(Touch),
    Undo(u32),
    Look(Path),
    Kids(Path),
    Finish,
    Abandon,
    Leave,
    Recover,
    Gate,
    Sync,
    Fuse(u64),
    Fail(u64),
}

/// The steps that the fields of a row from this place on say.
pub fn read_steps(alloc: Global, row: &Row, first: usize) -> Result<List<Step>, RowFault> {
    let mut steps = List::new(alloc);
    for place in first..row.len() {
        steps.push(read_step(alloc, row.field(place))?)?;
    }
    Ok(steps)
}

fn read_step(alloc: Global, field: &Text) -> Result<Step, RowFault> {
    match field.as_str() {
        "begin" => Ok(Step::Begin),
        "finish" => Ok(Step::Finish),
        "abandon" => Ok(Step::Abandon),
        "leave" => Ok(Step::Leave),
        "recover" => Ok(Step::Recover),
        "gate" => Ok(Step::Gate),
        "sync" => Ok(Step::Sync),
        spelling => match spelling.split_once(':') {
            Some((verb, rest)) => read_verb(alloc, verb, rest),
            None => Ok(Step::Touch(read_touch(alloc, field)?)),
        },
    }
}

fn read_verb(alloc: Global, verb: &str, rest: &str) -> Result<Step, RowFault> {
    match verb {
        "all" => Ok(Step::All(touches_of(alloc, rest)?)),
        "put" => Ok(Step::Put(touch_of(alloc, rest)?)),
        "undo" => Ok(Step::Undo(small_of(rest)?)),
        "look" => Ok(Step::Look(path_of(alloc, rest)?)),
        "kids" => Ok(Step::Kids(path_of(alloc, rest)?)),
        "fuse" => Ok(Step::Fuse(number_of(rest)?)),
        "fail" => Ok(Step::Fail(number_of(rest)?)),
        _ => Err(RowFault::Spelling),
    }
}

fn path_of(alloc: Global, spelling: &str) -> Result<Path, RowFault> {
    let text = Text::from_str(alloc, spelling)?;
    read_path(alloc, &text)
}

fn touch_of(alloc: Global, spelling: &str) -> Result<Touch, RowFault> {
    let text = Text::from_str(alloc, spelling)?;
    read_touch(alloc, &text)
}

/// Touches with a `;` between them, or none.
fn touches_of(alloc: Global, spelling: &str) -> Result<List<Touch>, RowFault> {
    let mut touches = List::new(alloc);
    for piece in spelling.split(';') {
        if !piece.is_empty() {
            touches.push(touch_of(alloc, piece)?)?;
        }
    }
    Ok(touches)
}

fn number_of(digits: &str) -> Result<u64, RowFault> {
    match digits.parse::<u64>() {
        Ok(number) => Ok(number),
        Err(_) => Err(RowFault::Spelling),
    }
}

fn small_of(digits: &str) -> Result<u32, RowFault> {
    match digits.parse::<u32>() {
        Ok(number) => Ok(number),
        Err(_) => Err(RowFault::Spelling),
    }
}
