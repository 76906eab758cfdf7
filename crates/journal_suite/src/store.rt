//! Questions about the entries of a folder.

use crate::entries::push_entry;
use crate::line::say;
use crate::open::{are_touches, is_outside};
use crate::quiet::Quiet;
use crate::script::say_store_fault;
use backup_store::{EntryNumber, StoreFault, counts, keep, keep_all, put_back, read_kept};
use folder_core::{Path, Touch};
use folder_rows::{RowFault, read_path, read_touch, word_of};
use osgi_version::{List, NoMemory};
use std::alloc::Global;
use suite_row::Row;

fn number_of(row: &Row) -> Result<EntryNumber, RowFault> {
    match row.word(1).parse::<u32>() {
        Ok(number) => Ok(EntryNumber(number)),
        Err(_) => Err(RowFault::Spelling),
    }
}

/// `keep NUMBER PATH`
pub fn ask_keep(
    alloc: Global,
    folder: &mut Quiet,
    row: &Row,
    line: &mut Vec<u8>,
) -> Result<(), RowFault> {
    let number = number_of(row)?;
    let path = read_path(alloc, row.field(2))?;
    Ok(say_kept(alloc, folder, number, &path, line)?)
}

fn say_kept(
    alloc: Global,
    folder: &mut Quiet,
    number: EntryNumber,
    path: &Path,
    line: &mut Vec<u8>,
) -> Result<(), NoMemory> {
    if !is_outside(path) {
        return say(line, "refused");
    }
    let kept = keep(alloc, folder, number, path);
    say_outcome(line, &kept, "kept")
}

/// `keep-all NUMBER PATH=NODE ..`: the entries of these touches, from this number on.
pub fn ask_keep_all(
    alloc: Global,
    folder: &mut Quiet,
    row: &Row,
    line: &mut Vec<u8>,
) -> Result<(), RowFault> {
    let first = number_of(row)?;
    let mut touches = List::new(alloc);
    for place in 2..row.len() {
        touches.push(read_touch(alloc, row.field(place))?)?;
    }
    Ok(say_all_kept(alloc, folder, first, touches.items(), line)?)
}

fn say_all_kept(
    alloc: Global,
    folder: &mut Quiet,
    first: EntryNumber,
    touches: &[Touch],
    line: &mut Vec<u8>,
) -> Result<(), NoMemory> {
    let in_range = touches.len() <= (u32::MAX - first.0) as usize;
    if !in_range || !are_touches(touches) {
        return say(line, "refused");
    }
    let kept = keep_all(alloc, folder, first, touches);
    say_outcome(line, &kept, "kept")
}

fn say_outcome(
    line: &mut Vec<u8>,
    outcome: &Result<(), StoreFault>,
    word: &str,
) -> Result<(), NoMemory> {
    match outcome {
        Ok(()) => say(line, word),
        Err(fault) => say_store_fault(line, fault),
    }
}

/// `back NUMBER`
pub fn ask_back(
    alloc: Global,
    folder: &mut Quiet,
    row: &Row,
    line: &mut Vec<u8>,
) -> Result<(), RowFault> {
    let back = put_back(alloc, folder, number_of(row)?);
    Ok(say_outcome(line, &back, "back")?)
}

/// `counts NUMBER`
pub fn ask_counts(
    alloc: Global,
    folder: &mut Quiet,
    row: &Row,
    line: &mut Vec<u8>,
) -> Result<(), RowFault> {
    let word = match counts(alloc, folder, number_of(row)?) {
        Ok(true) => "counts",
        Ok(false) => "counts-not",
        Err(error) => word_of(error),
    };
    Ok(say(line, word)?)
}

/// `kept NUMBER`: what can be put back.
pub fn ask_kept(
    alloc: Global,
    folder: &mut Quiet,
    row: &Row,
    line: &mut Vec<u8>,
) -> Result<(), RowFault> {
    match read_kept(alloc, folder, number_of(row)?) {
        Ok(Some(entry)) => Ok(push_entry(line, &entry)?),
        Ok(None) => Ok(say(line, "damaged")?),
        Err(error) => Ok(say(line, word_of(error))?),
    }
}
