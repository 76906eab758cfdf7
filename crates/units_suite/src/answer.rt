//! Which question a row asks.

use crate::copies::{push_copies, push_judgement, push_note};
use crate::description::{push_described, push_many};
use crate::lines::push_taken;
use crate::looking::{push_applies, push_equal, push_matches};
use crate::names::{push_id, push_new, push_profile};
use crate::push::push_word;
use osgi_version::NoMemory;
use std::alloc::Global;
use suite_row::Row;

/// The line that answers a row. A comment is copied.
pub(crate) fn answer(alloc: Global, line: &str) -> Result<Vec<u8>, NoMemory> {
    let mut answer = Vec::new(alloc);
    if line.starts_with('#') {
        push_word(&mut answer, line)?;
    } else {
        push_answer(&mut answer, alloc, line)?;
    }
    answer.push(b'\n')?;
    Ok(answer)
}

fn push_answer(answer: &mut Vec<u8>, alloc: Global, line: &str) -> Result<(), NoMemory> {
    match Row::read(alloc, line.as_bytes())? {
        Some(row) => push_row(answer, alloc, &row),
        None => push_word(answer, "no row"),
    }
}

fn push_row(answer: &mut Vec<u8>, alloc: Global, row: &Row) -> Result<(), NoMemory> {
    match row.word(0) {
        "inf" => push_described(answer, alloc, row),
        "lines" => push_taken(answer, alloc, row),
        "many" => push_many(answer, alloc, row),
        "id" => push_id(answer, row),
        "profile" => push_profile(answer, row),
        "new" => push_new(answer, alloc, row),
        "matches" => push_matches(answer, alloc, row),
        "applies" => push_applies(answer, alloc, row),
        "equal" => push_equal(answer, alloc, row),
        "copies" => push_copies(answer, alloc, row),
        "note" => push_note(answer, alloc, row),
        "judgement" => push_judgement(answer, alloc, row),
        _ => push_word(answer, "no question"),
    }
}
