//! What the rows ask.

use crate::making::{push_apart, push_many, push_most, push_need, push_root};
use crate::push::push_word;
use osgi_version::NoMemory;
use std::alloc::Global;
use suite_row::Row;

/// The line that answers a row. A comment is copied.
pub(crate) fn answer(alloc: Global, line: &str) -> Result<Vec<u8>, NoMemory> {
    let mut answer = Vec::new(alloc);
    if line.starts_with('#') {
        push_word(&mut answer, line)?;
    } else {
        push_answer(&mut answer, alloc, line)?;
    }
    answer.push(b'\n')?;
    Ok(answer)
}

fn push_answer(answer: &mut Vec<u8>, alloc: Global, line: &str) -> Result<(), NoMemory> {
    match Row::read(alloc, line.as_bytes())? {
        Some(row) => push_row(answer, alloc, &row),
        None => push_word(answer, "no row"),
    }
}

fn push_row(answer: &mut Vec<u8>, alloc: Global, row: &Row) -> Result<(), NoMemory> {
    push_word(answer, row.word(0))?;
    match row.word(0) {
        "root" => push_root(answer, alloc, row),
        "need" => push_need(answer, alloc, row),
        "most" => push_most(answer, alloc, row),
        "apart" => push_apart(answer, alloc, row),
        "many" => push_many(answer, alloc, row),
        _ => push_word(answer, " is no question"),
    }
}
