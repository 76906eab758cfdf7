//! The answer to a row.

use crate::image::{crash, show};
use crate::line::say;
use crate::quiet::Quiet;
use crate::script::play;
use crate::step::read_steps;
use crate::stops::{Way, try_each};
use crate::{entries, store};
use folder_rows::{PutAnswer, RowFault, push_path, put, read_touch};
use osgi_version::NoMemory;
use std::alloc::Global;
use suite_row::Row;

/// The answer to a line, as text.
pub fn answer_line(alloc: Global, folder: &mut Quiet, text: &str) -> String {
    let mut line = Vec::new(alloc);
    let fault = match answer_text(alloc, folder, text, &mut line) {
        Ok(()) => "",
        Err(RowFault::Spelling) => " misspelled",
        Err(RowFault::NoMemory) => " no-memory",
    };
    let _ = line.extend_from_slice(fault.as_bytes());
    match String::from_utf8(line) {
        Ok(answer) => answer,
        Err(_) => String::new(alloc),
    }
}

fn answer_text(
    alloc: Global,
    folder: &mut Quiet,
    text: &str,
    line: &mut Vec<u8>,
) -> Result<(), RowFault> {
    if text.is_empty() || text.starts_with('#') {
        return Ok(
            line.extend_from_slice(text.as_bytes())
                .map_err(NoMemory::from)?,
        );
    }
    match Row::read(alloc, text.as_bytes())? {
        Some(row) => answer(alloc, folder, &row, line),
        None => Err(RowFault::Spelling),
    }
}

fn answer(
    alloc: Global,
    folder: &mut Quiet,
    row: &Row,
    line: &mut Vec<u8>,
) -> Result<(), RowFault> {
    match row.word(0) {
        "read" => entries::read(alloc, row, line),
        "bytes" => entries::read_bytes(alloc, row, line),
        "file" => entries::read_zeros(alloc, row, line),
        "link" => entries::read_link(alloc, row, line),
        "write" => entries::write(alloc, row, line),
        "place" => entries::place(alloc, row, line),
        _ => act(alloc, folder, row, line),
    }
}

/// A row that acts on the folder.
fn act(alloc: Global, folder: &mut Quiet, row: &Row, line: &mut Vec<u8>) -> Result<(), RowFault> {
    match row.word(0) {
        "new" => {
            *folder = Quiet::new(alloc);
            put_each(alloc, folder, row, line)
        }
        "put" => put_each(alloc, folder, row, line),
        "play" => {
            let steps = read_steps(alloc, row, 1)?;
            play(alloc, folder, steps.items(), line);
            Ok(say_where_empty(line)?)
        }
        "crash" => crash(alloc, folder, row, line),
        "show" => show(alloc, folder, false, line),
        "journal" => show(alloc, folder, true, line),
        "stops" => try_each(alloc, folder, row, Way::Stops, line),
        "fails" => try_each(alloc, folder, row, Way::Fails, line),
        "touched" => push_touched(folder, line),
        _ => ask_store(alloc, folder, row, line),
    }
}

/// A script in which no step says a word.
fn say_where_empty(line: &mut Vec<u8>) -> Result<(), NoMemory> {
    if line.is_empty() {
        say(line, "ok")?;
    }
    Ok(())
}

fn ask_store(
    alloc: Global,
    folder: &mut Quiet,
    row: &Row,
    line: &mut Vec<u8>,
) -> Result<(), RowFault> {
    match row.word(0) {
        "keep" => store::ask_keep(alloc, folder, row, line),
        "keep-all" => store::ask_keep_all(alloc, folder, row, line),
        "back" => store::ask_back(alloc, folder, row, line),
        "counts" => store::ask_counts(alloc, folder, row, line),
        "kept" => store::ask_kept(alloc, folder, row, line),
        _ => Err(RowFault::Spelling),
    }
}

/// Puts the nodes that the row says, in turn.
fn put_each(
    alloc: Global,
    folder: &mut Quiet,
    row: &Row,
    line: &mut Vec<u8>,
) -> Result<(), RowFault> {
    for place in 1..row.len() {
        let touch = read_touch(alloc, row.field(place))?;
        match put(&mut folder.inner, &touch.path, touch.node.as_ref()) {
            PutAnswer::Done => {}
            PutAnswer::Refused => say(line, "refused")?,
            PutAnswer::Failed(_) => say(line, "failed")?,
        }
    }
    Ok(say(line, "ok")?)
}

/// `touched`: the paths that were set since the last sync, in turn.
fn push_touched(folder: &Quiet, line: &mut Vec<u8>) -> Result<(), RowFault> {
    say(line, "touched")?;
    for path in folder.inner.touched() {
        say(line, "")?;
        push_path(line, path)?;
    }
    Ok(())
}
