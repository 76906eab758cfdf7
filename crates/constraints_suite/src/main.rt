//! Holds constraints, kept slacks, derivations and texts of evidence against rows that were worked out by hand. A line
//! that is empty or begins with `#` is copied; each other line is a row, and is answered by one line.
#![tactic(auto)]

mod derivations;
mod desk;
mod evidence;
mod kept;
mod printing;
mod values;
mod weights;
mod words;

use crate::desk::Desk;
use osgi_version::NoMemory;
use std::alloc::Global;
use std::io;
use suite_row::Row;

/// What stands behind a row's first word.
fn words_behind(alloc: Global, row: &Row) -> Result<Vec<&str>, NoMemory> {
    let mut words = Vec::new(alloc);
    for place in 1..row.len() {
        words.push(row.word(place))?;
    }
    Ok(words)
}

/// What is asked without a problem.
fn answer_alone(alloc: Global, question: &str, words: &[&str]) -> Result<Option<String>, NoMemory> {
    let text = match question {
        "normal" => weights::normal(alloc, words)?,
        "many" => weights::many(alloc, words)?,
        "values" => values::values(alloc, words)?,
        "copies" => values::copies(alloc, words)?,
        _ => return Ok(None),
    };
    Ok(Some(text))
}

/// What is asked of a text of evidence.
fn answer_text(alloc: Global, question: &str, words: &[&str]) -> Result<Option<String>, NoMemory> {
    let Some((text, more)) = words.split_first() else {
        return Ok(None);
    };
    let text = match question {
        "read" => evidence::read(alloc, text.as_bytes())?,
        "raw" => evidence::raw(alloc, text)?,
        "fault" => evidence::fault(alloc, text)?,
        "again" => evidence::again(alloc, text)?,
        "twin" => evidence::twin(alloc, text)?,
        "verdict" => evidence::verdict(alloc, text)?,
        "because" => evidence::because(alloc, text)?,
        "slacks" => evidence::slacks(alloc, text, more)?,
        _ => return Ok(None),
    };
    Ok(Some(text))
}

/// What is asked of the problem at hand, or changes its values.
fn answer_desk(
    alloc: Global,
    desk: &mut Desk,
    question: &str,
    words: &[&str],
) -> Result<String, NoMemory> {
    match question {
        "assign" => kept::assign(alloc, desk, words),
        "clear" => kept::clear(alloc, desk, words),
        "add" => kept::add(alloc, desk, words),
        "slack" => kept::slack(alloc, desk, words),
        "value" => kept::value(alloc, desk, words),
        "row" => kept::row(alloc, desk, words),
        "holders" => kept::holders(alloc, desk, words),
        "sizes" => kept::sizes(alloc, desk),
        "afresh" => kept::afresh(alloc, desk),
        "turns" => kept::turns(alloc, desk, words),
        "check" => derivations::check_lines(alloc, desk, words),
        "used" => derivations::used_by(alloc, desk, words),
        _ => Ok("no such question".to_string(alloc)?),
    }
}

fn answer_row(
    alloc: Global,
    desk: &mut Option<Desk>,
    question: &str,
    words: &[&str],
) -> Result<String, NoMemory> {
    if question == "problem" {
        return desk::set_up(alloc, desk, words);
    }
    if let Some(text) = answer_alone(alloc, question, words)? {
        return Ok(text);
    }
    if let Some(text) = answer_text(alloc, question, words)? {
        return Ok(text);
    }
    match desk {
        Some(desk) => answer_desk(alloc, desk, question, words),
        None => Ok("no problem".to_string(alloc)?),
    }
}

fn answer(alloc: Global, desk: &mut Option<Desk>, line: &str) -> Result<String, NoMemory> {
    if line.is_empty() || line.starts_with('#') {
        return Ok(line.to_string(alloc)?);
    }
    let Some(row) = Row::read(alloc, line.as_bytes())? else {
        return Ok("no row".to_string(alloc)?);
    };
    let words = words_behind(alloc, &row)?;
    answer_row(alloc, desk, row.word(0), &words)
}

fn main(rt: HostRuntime) -> io::Result<()> {
    let mut desk = None;
    for line in rt.lines(rt.alloc()) {
        match answer(rt.alloc(), &mut desk, line?.as_str()) {
            Ok(text) => println!(rt; "{text}")?,
            Err(_) => println!(rt; "out of memory")?,
        }
    }
    Ok(())
}
