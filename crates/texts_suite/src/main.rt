//! Answers rows about versions and ranges, tables of cases, properties texts, filters and digest files, one line a row.
//!
//! A row's first two words name the question, and the others are what it is asked of. A line that is empty or begins
//! with `#` stands in the output as it is.
#![tactic(auto)]

mod answer;
mod bytes;
mod digests;
mod environments;
mod fields;
mod filters;
mod lists;
mod properties;
mod ranges;
mod tables;
mod versions;

use answer::Answer;
use environments::Desk;
use osgi_version::NoMemory;
use std::alloc::Global;
use std::io::{self, BufRead, BufReader, Write};
use suite_row::Row;

fn main(rt: HostRuntime) -> io::Result<()> {
    let alloc = rt.alloc();
    let mut desk = Desk::new(alloc);
    let mut output = io::writer(&rt);
    for line in BufReader::new(alloc, rt.reader())?.lines(alloc) {
        let line = line?;
        let answer = match answered(alloc, &mut desk, line.as_bytes()) {
            Ok(answer) => answer,
            Err(NoMemory) => return Err(io::ErrorKind::OutOfMemory.into()),
        };
        output.write_all(answer.line())?;
        output.write_all(b"\n")?;
    }
    Ok(())
}

/// The answer to a line of input.
fn answered(alloc: Global, desk: &mut Desk, line: &[u8]) -> Result<Answer, NoMemory> {
    let mut answer = Answer::new(alloc);
    if line.is_empty() || line.starts_with(b"#") {
        answer.bytes(line)?;
        return Ok(answer);
    }
    match Row::read(alloc, line)? {
        Some(row) => reply(alloc, desk, &row, &mut answer)?,
        None => answer.word("no row")?,
    }
    Ok(answer)
}

fn reply(alloc: Global, desk: &mut Desk, row: &Row, answer: &mut Answer) -> Result<(), NoMemory> {
    match row.word(0) {
        "version" => versions::reply(alloc, row, answer),
        "range" => ranges::reply(alloc, row, answer),
        "field" => fields::reply(alloc, row, answer),
        "list" => lists::reply(alloc, row, answer),
        "table" => tables::reply(row, answer),
        "props" => properties::reply(alloc, row, answer),
        "digests" => digests::reply(alloc, row, answer),
        "filter" => filters::reply(alloc, desk.env(), row, answer),
        "env" => desk.reply(alloc, row, answer),
        _ => answer.word("no question"),
    }
}
