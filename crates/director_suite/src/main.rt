//! Holds the words of commands, the lines of statuses and the top call against rows. Each row of standard input is a
//! question, and each line of standard output its answer. Empty lines and those that begin with `#` are copied.
#![tactic(auto)]

mod bench;
mod folders;
mod lines;
mod requests;
mod running;
mod sources;
mod statuses;
mod writing;

use bench::Bench;
use osgi_version::NoMemory;
use std::alloc::Global;
use std::io;
use suite_row::Row;
use writing::push_word;

fn main(rt: HostRuntime) -> io::Result<()> {
    let mut bench = Bench::new(rt.alloc());
    for line in rt.lines(rt.alloc()) {
        print_answer(rt, &mut bench, line?.as_str())?;
    }
    Ok(())
}

fn print_answer(rt: HostRuntime, bench: &mut Bench, line: &str) -> io::Result<()> {
    match answer(rt.alloc(), bench, line) {
        Ok(text) => rt.write_all(text.as_slice()),
        Err(NoMemory) => rt.write_all(b"no memory\n"),
    }
}

fn answer(alloc: Global, bench: &mut Bench, line: &str) -> Result<Vec<u8>, NoMemory> {
    let mut text = Vec::new(alloc);
    push_line(alloc, bench, line, &mut text)?;
    text.push(b'\n')?;
    Ok(text)
}

fn push_line(
    alloc: Global,
    bench: &mut Bench,
    line: &str,
    text: &mut Vec<u8>,
) -> Result<(), NoMemory> {
    if line.is_empty() || line.starts_with('#') {
        return push_word(text, line);
    }
    match Row::read(alloc, line.as_bytes())? {
        Some(row) => push_answer(alloc, bench, &row, text),
        None => push_word(text, "no row"),
    }
}

fn push_answer(
    alloc: Global,
    bench: &mut Bench,
    row: &Row,
    text: &mut Vec<u8>,
) -> Result<(), NoMemory> {
    match row.word(0) {
        "words" => requests::push_request(alloc, row, text),
        "root" => requests::push_root(alloc, row, text),
        "budget" => requests::push_default_budget(text),
        "status" => statuses::push_status_of(alloc, row, text),
        "plan" => lines::push_plan(alloc, row, text),
        "done" => lines::push_done(alloc, row, text),
        "add" => lines::push_add(alloc, row, text),
        _ => bench::push_change(alloc, bench, row, text),
    }
}
