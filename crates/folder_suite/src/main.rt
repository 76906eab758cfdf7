//! Holds names, paths, nodes and the objects in memory against rows: reads rows from standard input, and prints one answer
//! for each.
#![tactic(auto)]

mod answer;
mod folders;
mod lines;
mod names;
mod nodes;
mod paths;
mod streams;
mod trees;

use answer::{Objects, answer};
use osgi_version::NoMemory;
use std::io;

fn main(rt: HostRuntime) -> io::Result<()> {
    match Objects::new(rt.alloc()) {
        Ok(mut objects) => print_answers(rt, &mut objects),
        Err(NoMemory) => rt.write_all(b"no-memory\n"),
    }
}

fn print_answers(rt: HostRuntime, objects: &mut Objects) -> io::Result<()> {
    for line in rt.lines(rt.alloc()) {
        print_answer(rt, objects, line?.as_str())?;
    }
    Ok(())
}

// A line that is empty or begins with `#` is a comment.
fn print_answer(rt: HostRuntime, objects: &mut Objects, line: &str) -> io::Result<()> {
    if line.is_empty() || line.starts_with('#') {
        return Ok(());
    }
    match answer(rt.alloc(), objects, line) {
        Ok(answer) => rt.write_all(answer.as_slice()),
        Err(NoMemory) => rt.write_all(b"no-memory\n"),
    }
}
