//! Holds units, and the descriptions that they are read from, against rows of worked answers: a row of standard input
//! asks, and its line of standard output answers.
#![tactic(auto)]

mod answer;
mod copies;
mod description;
mod lines;
mod looking;
mod names;
mod push;
mod shown;

use answer::answer;
use std::io::{self, BufRead, BufReader};

fn main(rt: HostRuntime) -> io::Result<()> {
    let input = BufReader::new(rt.alloc(), rt.reader())?;
    for line in input.lines(rt.alloc()) {
        match answer(rt.alloc(), line?.as_str()) {
            Ok(answer) => rt.write_all(answer.as_slice())?,
            Err(_) => rt.write_all(b"no memory\n")?,
        }
    }
    Ok(())
}
