//! Holds the reading of instructions against rows of worked answers: a row of standard input has a text, and its line
//! of standard output the calls that the text makes, or the refusal.
#![tactic(auto)]

mod asked;
mod push;
mod shown;

use asked::answer;
use std::io::{self, BufRead, BufReader};

fn main(rt: HostRuntime) -> io::Result<()> {
    let input = BufReader::new(rt.alloc(), rt.reader())?;
    for line in input.lines(rt.alloc()) {
        match answer(rt.alloc(), line?.as_str()) {
            Ok(answer) => rt.write_all(answer.as_slice())?,
            Err(_) => rt.write_all(b"no memory\n")?,
        }
    }
    Ok(())
}
