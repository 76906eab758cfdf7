//! Holds the keys of a p2.inf against rows of worked answers: a row of standard input asks, and its line of standard
//! output answers.
#![tactic(auto)]

mod answer;

use answer::answer;
use std::io::{self, BufRead, BufReader};

fn main(rt: HostRuntime) -> io::Result<()> {
    let input = BufReader::new(rt.alloc(), rt.reader())?;
    for line in input.lines(rt.alloc()) {
        match answer(rt.alloc(), line?.as_str()) {
            Ok(answer) => rt.write_all(answer.as_bytes())?,
            Err(_) => rt.write_all(b"no memory\n")?,
        }
    }
    Ok(())
}
