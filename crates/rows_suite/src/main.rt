//! Holds the makers of constraints against rows of worked answers: a row of standard input asks for constraints, and
//! its line of standard output has them.
#![tactic(auto)]

mod asked;
mod making;
mod push;

use asked::answer;
use std::io::{self, BufRead, BufReader};

fn main(rt: HostRuntime) -> io::Result<()> {
    let input = BufReader::new(rt.alloc(), rt.reader())?;
    for line in input.lines(rt.alloc()) {
        match answer(rt.alloc(), line?.as_str()) {
            Ok(answer) => rt.write_all(answer.as_slice())?,
            Err(_) => rt.write_all(b"no memory\n")?,
        }
    }
    Ok(())
}
