//! Holds the entries of a journal, changes and recoveries against rows. A row acts on one folder in memory, which stays from
//! row to row, and is answered by one line. Empty lines and lines that begin with `#` are copied.
#![tactic(auto)]

mod answer;
mod entries;
mod image;
mod line;
mod open;
mod quiet;
mod script;
mod step;
mod stops;
mod store;

use answer::answer_line;
use quiet::Quiet;
use std::io;
use std::io::{BufRead, BufReader};

fn main(rt: HostRuntime) -> io::Result<()> {
    let alloc = rt.alloc();
    let mut folder = Quiet::new(alloc);
    for line in BufReader::new(alloc, rt.reader())?.lines(alloc) {
        let answer = answer_line(alloc, &mut folder, line?.as_str());
        println!(rt; "{answer}")?;
    }
    Ok(())
}
