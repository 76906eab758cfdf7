//! Holds the native actions against rows. A row acts on one folder in memory, which stays from row to row, and is answered
//! by one line. Empty lines and lines that begin with `#` are copied.
#![tactic(auto)]

mod answer;
mod boxes;
mod dice;
mod gather;
mod line;
mod random;
mod session;
mod shape;
mod shown;

use action_core::Action;
use answer::answer_line;
use folder_memory::MemoryFolder;
use native_actions::{ChMod, CleanUpCopy, Copy, Link, MkDir, Remove, RmDir};
use std::io;
use std::io::{BufRead, BufReader};

fn main(rt: HostRuntime) -> io::Result<()> {
    let alloc = rt.alloc();
    let mut actions: Vec<Box<dyn Action>> = Vec::new(alloc);
    actions.push(Box::new(alloc, MkDir::new(alloc))?)?;
    actions.push(Box::new(alloc, RmDir::new(alloc))?)?;
    actions.push(Box::new(alloc, Remove::new(alloc))?)?;
    actions.push(Box::new(alloc, Copy::new(alloc))?)?;
    actions.push(Box::new(alloc, CleanUpCopy::new(alloc))?)?;
    actions.push(Box::new(alloc, ChMod::new(alloc))?)?;
    actions.push(Box::new(alloc, Link::new(alloc))?)?;
    let mut folder = MemoryFolder::new(alloc);
    for line in BufReader::new(alloc, rt.reader())?.lines(alloc) {
        let answer = answer_line(alloc, &mut actions, &mut folder, line?.as_str());
        println!(rt; "{answer}")?;
    }
    Ok(())
}
