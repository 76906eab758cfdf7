//! Holds judgements of units against rows of worked answers: a row of standard input gives units, an environment or a
//! question, and its line of standard output answers.
#![tactic(auto)]

mod asking;
mod making;
mod scene;

use scene::Scene;
use std::io::{self, BufRead, BufReader};

fn main(rt: HostRuntime) -> io::Result<()> {
    let mut scene = Scene::new(rt.alloc());
    let input = BufReader::new(rt.alloc(), rt.reader())?;
    for line in input.lines(rt.alloc()) {
        match scene.answer(rt.alloc(), line?.as_str()) {
            Ok(answer) => rt.write_all(answer.as_slice())?,
            Err(_) => rt.write_all(b"no memory\n")?,
        }
    }
    Ok(())
}
