//! Holds the planner against rows of worked answers: a row of standard input adds units or asks for a plan, and its lines
//! of standard output answer.
#![tactic(auto)]

mod judging;
mod planning;
mod push;
mod question;
mod reasons;
mod scene;

use scene::Scene;
use std::io::{self, BufRead, BufReader};

fn main(rt: HostRuntime) -> io::Result<()> {
    let Ok(mut scene) = Scene::new(rt.alloc()) else {
        return rt.write_all(b"no memory\n");
    };
    let input = BufReader::new(rt.alloc(), rt.reader())?;
    for line in input.lines(rt.alloc()) {
        match scene.answer(rt.alloc(), line?.as_str()) {
            Ok(answer) => rt.write_all(answer.as_slice())?,
            Err(_) => rt.write_all(b"no memory\n")?,
        }
    }
    Ok(())
}
