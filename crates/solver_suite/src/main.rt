//! Holds the solver against problems whose answers are known. A line of standard input that is empty or begins with `#`
//! is copied; each other line is a row, and is answered by one line. Each derivation goes through the checker here, and
//! each model through the constraints.
#![tactic(auto)]

mod builder;
mod families;
mod judging;
mod random;
mod rows;

use std::io;

fn main(rt: HostRuntime) -> io::Result<()> {
    for line in rt.lines(rt.alloc()) {
        match rows::answer(rt.alloc(), line?.as_str()) {
            Ok(text) => println!(rt; "{text}")?,
            Err(_) => println!(rt; "out of memory")?,
        }
    }
    Ok(())
}
