//! Holds the adapters of the host against rows, over real files below the folder that it runs in and over a host that
//! only answers. Each row of standard input is a question, and each line of standard output its answer. Empty lines and
//! those that begin with `#` are copied.
#![tactic(auto)]

mod answer;
mod arguments;
mod files;
mod folders;
mod lines;
mod script;
mod scripted;
mod streams;
mod trees;

use answer::answer;
use host_adapters::HostFolder;
use osgi_version::NoMemory;
use std::fs::File;
use std::io;

fn main(rt: HostRuntime) -> io::Result<()> {
    let mut folder = HostFolder::new(rt, String::new(rt.alloc()));
    for line in rt.lines(rt.alloc()) {
        print_answer(rt, &mut folder, line?.as_str())?;
    }
    Ok(())
}

fn print_answer(
    rt: HostRuntime,
    folder: &mut HostFolder<HostRuntime, File>,
    line: &str,
) -> io::Result<()> {
    match answer(rt, folder, line) {
        Ok(answer) => rt.write_all(answer.as_slice()),
        Err(NoMemory) => rt.write_all(b"no-memory\n"),
    }
}
