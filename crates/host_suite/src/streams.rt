//! Sinks and inputs, over files and over writers that take nothing or are interrupted.

use crate::lines::{push, push_count};
use folder_core::{Failed, Input, Sink};
use host_adapters::{StdInput, StdSink};
use osgi_version::{NoMemory, push_field};
use std::fs::File;
use std::io;
use std::io::ErrorKind;
use suite_row::Row;

/// A writer that is interrupted so often before it takes what it's given, at most so many bytes at a time.
#[derive(Drop)]
struct Slow {
    interruptions: u32,
    room: usize,
}

impl io::Write for Slow {
    fn write(&mut self, piece: &[u8]) -> io::Result<usize> {
        match self.interruptions.checked_sub(1) {
            Some(left) => {
                self.interruptions = left;
                Err(io::Error::from(ErrorKind::Interrupted))
            }
            None => Ok(piece.len().min(self.room)),
        }
    }

    fn flush(&mut self) -> io::Result<()> {
        Ok(())
    }
}

pub fn push_answer(rt: HostRuntime, row: &Row, line: &mut Vec<u8>) -> Result<(), NoMemory> {
    let at = row.word(2);
    match (row.word(0), row.word(1)) {
        ("sink", "slow") => push_slow(row, line),
        ("sink", "made") => push_file_sink(File::create(&rt, at), line),
        ("sink", "opened") => push_file_sink(File::open(&rt, at), line),
        ("input", "made") => push_file_input(File::create(&rt, at), line),
        ("input", "opened") => push_file_input(File::open(&rt, at), line),
        _ => push(line, "no question"),
    }
}

/// `sink slow INTERRUPTIONS ROOM`.
fn push_slow(row: &Row, line: &mut Vec<u8>) -> Result<(), NoMemory> {
    let interruptions = row.word(2).parse::<u32>().unwrap_or(0);
    let room = row.word(3).parse::<usize>().unwrap_or(0);
    let mut sink = StdSink::new(Slow {
        interruptions,
        room,
    });
    push_written(&mut sink, line)
}

/// `sink made PLACE` or `sink opened PLACE`: a file that is open to be read takes nothing.
fn push_file_sink(file: io::Result<File>, line: &mut Vec<u8>) -> Result<(), NoMemory> {
    match file {
        Ok(file) => push_written(&mut StdSink::new(file), line),
        Err(_) => push(line, "no file"),
    }
}

/// How many bytes are taken of `abc`, and of nothing.
fn push_written<K: Sink>(sink: &mut K, line: &mut Vec<u8>) -> Result<(), NoMemory> {
    push_taken(sink.write(b"abc"), line)?;
    push(line, " ")?;
    push_taken(sink.write(b""), line)
}

fn push_taken(taken: Result<usize, Failed>, line: &mut Vec<u8>) -> Result<(), NoMemory> {
    match taken {
        Ok(count) => push_count(line, count),
        Err(Failed) => push(line, "failed"),
    }
}

/// `input made PLACE` or `input opened PLACE`: a file that is open to be written gives nothing.
fn push_file_input(file: io::Result<File>, line: &mut Vec<u8>) -> Result<(), NoMemory> {
    match file {
        Ok(file) => push_all_read(&mut StdInput::new(file), line),
        Err(_) => push(line, "no file"),
    }
}

/// What two reads give.
fn push_all_read<I: Input>(input: &mut I, line: &mut Vec<u8>) -> Result<(), NoMemory> {
    push_read(input, line)?;
    push(line, " ")?;
    push_read(input, line)
}

fn push_read<I: Input>(input: &mut I, line: &mut Vec<u8>) -> Result<(), NoMemory> {
    let mut into = [0u8; 8];
    match input.read(&mut into) {
        Ok(count) => push_field(line, into.get(..count).unwrap_or(b"?")),
        Err(Failed) => push(line, "failed"),
    }
}
