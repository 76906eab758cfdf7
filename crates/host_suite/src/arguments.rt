use crate::lines::push;
use host_adapters::{Arguments, ArgumentsFault};
use osgi_version::{NoMemory, push_field};
use std::alloc::Global;
use std::env::{Env, FillError};
use suite_row::Row;

/// The words that a program is called with: a row's fields behind its first. `~` is a byte that UTF-8 never has.
#[derive(Clone, Copy)]
struct Given<'a>(&'a Row);

impl Env for Given<'_> {
    fn arg(&self, i: usize, buf: &mut [u8]) -> Result<usize, FillError> {
        let place = i.saturating_add(1);
        if place >= self.0.len() {
            return Err(FillError::NotPresent);
        }
        let word = self.0.field(place).bytes();
        if word.len() > buf.len() {
            return Err(FillError::TooLong);
        }
        for (to, from) in buf.iter_mut().zip(word) {
            *to = if *from == b'~' { 255 } else { *from };
        }
        Ok(word.len())
    }

    fn var(&self, _name: &str, _buf: &mut [u8]) -> Result<usize, FillError> {
        Err(FillError::NotPresent)
    }

    fn var_at(&self, _i: usize, _buf: &mut [u8]) -> Result<usize, FillError> {
        Err(FillError::NotPresent)
    }
}

/// `words WORD ..`: how the words are cut.
pub fn push_answer(alloc: Global, row: &Row, line: &mut Vec<u8>) -> Result<(), NoMemory> {
    match Arguments::read(&(Given(row), alloc)) {
        Ok(arguments) => push_cut(&arguments, line),
        Err(ArgumentsFault::Usage) => push(line, "usage"),
        Err(ArgumentsFault::NoMemory) => Err(NoMemory),
    }
}

fn push_cut(arguments: &Arguments, line: &mut Vec<u8>) -> Result<(), NoMemory> {
    push_field(line, arguments.folder.as_bytes())?;
    push(line, " ")?;
    push_field(line, arguments.source.as_bytes())?;
    for word in arguments.words.iter() {
        push(line, " ")?;
        push_field(line, word.bytes())?;
    }
    Ok(())
}
