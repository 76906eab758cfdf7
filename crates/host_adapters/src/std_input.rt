ghost use Rattle.std.specs.Prelude.{◌≡◌, None};

use crate::faults::{Faults, HostFault};
use folder_core::{Failed, Input};
use std::io::Read;

/// A reader of the host, such as standard input. It tells nothing of its bytes, and counts each error of the reader
/// as a fault.
#[derive(Drop)]
pub struct StdInput<R> {
    reader: R,
    faults: Faults,
}

impl<R: Read + Drop> StdInput<R> {
    pub fn new(reader: R) -> StdInput<R>
        ensures { ⟦<StdInput<R> as Input>⟧.faults result ≡ 0 }
    {
        StdInput {
            reader,
            faults: Faults::new(),
        }
    }
}

impl<R: Read + Drop> Input for StdInput<R> {
    ghost told = { λ _. None };

    ghost faults = { λ s. s.faults };

    fn read(&mut self, into: &mut [u8]) -> Result<usize, Failed> {
        match self.reader.read(into) {
            Ok(count) => Ok(count),
            Err(_) => Err(self.faults.failed()),
        }
    }
}
