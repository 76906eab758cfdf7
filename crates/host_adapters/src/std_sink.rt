ghost use Rattle.std.specs.Prelude.{◌≡◌, ◌<◌, ◌≤◌, length, IfSome, None};

use crate::faults::Faults;
use folder_core::{Failed, Sink};
use std::io::{ErrorKind, Write};

/// How often a writer is called for one piece. A thousand signals in one write are no accident.
const MOST_CALLS: u32 = 1000;

/// A writer of the host, such as standard output. It tells nothing of what was written, keeps no bytes back, and
/// counts as a fault each error of the writer, and each time that it takes nothing of a piece that isn't empty. A writer
/// that is interrupted is called again, up to a thousand times for one piece.
#[derive(Drop)]
pub struct StdSink<W> {
    writer: W,
    faults: Faults,
}

impl<W: Write + Drop> StdSink<W> {
    pub fn new(writer: W) -> StdSink<W>
        ensures { ⟦<StdSink<W> as Sink>⟧.faults result ≡ 0 }
    {
        StdSink {
            writer,
            faults: Faults::new(),
        }
    }
}

impl<W: Write + Drop> Sink for StdSink<W> {
    ghost told = { λ _. None };

    ghost faults = { λ s. s.faults };

    fn write(&mut self, piece: &[u8]) -> Result<usize, Failed> {
        match write_some(&mut self.writer, piece) {
            Some(count) => Ok(count),
            None => Err(self.faults.failed()),
        }
    }
}

/// Writes a front of a piece. A call that a signal interrupts has written nothing, and is made again.
fn write_some<W: Write>(writer: &mut W, piece: &[u8]) -> Option<usize>
    ensures bound { IfSome result (λ count. count ≤ length piece.now) }
    ensures some { IfSome result (λ count. 0 < length piece.now → 0 < count) }
{
    for _ in 0..MOST_CALLS {
        match writer.write(piece) {
            Ok(0) if !piece.is_empty() => return None,
            Ok(count) => return Some(count),
            Err(error) if error.kind() == ErrorKind::Interrupted => {}
            Err(_) => return None,
        }
    }
    None
}
