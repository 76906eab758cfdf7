ghost use Rattle.std.specs.Prelude.{◌≡◌, ◌≤◌, [], List, ℕ};
ghost use Rattle.folder_core.specs.Cause.{Rose};
ghost use Rattle.folder_core.specs.Step.{Step};
ghost use Rattle.director_words.specs.Status.{CanPrint, short_line_of, lines_of};
ghost use Rattle.director_core.specs.Performs.{Adds};
ghost use Rattle.director_core.specs.Printed.{IsFaultPrinted};
ghost use Rattle.director_core.specs.Refuses.{Ends, EndsOrFails, EndsWithMemory, WritesRefusal, WritesOrFails, WritesWithMemory};

use crate::writing::write_all;
use director_words::{Status, lines, short_line};
use folder_core::{After, Sink};
use std::alloc::Global;

/// Writes the lines of a refusal, and answers how the command ends. Where the sink fails on them that is its
/// fault, except that a fault of the folder and want of memory stay.
pub(crate) fn refuse<K: Sink>(alloc: Global, out: &mut K, status: Status) -> Status
    requires { CanPrint status }
    ensures ends { Ends status result (Rose (K.faults out.old) (K.faults out.new)) }
    ensures prints { Step (K.told out.old) (K.told out.new) (Adds (WritesRefusal (Rose (K.faults out.old) (K.faults out.new)) status result)) }
    ensures later { K.faults out.old ≤ K.faults out.new }
{
    match status {
        Status::Done => Status::Done,
        Status::NotBuilt => refuse_shortly(out, Status::NotBuilt),
        Status::Usage => refuse_shortly(out, Status::Usage),
        Status::SourceRefused { folder, why } => {
            refuse_at_length(alloc, out, Status::SourceRefused { folder, why })
        }
        Status::Unknown(word) => refuse_at_length(alloc, out, Status::Unknown(word)),
        Status::FolderFault(after) => report(out, Status::FolderFault(after)),
        Status::SourceFault => refuse_shortly(out, Status::SourceFault),
        Status::SinkFault { committed } => Status::SinkFault { committed },
        Status::Limit { what, most } => {
            refuse_at_length(alloc, out, Status::Limit { what, most })
        }
        Status::NoMemory(after) => report(out, Status::NoMemory(after)),
    }
}

/// A refusal that has no short line.
fn refuse_at_length<K: Sink>(alloc: Global, out: &mut K, status: Status) -> Status
    requires printable { CanPrint status }
    requires long { short_line_of status ≡ [] }
    ensures ends { EndsWithMemory status result (Rose (K.faults out.old) (K.faults out.new)) }
    ensures prints { Step (K.told out.old) (K.told out.new) (Adds (WritesWithMemory (Rose (K.faults out.old) (K.faults out.new)) status result)) }
    ensures later { K.faults out.old ≤ K.faults out.new }
{
    match lines(alloc, &status) {
        Ok(lines) => match write_all(out, lines.items()) {
            Ok(()) => status,
            Err(_) => Status::SinkFault { committed: None },
        },
        Err(_) => report(out, Status::NoMemory(After::Unchanged)),
    }
}

/// A refusal that has a short line alone.
fn refuse_shortly<K: Sink>(out: &mut K, status: Status) -> Status
    requires { lines_of status ≡ [] }
    ensures ends { EndsOrFails status result (Rose (K.faults out.old) (K.faults out.new)) }
    ensures prints { Step (K.told out.old) (K.told out.new) (Adds (WritesOrFails status result)) }
    ensures later { K.faults out.old ≤ K.faults out.new }
{
    match write_all(out, short_line(&status)) {
        Ok(()) => status,
        Err(_) => Status::SinkFault { committed: None },
    }
}

/// A status that stays, whether its line is written or not.
fn report<K: Sink>(out: &mut K, status: Status) -> Status
    ensures stays { result ≡ status }
    ensures prints { Step (K.told out.old) (K.told out.new) (Adds (IsFaultPrinted (Rose (K.faults out.old) (K.faults out.new)) status)) }
    ensures later { K.faults out.old ≤ K.faults out.new }
{
    let _ = write_all(out, short_line(&status));
    status
}
