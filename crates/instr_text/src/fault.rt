ghost use Rattle.std.specs.Prelude.{◌≡◌};
ghost use Rattle.instr_text.specs.declared.fault.InstrRefusal.TheVariants as refusals;

use osgi_version::{NoMemory, Text};
use std::alloc::{AllocError, AllocFailed};
use thiserror::Error;

/// Why an instruction's text is refused.
#[derive(Debug, PartialEq, Eq, Drop, Error)]
pub enum InstrRefusal {
    /// A piece, the text between two `;`, that isn't of the form `NAME(KEY:VALUE,..)`. It begins behind `at` bytes.
    #[error("not of the form NAME(KEY:VALUE,..) from byte {at} on")]
    BadSyntax { at: u64 },
    /// The name of an action that there isn't.
    #[error("an unknown action")]
    UnknownAction(Text),
    /// The name of an action that isn't taken.
    #[error("an action that is left out")]
    LeftOutAction(Text),
    /// A parameter that the action needs and that isn't given.
    #[error("a parameter is missing")]
    MissingParam(Text),
    /// The key of a parameter that the action doesn't take.
    #[error("an unknown parameter")]
    UnknownParam(Text),
    /// The key of a parameter that is given already.
    #[error("a parameter that is given twice")]
    RepeatedParam(Text),
    /// The key of a parameter whose value isn't in its form.
    #[error("a bad value")]
    BadParam(Text),
    /// What stands between `${` and its `}`, or behind it up to the value's end.
    #[error("an unknown variable")]
    UnknownVariable(Text),
    /// The key of a parameter whose value leads out of the folder.
    #[error("a path outside the folder")]
    OutsideFolder(Text),
    /// The key of a parameter whose value has no names, too many, or one that is no name.
    #[error("a bad path")]
    BadPath(Text),
    #[error("out of memory")]
    NoMemory,
}

impl From<AllocError> for InstrRefusal {
    ghost from_gives = { λ _ refusal. refusal ≡ refusals.NoMemory };

    fn from(_error: AllocError) -> InstrRefusal {
        InstrRefusal::NoMemory
    }
}

impl<T: Drop> From<AllocFailed<T>> for InstrRefusal {
    ghost from_gives = { λ _ refusal. refusal ≡ refusals.NoMemory };

    fn from(_error: AllocFailed<T>) -> InstrRefusal {
        InstrRefusal::NoMemory
    }
}

impl From<NoMemory> for InstrRefusal {
    ghost from_gives = { λ _ refusal. refusal ≡ refusals.NoMemory };

    fn from(_error: NoMemory) -> InstrRefusal {
        InstrRefusal::NoMemory
    }
}
