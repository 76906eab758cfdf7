//! Why a unit isn't read.

ghost use Rattle.std.specs.Prelude.{◌≡◌};
ghost use Rattle.unit_text.specs.declared.fault.BadLines.TheVariants as bad_lines;

use osgi_version::NoMemory;
use thiserror::Error;

/// Why lines don't begin with those of a unit.
#[derive(Clone, Copy, Debug, PartialEq, Eq, Error)]
pub enum BadLines {
    /// The first line, from 1, such that no unit's lines begin with the lines up to it.
    #[error("no unit has line {at}")]
    Line { at: u64 },
    /// Some unit's lines begin with these and go on.
    #[error("the unit isn't ended")]
    CutOff,
    #[error("out of memory")]
    NoMemory,
}

impl From<NoMemory> for BadLines {
    ghost from_gives = { λ _ fault. fault ≡ bad_lines.NoMemory };

    fn from(_error: NoMemory) -> BadLines {
        BadLines::NoMemory
    }
}
