ghost use Rattle.std.specs.Prelude.{◌≡◌};
ghost use Rattle.inf_reader.specs.declared.fault.InfRefusal.TheVariants as refusals;

use osgi_version::{NoMemory, Text};
use std::alloc::{AllocError, AllocFailed};
use thiserror::Error;
use unit_model::UnitName;

/// Why a p2.inf is refused.
#[derive(Debug, PartialEq, Eq, Drop, Error)]
pub enum InfRefusal {
    /// A key that the format doesn't have.
    #[error("an unknown key")]
    UnknownKey(Text),
    /// A key of the format that isn't taken.
    #[error("a key that is left out")]
    LeftOutKey(Text),
    /// A key or a value that speaks of the host, where the folder's name gives none.
    #[error("a key that needs a host")]
    NoHost(Text),
    /// The unit of this number has no id or no version.
    #[error("unit {0} lacks its id or its version")]
    MissingId(u32),
    /// The key of a needed part that is missing, or of a part that isn't in its form.
    #[error("a bad value")]
    BadValue(Text),
    /// The name of a unit that an earlier unit has.
    #[error("a unit that stands twice")]
    Duplicate(UnitName),
    /// A unit of more than 1,024 requirements.
    #[error("too many requirements")]
    TooManyRequirements(UnitName),
    #[error("out of memory")]
    NoMemory,
}

impl From<AllocError> for InfRefusal {
    ghost from_gives = { λ _ refusal. refusal ≡ refusals.NoMemory };

    fn from(_error: AllocError) -> InfRefusal {
        InfRefusal::NoMemory
    }
}

impl<T: Drop> From<AllocFailed<T>> for InfRefusal {
    ghost from_gives = { λ _ refusal. refusal ≡ refusals.NoMemory };

    fn from(_error: AllocFailed<T>) -> InfRefusal {
        InfRefusal::NoMemory
    }
}

impl From<NoMemory> for InfRefusal {
    ghost from_gives = { λ _ refusal. refusal ≡ refusals.NoMemory };

    fn from(_error: NoMemory) -> InfRefusal {
        InfRefusal::NoMemory
    }
}
