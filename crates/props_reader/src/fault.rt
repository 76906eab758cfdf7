ghost use Rattle.std.specs.Prelude.{◌≡◌};
ghost use Rattle.props_reader.specs.declared.fault.PropsFault.TheVariants as faults;

use osgi_version::NoMemory;
use std::alloc::{AllocError, AllocFailed};
use thiserror::Error;

/// Why a properties text is refused.
#[derive(Clone, Copy, Debug, PartialEq, Eq, Error)]
pub enum PropsFault {
    /// The natural line, from 1, of the first `\u` that is malformed or stands for a lone surrogate.
    #[error("a bad escape in line {line}")]
    BadEscape { line: u64 },
    #[error("out of memory")]
    NoMemory,
}

impl From<AllocError> for PropsFault {
    ghost from_gives = { λ _ fault. fault ≡ faults.NoMemory };

    fn from(_error: AllocError) -> PropsFault {
        PropsFault::NoMemory
    }
}

impl<T: Drop> From<AllocFailed<T>> for PropsFault {
    ghost from_gives = { λ _ fault. fault ≡ faults.NoMemory };

    fn from(_error: AllocFailed<T>) -> PropsFault {
        PropsFault::NoMemory
    }
}

impl From<NoMemory> for PropsFault {
    ghost from_gives = { λ _ fault. fault ≡ faults.NoMemory };

    fn from(_error: NoMemory) -> PropsFault {
        PropsFault::NoMemory
    }
}
