ghost use Rattle.std.specs.Prelude.{◌≡◌};
ghost use Rattle.pb_rows.specs.declared.fault.EncodeFault.TheVariants as faults;

use osgi_version::NoMemory;
use std::alloc::{AllocError, AllocFailed};
use thiserror::Error;

/// Why there is no problem.
#[derive(Clone, Copy, Debug, PartialEq, Eq, Error)]
pub enum EncodeFault {
    /// It has over 4,000,000 terms.
    #[error("too many terms in the problem")]
    TooLarge,
    #[error("out of memory")]
    NoMemory,
}

impl From<NoMemory> for EncodeFault {
    ghost from_gives = { λ _ fault. fault ≡ faults.NoMemory };

    fn from(_error: NoMemory) -> EncodeFault {
        EncodeFault::NoMemory
    }
}

impl From<AllocError> for EncodeFault {
    ghost from_gives = { λ _ fault. fault ≡ faults.NoMemory };

    fn from(_error: AllocError) -> EncodeFault {
        EncodeFault::NoMemory
    }
}

impl<T: Drop> From<AllocFailed<T>> for EncodeFault {
    ghost from_gives = { λ _ fault. fault ≡ faults.NoMemory };

    fn from(_error: AllocFailed<T>) -> EncodeFault {
        EncodeFault::NoMemory
    }
}
