ghost use Rattle.std.specs.Prelude.{◌≡◌};
ghost use Rattle.unit_slicer.specs.declared.fault.SliceFault.TheVariants as faults;

use osgi_version::NoMemory;
use std::alloc::{AllocError, AllocFailed};
use thiserror::Error;

/// Why there is no slice.
#[derive(Clone, Copy, Debug, PartialEq, Eq, Error)]
pub enum SliceFault {
    /// It has over 8,192 units.
    #[error("too many units in the slice")]
    TooLarge,
    #[error("out of memory")]
    NoMemory,
}

impl From<NoMemory> for SliceFault {
    ghost from_gives = { λ _ fault. fault ≡ faults.NoMemory };

    fn from(_error: NoMemory) -> SliceFault {
        SliceFault::NoMemory
    }
}

impl From<AllocError> for SliceFault {
    ghost from_gives = { λ _ fault. fault ≡ faults.NoMemory };

    fn from(_error: AllocError) -> SliceFault {
        SliceFault::NoMemory
    }
}

impl<T: Drop> From<AllocFailed<T>> for SliceFault {
    ghost from_gives = { λ _ fault. fault ≡ faults.NoMemory };

    fn from(_error: AllocFailed<T>) -> SliceFault {
        SliceFault::NoMemory
    }
}
