ghost use Rattle.std.specs.Prelude.{◌≡◌};
ghost use Rattle.ldap_filter.specs.declared.env_fault.EnvFault.TheVariants as faults;

use osgi_version::NoMemory;
use std::alloc::{AllocError, AllocFailed};
use thiserror::Error;

/// Why a key isn't set.
#[derive(Clone, Copy, Debug, PartialEq, Eq, Error)]
pub enum EnvFault {
    /// The key isn't 1 to 200 printable ASCII bytes without blank and `=`.
    #[error("no key of an environment")]
    BadKey,
    #[error("out of memory")]
    NoMemory,
}

impl From<NoMemory> for EnvFault {
    ghost from_gives = { λ _ fault. fault ≡ faults.NoMemory };

    fn from(_error: NoMemory) -> EnvFault {
        EnvFault::NoMemory
    }
}

impl From<AllocError> for EnvFault {
    ghost from_gives = { λ _ fault. fault ≡ faults.NoMemory };

    fn from(_error: AllocError) -> EnvFault {
        EnvFault::NoMemory
    }
}

impl<T: Drop> From<AllocFailed<T>> for EnvFault {
    ghost from_gives = { λ _ fault. fault ≡ faults.NoMemory };

    fn from(_error: AllocFailed<T>) -> EnvFault {
        EnvFault::NoMemory
    }
}
