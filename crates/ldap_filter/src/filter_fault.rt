ghost use Rattle.std.specs.Prelude.{◌≡◌};
ghost use Rattle.ldap_filter.specs.declared.filter_fault.FilterFault.TheVariants as faults;

use osgi_version::NoMemory;
use std::alloc::AllocFailed;
use thiserror::Error;

/// Why a text is no filter.
#[derive(Clone, Copy, Debug, PartialEq, Eq, Error)]
pub enum FilterFault {
    /// The longest front of the text that some filter's text begins with has `at` bytes.
    #[error("no filter from byte {at} on")]
    Bad { at: u64 },
    #[error("out of memory")]
    NoMemory,
}

impl From<NoMemory> for FilterFault {
    ghost from_gives = { λ _ fault. fault ≡ faults.NoMemory };

    fn from(_error: NoMemory) -> FilterFault {
        FilterFault::NoMemory
    }
}

impl<T: Drop> From<AllocFailed<T>> for FilterFault {
    ghost from_gives = { λ _ fault. fault ≡ faults.NoMemory };

    fn from(_error: AllocFailed<T>) -> FilterFault {
        FilterFault::NoMemory
    }
}
