ghost use Rattle.std.specs.Prelude.{◌≡◌};
ghost use Rattle.unit_catalog.specs.declared.fault.CatalogFault.TheVariants as faults;

use osgi_version::NoMemory;
use std::alloc::AllocError;
use thiserror::Error;

/// Why a catalog doesn't take a unit.
#[derive(Clone, Copy, Debug, PartialEq, Eq, Error)]
pub enum CatalogFault {
    /// 65,536 units are there, and none has the name.
    #[error("the catalog is full")]
    Full,
    #[error("out of memory")]
    NoMemory,
}

impl From<NoMemory> for CatalogFault {
    ghost from_gives = { λ _ fault. fault ≡ faults.NoMemory };

    fn from(_error: NoMemory) -> CatalogFault {
        CatalogFault::NoMemory
    }
}
