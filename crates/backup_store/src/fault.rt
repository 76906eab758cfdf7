ghost use Rattle.std.specs.Prelude.{◌≡◌};
ghost use Rattle.folder_core.specs.declared.fault.FolderError.TheVariants as folder_error;
ghost use Rattle.backup_store.specs.declared.fault.StoreFault.TheVariants as store_fault;

use folder_core::{Failed, FolderError, Path};
use osgi_version::NoMemory;
use thiserror::Error;

/// Why an entry wasn't kept or put back.
#[derive(Debug, PartialEq, Eq, Drop, Error)]
pub enum StoreFault {
    #[error("the folder failed")]
    Failed,
    /// The file at this path is no entry that can be put back.
    #[error("an entry is damaged")]
    Damaged { path: Path },
    #[error("out of memory")]
    NoMemory,
}

impl From<Failed> for StoreFault {
    ghost from_gives = { λ _ e. e ≡ store_fault.Failed };

    fn from(_error: Failed) -> StoreFault {
        StoreFault::Failed
    }
}

impl From<NoMemory> for StoreFault {
    ghost from_gives = { λ _ e. e ≡ store_fault.NoMemory };

    fn from(_error: NoMemory) -> StoreFault {
        StoreFault::NoMemory
    }
}

impl From<FolderError> for StoreFault {
    ghost from_gives = { λ before e. (before ≡ folder_error.Failed → e ≡ store_fault.Failed) × (before ≡ folder_error.NoMemory → e ≡ store_fault.NoMemory) };

    fn from(error: FolderError) -> StoreFault {
        match error {
            FolderError::Failed => StoreFault::Failed,
            FolderError::NoMemory => StoreFault::NoMemory,
        }
    }
}
