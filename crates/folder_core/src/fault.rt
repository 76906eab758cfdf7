ghost use Rattle.std.specs.Prelude.{◌≡◌};
ghost use Rattle.folder_core.specs.declared.fault.FolderError.TheVariants as folder_error;
ghost use Rattle.folder_core.specs.declared.fault.TreeError.TheVariants as tree_error;

use osgi_version::NoMemory;
use thiserror::Error;

/// The outside failed.
#[derive(Clone, Copy, Debug, PartialEq, Eq, Error)]
#[error("the outside failed")]
pub struct Failed;

/// Why a call of a folder gave up.
#[derive(Clone, Copy, Debug, PartialEq, Eq, Error)]
pub enum FolderError {
    #[error("the folder failed")]
    Failed,
    #[error("out of memory")]
    NoMemory,
}

/// Why a call of a tree gave up.
#[derive(Clone, Copy, Debug, PartialEq, Eq, Error)]
pub enum TreeError {
    #[error("the tree failed")]
    Failed,
    /// The file is longer than the limit.
    #[error("the file is too large")]
    TooLarge,
    #[error("out of memory")]
    NoMemory,
}

impl From<Failed> for FolderError {
    ghost from_gives = { λ _ e. e ≡ folder_error.Failed };

    fn from(_error: Failed) -> FolderError {
        FolderError::Failed
    }
}

impl From<NoMemory> for FolderError {
    ghost from_gives = { λ _ e. e ≡ folder_error.NoMemory };

    fn from(_error: NoMemory) -> FolderError {
        FolderError::NoMemory
    }
}

impl From<NoMemory> for TreeError {
    ghost from_gives = { λ _ e. e ≡ tree_error.NoMemory };

    fn from(_error: NoMemory) -> TreeError {
        TreeError::NoMemory
    }
}
