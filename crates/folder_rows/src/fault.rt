use osgi_version::NoMemory;
use thiserror::Error;

/// Why a row wasn't read.
#[derive(Clone, Copy, Debug, PartialEq, Eq, Error)]
pub enum RowFault {
    #[error("not spelled so")]
    Spelling,
    #[error("out of memory")]
    NoMemory,
}

impl From<NoMemory> for RowFault {
    fn from(_error: NoMemory) -> RowFault {
        RowFault::NoMemory
    }
}
