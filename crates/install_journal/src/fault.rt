use crate::change::Change;
use folder_core::{After, Path};

/// Why a call of the journal gave up, and what it left.
#[derive(Debug, PartialEq, Eq, Drop)]
pub enum JournalFault {
    Failed(After),
    /// What stands at this path is nothing that the journal left.
    Damaged { path: Path },
    NoMemory(After),
}

/// Why a touch was refused.
#[derive(Clone, Copy, Debug, PartialEq, Eq)]
pub enum TouchFault {
    Failed,
    /// A million entries are kept.
    TooManyEntries,
    NoMemory,
}

/// Why a change wasn't finished. It is handed back where its gate is still open.
#[derive(Debug)]
pub enum FinishFault {
    /// The folder failed before the gate was touched.
    Before(Change),
    NoMemory(Change),
    /// The folder failed when the gate was closed or after it, so that a recovery gives the old or the new installation.
    Closing,
}
