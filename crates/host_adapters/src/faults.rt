ghost use Rattle.std.specs.Prelude.{◌≡◌, ◌≤◌, ◌↔◌, IsErrOf};
ghost use Rattle.std.specs.IoError.{error_kind};
ghost use Rattle.std.specs.declared.io.ErrorKind.TheVariants as ErrorKind;
ghost use Rattle.folder_core.specs.Cause.{HasCause, Rose};
ghost use Rattle.host_adapters.specs.HostFault.{folder_error_of, tree_error_of};
ghost use Rattle.host_adapters.specs.declared.faults.HostFault.TheVariants as host_fault;

use folder_core::{Failed, FolderError, TreeError};
use osgi_version::NoMemory;
use std::alloc::{AllocError, AllocFailed};
use std::io;
use std::io::ErrorKind;
use std::marker::Model;

/// Why the host gave no answer.
#[derive(Clone, Copy, Debug, PartialEq, Eq)]
pub enum HostFault {
    Failed,
    NoMemory,
}

/// How often the host has failed. A count at its last value stays there.
#[derive(Debug, Drop)]
pub struct Faults {
    count: u64,
}

impl Model for Faults {
    ghost use Rattle.std.specs.Prelude.{ℕ};

    ghost Value = { ℕ };

    ghost view = { λ a. a.count };
}

impl Faults {
    pub fn new() -> Faults
        ensures { result ≡ 0 }
    {
        Faults { count: 0 }
    }

    /// Counts one more fault.
    pub fn failed(&mut self) -> Failed
        ensures later { self.old ≤ self.new }
        ensures rose { Rose self.old self.new }
    {
        self.count = self.count.saturating_add(1);
        Failed
    }

    /// Hands an outcome on, and counts it where the host failed.
    pub fn counted<T>(&mut self, outcome: Result<T, HostFault>) -> Result<T, HostFault>
        ensures same { result ≡ outcome }
        ensures cause { HasCause self.old self.new (IsErrOf outcome HostFault.Failed) }
    {
        if let Err(HostFault::Failed) = &outcome {
            let _ = self.failed();
        }
        outcome
    }
}

impl From<io::Error> for HostFault {
    ghost from_gives = { λ error e. (e ≡ host_fault.NoMemory) ↔ (error_kind error ≡ ErrorKind.OutOfMemory) };

    fn from(error: io::Error) -> HostFault {
        match error.kind() {
            ErrorKind::OutOfMemory => HostFault::NoMemory,
            _ => HostFault::Failed,
        }
    }
}

impl From<Failed> for HostFault {
    ghost from_gives = { λ _ e. e ≡ host_fault.Failed };

    fn from(_error: Failed) -> HostFault {
        HostFault::Failed
    }
}

impl From<NoMemory> for HostFault {
    ghost from_gives = { λ _ e. e ≡ host_fault.NoMemory };

    fn from(_error: NoMemory) -> HostFault {
        HostFault::NoMemory
    }
}

impl From<AllocError> for HostFault {
    ghost from_gives = { λ _ e. e ≡ host_fault.NoMemory };

    fn from(_error: AllocError) -> HostFault {
        HostFault::NoMemory
    }
}

impl<T: Drop> From<AllocFailed<T>> for HostFault {
    ghost from_gives = { λ _ e. e ≡ host_fault.NoMemory };

    fn from(_error: AllocFailed<T>) -> HostFault {
        HostFault::NoMemory
    }
}

impl From<HostFault> for FolderError {
    ghost from_gives = { λ fault e. e ≡ folder_error_of fault };

    fn from(fault: HostFault) -> FolderError {
        match fault {
            HostFault::Failed => FolderError::Failed,
            HostFault::NoMemory => FolderError::NoMemory,
        }
    }
}

impl From<HostFault> for TreeError {
    ghost from_gives = { λ fault e. e ≡ tree_error_of fault };

    fn from(fault: HostFault) -> TreeError {
        match fault {
            HostFault::Failed => TreeError::Failed,
            HostFault::NoMemory => TreeError::NoMemory,
        }
    }
}
