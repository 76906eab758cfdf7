use crate::faults::HostFault;
use std::fs::{File, Files, TryLockError};
use std::io;

/// What an open file can lock, so that one process at a time has it. The host takes the lock away once the file is
/// closed, also where the process was killed.
pub trait Lockable {
    /// Takes the lock, without waiting. False where another holds it.
    fn try_hold(&self) -> io::Result<bool>;
}

impl Lockable for File {
    fn try_hold(&self) -> io::Result<bool> {
        match self.try_lock() {
            Ok(()) => Ok(true),
            Err(TryLockError::WouldBlock) => Ok(false),
            Err(TryLockError::Error(error)) => Err(error),
        }
    }
}

/// Opens a directory that is there and locks it. A lock that another process holds is a fault.
pub fn lock<R: Files<File = F>, F: Lockable>(files: &R, directory: &str) -> Result<F, HostFault> {
    let file = File::open(files, directory)?;
    if file.try_hold()? {
        Ok(file)
    } else {
        Err(HostFault::Failed)
    }
}
