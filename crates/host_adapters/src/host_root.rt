use crate::faults::HostFault;
use crate::host_lock::{Lockable, lock};
use crate::host_place::find_root;
use crate::host_write::{changed, make_root};
use folder_core::Failed;
use std::fs::{Files, read_dir};

/// The root of a folder of the host, which one process at a time has. It is locked where it is first found or made, and
/// stays so while this value lives.
#[derive(Drop)]
pub struct HostRoot<R, F> {
    pub runtime: R,
    pub text: String,
    hold: Hold<F>,
}

#[derive(Drop)]
enum Hold<F> {
    /// The root wasn't looked for.
    Unseen,
    /// Nothing stood there, and what was read is an empty directory.
    Missing,
    /// The open file that has the lock.
    Locked(F),
}

impl<R, F> HostRoot<R, F> {
    pub fn new(runtime: R, text: String) -> HostRoot<R, F> {
        HostRoot {
            runtime,
            text,
            hold: Hold::Unseen,
        }
    }
}

impl<R: Files<File = F> + AllocGlobal + Clone + Drop, F: Lockable + Drop> HostRoot<R, F> {
    /// Whether the root is there, which is locked from then on. A lock that another process has is a fault, and so is a
    /// root that wasn't there before and that this value didn't make: what another process put there was never read.
    pub fn take(&mut self) -> Result<bool, HostFault> {
        if let Hold::Locked(_) = &self.hold {
            return Ok(true);
        }
        if find_root(&self.runtime, self.text.as_str())?.is_none() {
            self.hold = Hold::Missing;
            return Ok(false);
        }
        if let Hold::Missing = &self.hold {
            return Err(HostFault::Failed);
        }
        self.hold = Hold::Locked(lock(&self.runtime, self.text.as_str())?);
        Ok(true)
    }

    /// Makes a root that isn't there, and locks it. What another process put there in the meantime is a fault, and each
    /// later call is one then.
    pub fn make(&mut self) -> Result<(), Failed> {
        make_root(&self.runtime, self.text.as_str())?;
        let file = changed(lock(&self.runtime, self.text.as_str()))?;
        if !changed(is_empty(&self.runtime, self.text.as_str()))? {
            return Err(Failed);
        }
        self.hold = Hold::Locked(file);
        Ok(())
    }
}

fn is_empty<R: Files + AllocGlobal + Clone + Drop>(
    files: &R,
    directory: &str,
) -> Result<bool, HostFault> {
    Ok(read_dir(files, directory)?.next().is_none())
}
