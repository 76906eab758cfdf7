//! The actions of the native touchpoint: one file for each kind.
#![tactic(auto)]

mod chmod;
mod cleanupcopy;
mod codes;
mod copy;
mod link;
mod mkdir;
mod remove;
mod rmdir;
mod steps;

pub use chmod::{ChMod, ChModRow};
pub use cleanupcopy::{CleanUpCopy, CleanUpCopyRow};
pub use copy::{Copy, CopyRow};
pub use link::{Link, LinkRow};
pub use mkdir::{MkDir, MkDirRow};
pub use remove::{Remove, RemoveRow};
pub use rmdir::{RmDir, RmDirRow};
