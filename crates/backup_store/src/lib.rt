//! Entries of a journal: what stood at a path before it was changed, kept in a folder so that it can be put back. An entry
//! counts once its mark is there, which is written after the entry has been synced.
#![tactic(auto)]

mod entry;
mod fault;
mod filing;
mod keeping;
mod keeping_all;
mod lines;
mod looking;
mod places;
mod putting_back;
mod reading;
mod settling;
mod turns;
mod writing;

pub use entry::{Entry, EntryNumber};
pub use fault::StoreFault;
pub use keeping::keep;
pub use keeping_all::keep_all;
pub use looking::{counts, read_kept};
pub use places::entry_path;
pub use putting_back::put_back;
pub use reading::read_entry;
pub use writing::write_entry;
