//! The units that a source describes, folder by folder, the first of a name winning.
#![tactic(auto)]

mod describing;
mod gathering;
mod places;
mod source;

pub use places::path_of;
pub use source::read_source;
