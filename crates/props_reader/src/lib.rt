//! Reads properties texts, the format of `java.util.Properties`: pairs of a key and a value.
#![tactic(auto)]

mod characters;
mod fault;
mod key;
mod lines;
mod logical;
mod pairs;
mod reader;
mod signs;

pub use fault::PropsFault;
pub use pairs::Pairs;
pub use reader::read;
