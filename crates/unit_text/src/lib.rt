//! A unit's canonical text: one for each unit that has one.
#![tactic(auto)]

mod draft;
mod fault;
mod laws;
mod taking;
mod writing;

pub use fault::BadLines;
pub use laws::{one_text, one_unit};
pub use taking::{TakenUnit, take_unit};
pub use writing::{push_unit, write_unit};
