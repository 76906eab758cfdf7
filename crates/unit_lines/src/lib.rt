//! The lines of a unit's canonical text: a word, and fields that say one part of the unit.
#![tactic(auto)]

mod canonical;
mod fields;
mod laws;
mod part;
mod phases;
mod reading;
mod rows;
mod words;
mod writing;

pub use laws::one_part;
pub use part::Part;
pub use reading::read_part;
pub use writing::{
    push_artifact, push_end, push_filter, push_name, push_phase, push_property, push_provided,
    push_required, push_singleton, push_touchpoint, push_update,
};
