//! Versioned units: what a description names, provides, requires and replaces.
#![tactic(auto)]

mod artifact;
mod id;
mod judgement;
mod matching;
mod name;
mod note;
mod option;
mod phase;
mod profile;
mod property;
mod provided;
mod required;
mod touchpoint;
mod unit;
mod update;

pub use artifact::ArtifactKey;
pub use id::is_unit_id;
pub use judgement::Judgement;
pub use matching::{applies, matches};
pub use name::UnitName;
pub use note::Note;
pub use phase::{Phase, PhaseText};
pub use profile::is_profile;
pub use property::Property;
pub use provided::Provided;
pub use required::Required;
pub use touchpoint::Touchpoint;
pub use unit::Unit;
pub use update::Update;
