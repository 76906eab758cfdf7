//! Reads the keys of a p2.inf, the advice of Equinox p2, once into what they mean.
#![tactic(auto)]

mod cut;
mod fields;
mod key;
mod laws;
mod names;
mod number;
mod order;
mod parts;
mod read;
mod reading;
mod words;
mod write;

pub use fields::{
    ArtifactField, Phase, PhaseField, PropertyField, ProvidedField, RequiredField, Single,
};
pub use key::{Key, Owner, Part};
pub use laws::{keys_stand_together, one_meaning};
pub use read::read_key;
pub use reading::Reading;
pub use write::write_key;
