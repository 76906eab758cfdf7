//! What a key means.

use crate::fields::{
    ArtifactField, Phase, PhaseField, PropertyField, ProvidedField, RequiredField, Single,
};

/// Whose part a key names.
#[derive(Clone, Copy, Debug, PartialEq, Eq)]
pub enum Owner {
    /// The unit that the folder's name gives.
    Host,
    /// The unit of this number, at most 999,999.
    Unit(u32),
}

/// Which part a key names. The numbers of rows are at most 999,999.
#[derive(Clone, Copy, Debug, PartialEq, Eq)]
pub enum Part {
    Single(Single),
    Property(u32, PropertyField),
    Provided(u32, ProvidedField),
    Required(u32, RequiredField),
    Artifact(u32, ArtifactField),
    Instruction(Phase, PhaseField),
}

/// What a key with a meaning names. Keys of one owner stand together in the order of keys, and of these the rows of one
/// kind, and the fields of one row: first the single parts, then the rows of each kind by their numbers, then the phases
/// as the engine goes through them.
#[derive(Clone, Copy, Debug)]
pub struct Key {
    pub owner: Owner,
    pub part: Part,
}
