//! What the parts of a unit are called.

/// A part that a unit has once.
#[derive(Clone, Copy, Debug, PartialEq, Eq)]
pub enum Single {
    Id,
    Version,
    Singleton,
    Filter,
    UpdateId,
    UpdateRange,
    UpdateSeverity,
    UpdateDescription,
    TouchpointId,
    TouchpointVersion,
}

/// A field of a property.
#[derive(Clone, Copy, Debug, PartialEq, Eq)]
pub enum PropertyField {
    Name,
    Value,
}

/// A field of a provided capability.
#[derive(Clone, Copy, Debug, PartialEq, Eq)]
pub enum ProvidedField {
    Namespace,
    Name,
    Version,
}

/// A field of a requirement.
#[derive(Clone, Copy, Debug, PartialEq, Eq)]
pub enum RequiredField {
    Namespace,
    Name,
    Range,
    Greedy,
    Optional,
    Multiple,
    Filter,
    Min,
    Max,
}

/// A field of an artifact.
#[derive(Clone, Copy, Debug, PartialEq, Eq)]
pub enum ArtifactField {
    Classifier,
    Id,
    Version,
}

/// A phase of the engine, in the order in which the engine goes through them.
#[derive(Clone, Copy, Debug, PartialEq, Eq)]
pub enum Phase {
    Collect,
    Unconfigure,
    Uninstall,
    Install,
    Configure,
}

/// One of the two texts of a phase.
#[derive(Clone, Copy, Debug, PartialEq, Eq)]
pub enum PhaseField {
    Text,
    Import,
}
