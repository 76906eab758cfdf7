use ldap_filter::Filter;
use unit_model::{
    ArtifactKey, PhaseText, Property, Provided, Required, Touchpoint, UnitName, Update,
};

/// What one line of a unit's text says.
#[derive(Drop)]
pub enum Part {
    Name(UnitName),
    Singleton,
    Filter(Filter),
    Update(Update),
    Touchpoint(Touchpoint),
    Property(Property),
    Provided(Provided),
    Required(Required),
    Artifact(ArtifactKey),
    Phase(PhaseText),
    /// Behind the last part.
    End,
}
