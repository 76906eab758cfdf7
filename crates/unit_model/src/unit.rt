use crate::artifact::ArtifactKey;
use crate::name::UnitName;
use crate::option::copy_option;
use crate::phase::PhaseText;
use crate::property::Property;
use crate::provided::Provided;
use crate::required::Required;
use crate::touchpoint::Touchpoint;
use crate::update::Update;
use ldap_filter::Filter;
use osgi_version::{List, NoMemory, Twin};

/// A versioned unit.
#[derive(Debug, PartialEq, Eq, Drop)]
pub struct Unit {
    pub name: UnitName,
    /// Whether no other version of the unit may stand beside it.
    pub singleton: bool,
    /// Where this filter is false, the unit can't be installed.
    pub filter: Option<Filter>,
    pub update: Update,
    pub touchpoint: Option<Touchpoint>,
    pub properties: List<Property>,
    pub provided: List<Provided>,
    pub required: List<Required>,
    pub artifacts: List<ArtifactKey>,
    pub phases: List<PhaseText>,
}

impl Twin for Unit {
    fn copy(&self) -> Result<Unit, NoMemory> {
        Ok(Unit {
            name: self.name.copy()?,
            singleton: self.singleton,
            filter: copy_option(&self.filter)?,
            update: self.update.copy()?,
            touchpoint: copy_option(&self.touchpoint)?,
            properties: self.properties.copy()?,
            provided: self.provided.copy()?,
            required: self.required.copy()?,
            artifacts: self.artifacts.copy()?,
            phases: self.phases.copy()?,
        })
    }
}
