use crate::name::UnitName;
use osgi_version::{List, NoMemory, Text, Twin};

/// What one action of a unit left behind: from which source to which target, and the paths that it made.
#[derive(Debug, PartialEq, Eq, Drop)]
pub struct Note {
    pub unit: UnitName,
    pub source: Text,
    pub target: Text,
    pub paths: List<Text>,
}

impl Twin for Note {
    fn copy(&self) -> Result<Note, NoMemory> {
        Ok(Note {
            unit: self.unit.copy()?,
            source: self.source.copy()?,
            target: self.target.copy()?,
            paths: self.paths.copy()?,
        })
    }
}
