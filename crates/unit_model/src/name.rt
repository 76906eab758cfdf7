use osgi_version::{NoMemory, Text, Twin, Version};

/// What names a unit: no two units of a catalog have one name.
#[derive(Debug, PartialEq, Eq, Drop)]
pub struct UnitName {
    pub id: Text,
    pub version: Version,
}

impl Twin for UnitName {
    fn copy(&self) -> Result<UnitName, NoMemory> {
        Ok(UnitName {
            id: self.id.copy()?,
            version: self.version.copy()?,
        })
    }
}
