use osgi_version::{NoMemory, Text, Twin, Version};

/// Which kind of installation a unit's instructions are for.
#[derive(Debug, PartialEq, Eq, Drop)]
pub struct Touchpoint {
    pub id: Text,
    pub version: Version,
}

impl Twin for Touchpoint {
    fn copy(&self) -> Result<Touchpoint, NoMemory> {
        Ok(Touchpoint {
            id: self.id.copy()?,
            version: self.version.copy()?,
        })
    }
}
