use osgi_version::{NoMemory, Text, Twin, Version};

/// A capability that a unit provides.
#[derive(Debug, PartialEq, Eq, Drop)]
pub struct Provided {
    pub namespace: Text,
    pub name: Text,
    pub version: Version,
}

impl Twin for Provided {
    fn copy(&self) -> Result<Provided, NoMemory> {
        Ok(Provided {
            namespace: self.namespace.copy()?,
            name: self.name.copy()?,
            version: self.version.copy()?,
        })
    }
}
