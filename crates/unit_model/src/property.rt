use osgi_version::{NoMemory, Text, Twin};

/// A property of a unit.
#[derive(Debug, PartialEq, Eq, Drop)]
pub struct Property {
    pub name: Text,
    pub value: Text,
}

impl Twin for Property {
    fn copy(&self) -> Result<Property, NoMemory> {
        Ok(Property {
            name: self.name.copy()?,
            value: self.value.copy()?,
        })
    }
}
