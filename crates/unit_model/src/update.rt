use osgi_version::{NoMemory, Range, Text, Twin};

/// Which units a unit replaces, and how urgently.
#[derive(Debug, PartialEq, Eq, Drop)]
pub struct Update {
    pub id: Text,
    pub range: Range,
    pub severity: u32,
    pub description: Text,
}

impl Twin for Update {
    fn copy(&self) -> Result<Update, NoMemory> {
        Ok(Update {
            id: self.id.copy()?,
            range: self.range.copy()?,
            severity: self.severity,
            description: self.description.copy()?,
        })
    }
}
