use osgi_version::{NoMemory, Text, Twin, Version};

/// What names an artifact.
#[derive(Debug, PartialEq, Eq, Drop)]
pub struct ArtifactKey {
    pub classifier: Text,
    pub id: Text,
    pub version: Version,
}

impl Twin for ArtifactKey {
    fn copy(&self) -> Result<ArtifactKey, NoMemory> {
        Ok(ArtifactKey {
            classifier: self.classifier.copy()?,
            id: self.id.copy()?,
            version: self.version.copy()?,
        })
    }
}
