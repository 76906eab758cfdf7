use osgi_version::{NoMemory, Text, Twin};

/// A phase of the engine.
#[derive(Clone, Copy, Debug, PartialEq, Eq)]
pub enum Phase {
    Collect,
    Unconfigure,
    Uninstall,
    Install,
    Configure,
}

impl Twin for Phase {
    fn copy(&self) -> Result<Phase, NoMemory> {
        Ok(*self)
    }
}

/// The text of a unit's instructions for one phase, and the names of the actions that it imports.
#[derive(Debug, PartialEq, Eq, Drop)]
pub struct PhaseText {
    pub phase: Phase,
    pub imports: Text,
    pub text: Text,
}

impl Twin for PhaseText {
    fn copy(&self) -> Result<PhaseText, NoMemory> {
        Ok(PhaseText {
            phase: self.phase,
            imports: self.imports.copy()?,
            text: self.text.copy()?,
        })
    }
}
