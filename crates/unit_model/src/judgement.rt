use crate::name::UnitName;
use osgi_version::{NoMemory, Twin};

/// Whether units are valid and rooted, or the first rule that they break.
#[derive(Debug, PartialEq, Eq, Drop)]
pub enum Judgement {
    Good,
    /// A root that is no member.
    Root(UnitName),
    /// A member whose filter is false.
    Applies(UnitName),
    /// A member with a requirement that isn't met, by its row from 1.
    Requirement { unit: UnitName, row: u32 },
    /// Two members of one id, of which one is a singleton.
    Singleton { first: UnitName, second: UnitName },
    /// A member that no chain of requirements leads to from a root.
    Unrooted(UnitName),
}

impl Twin for Judgement {
    fn copy(&self) -> Result<Judgement, NoMemory> {
        match self {
            Judgement::Good => Ok(Judgement::Good),
            Judgement::Root(unit) => Ok(Judgement::Root(unit.copy()?)),
            Judgement::Applies(unit) => Ok(Judgement::Applies(unit.copy()?)),
            Judgement::Requirement { unit, row } => Ok(Judgement::Requirement {
                unit: unit.copy()?,
                row: *row,
            }),
            Judgement::Singleton { first, second } => Ok(Judgement::Singleton {
                first: first.copy()?,
                second: second.copy()?,
            }),
            Judgement::Unrooted(unit) => Ok(Judgement::Unrooted(unit.copy()?)),
        }
    }
}
