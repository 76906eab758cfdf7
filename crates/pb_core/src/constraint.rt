use crate::literal::Term;
use osgi_version::{List, NoMemory, Text, Twin};

/// Why a constraint stands in a problem.
#[derive(Debug, PartialEq, Eq, Drop)]
pub enum Origin {
    /// The unit with this label is asked for.
    Root(Text),
    /// A requirement row, from 1, of a variable's unit, which wants at least some of what matches it.
    Need { variable: u32, row: u32 },
    /// The same, which allows at most some of what matches it.
    Most { variable: u32, row: u32 },
    /// Of the units with this id only one can be selected.
    One(Text),
}

/// The coefficients of the true literals sum to at least the degree.
#[derive(Debug, PartialEq, Eq, Drop)]
pub struct Constraint {
    pub terms: List<Term>,
    pub degree: u64,
    pub origin: Origin,
}

/// Constraints over variables from 1, each of which has a label.
#[derive(Debug, PartialEq, Eq, Drop)]
pub struct Problem {
    pub labels: List<Text>,
    pub constraints: List<Constraint>,
}

impl Twin for Origin {
    fn copy(&self) -> Result<Origin, NoMemory> {
        match self {
            Origin::Root(label) => Ok(Origin::Root(label.copy()?)),
            Origin::Need { variable, row } => Ok(Origin::Need {
                variable: *variable,
                row: *row,
            }),
            Origin::Most { variable, row } => Ok(Origin::Most {
                variable: *variable,
                row: *row,
            }),
            Origin::One(id) => Ok(Origin::One(id.copy()?)),
        }
    }
}

impl Twin for Constraint {
    fn copy(&self) -> Result<Constraint, NoMemory> {
        Ok(Constraint {
            terms: self.terms.copy()?,
            degree: self.degree,
            origin: self.origin.copy()?,
        })
    }
}

impl Twin for Problem {
    fn copy(&self) -> Result<Problem, NoMemory> {
        Ok(Problem {
            labels: self.labels.copy()?,
            constraints: self.constraints.copy()?,
        })
    }
}
