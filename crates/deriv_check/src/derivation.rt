ghost use Rattle.deriv_check.specs.declared.derivation.CheckFault.TheVariants as fault;
ghost use Rattle.std.specs.Prelude.{◌≡◌};

use osgi_version::{List, NoMemory, Twin};
use pb_core::{Lit, Problem};
use thiserror::Error;

/// A clause, with the numbers of the constraints and earlier lines that it follows from. The constraints of a problem
/// are numbered from 1, and the lines go on behind them.
#[derive(Debug, PartialEq, Eq, Drop)]
pub struct Line {
    pub clause: List<Lit>,
    pub hints: List<u32>,
}

/// Lines, each of which follows from the constraints of a problem and the lines before.
#[derive(Debug, PartialEq, Eq, Drop)]
pub struct Derivation {
    pub lines: List<Line>,
}

/// A problem with a derivation over it.
#[derive(Debug, PartialEq, Eq, Drop)]
pub struct Evidence {
    pub problem: Problem,
    pub derivation: Derivation,
}

/// What a derivation that checks shows.
#[derive(Clone, Copy, Debug, PartialEq, Eq)]
pub enum Verdict {
    /// No assignment satisfies the problem.
    Refutes,
    /// Each clause follows from the problem.
    Follows,
}

/// Why a line doesn't check.
#[derive(Clone, Copy, Debug, PartialEq, Eq)]
pub enum Why {
    /// No text of an evidence begins with the lines up to it. `read_evidence` alone answers this.
    Text,
    /// A literal's variable is none of the problem's, or stands twice.
    Literal,
    /// A hint isn't the number of a constraint or an earlier line.
    Hint,
    /// The hints end without a violated constraint.
    NoConflict,
}

/// Why a derivation doesn't check.
#[derive(Clone, Copy, Debug, PartialEq, Eq, Error)]
pub enum CheckFault {
    /// The first line, from 1, that doesn't check.
    #[error("line {line} does not check")]
    Bad { line: u64, why: Why },
    #[error("out of memory")]
    NoMemory,
}

impl From<NoMemory> for CheckFault {
    ghost from_gives = { λ _ e. e ≡ fault.NoMemory };

    fn from(_error: NoMemory) -> CheckFault {
        CheckFault::NoMemory
    }
}

impl Twin for Line {
    fn copy(&self) -> Result<Line, NoMemory> {
        Ok(Line {
            clause: self.clause.copy()?,
            hints: self.hints.copy()?,
        })
    }
}

impl Twin for Derivation {
    fn copy(&self) -> Result<Derivation, NoMemory> {
        Ok(Derivation {
            lines: self.lines.copy()?,
        })
    }
}

impl Twin for Evidence {
    fn copy(&self) -> Result<Evidence, NoMemory> {
        Ok(Evidence {
            problem: self.problem.copy()?,
            derivation: self.derivation.copy()?,
        })
    }
}

impl Twin for Verdict {
    fn copy(&self) -> Result<Verdict, NoMemory> {
        Ok(*self)
    }
}

impl Twin for Why {
    fn copy(&self) -> Result<Why, NoMemory> {
        Ok(*self)
    }
}

impl Twin for CheckFault {
    fn copy(&self) -> Result<CheckFault, NoMemory> {
        Ok(*self)
    }
}
