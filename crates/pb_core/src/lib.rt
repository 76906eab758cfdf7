//! Pseudo-Boolean constraints: sums of coefficients of literals that reach a degree.
#![tactic(auto)]

mod assignment;
mod constraint;
mod kept;
pub mod laws;
mod literal;
mod normal_form;
mod occurrences;
mod rows;
mod slacks;
mod steps;

pub use assignment::Assignment;
pub use constraint::{Constraint, Origin, Problem};
pub use kept::Kept;
pub use literal::{Lit, SignedTerm, Term};
pub use normal_form::normalise;
pub use occurrences::Occurrence;
pub use slacks::slack;
pub use steps::Steps;
