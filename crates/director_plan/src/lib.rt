//! What an install's roots come to: the units to be installed, or what is printed where there is no plan.
#![tactic(auto)]

mod causes;
mod evidence_lines;
pub mod laws;

pub use evidence_lines::{budget_spent_lines, unsatisfiable_lines};
