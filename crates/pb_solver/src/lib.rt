//! A solver for pseudo-Boolean problems that learns a clause from each conflict: an assignment that satisfies the
//! problem, a derivation that refutes it, or as many learned clauses as were allowed.
#![tactic(auto)]

mod agenda;
mod answer;
mod levels;
mod pace;
mod ranking;
mod search;
mod solver;
mod stepping;

pub use answer::Answer;
pub use solver::solve;
