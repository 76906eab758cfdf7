//! Clauses learned from conflicts: each is cut at the first unique implication point, and comes with hints that check.
#![tactic(auto)]

mod cut;
mod learning;

pub use learning::{Learned, learn, refute};
