//! Unit propagation over pseudo-Boolean constraints, along a trail of literals that can be taken back.
#![tactic(auto)]

mod propagation;
mod trail;

pub use trail::{Entry, Trail};
