//! A caller of the journal as the layers above it are: over any folder, and proved from what the calls of a change promise
//! alone.
#![tactic(auto)]

mod caller;

pub use caller::{Outcome, set_in_turn};

#[cfg(test)]
mod tests;
