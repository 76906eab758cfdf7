//! Whether units may stand installed together, or the first rule that they break.
#![tactic(auto)]

mod judging;
mod members;
mod needs;
mod reaching;
mod rooting;

pub use judging::judge;
pub use members::are_in_order;
