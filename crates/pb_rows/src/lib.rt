//! The rows of constraints that say which members may be selected together, and their normal forms.
#![tactic(auto)]

mod constraints;
mod fault;
mod label;
pub mod laws;
mod makers;

pub use constraints::Constraints;
pub use fault::EncodeFault;
pub use label::label_of;
pub use makers::{add_apart, add_most, add_need, add_root, signed};
