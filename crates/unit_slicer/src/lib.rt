//! The units that a selection for some roots may be made of, and the part of a selection that its roots ask for.
#![tactic(auto)]

mod adding;
mod fault;
mod found;
mod name_order;
mod rooting;
mod searching;
mod slicing;
mod way;

pub use fault::SliceFault;
pub use rooting::rooted;
pub use slicing::slice;
