//! Reads p2.inf, the advice of Equinox p2: the units that the pairs of its properties text describe.
#![tactic(auto)]

mod entries;
mod fault;
mod fields;
mod rows;
mod table;
mod unit_parts;
mod units;

pub use fault::InfRefusal;
pub use inf_values::NameSet;
pub use units::units_of;
