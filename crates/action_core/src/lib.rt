//! What a touchpoint's actions are to the engine: boxes that answer steps from a shape of the folder, and keep the tickets
//! of what was done for them.
#![tactic(auto)]

mod action;
mod fault;
mod looking;
mod placing;
mod row;
mod shape;
mod step;
mod table_action;
mod testing;
mod tickets;

pub use action::Action;
pub use fault::ActionFault;
pub use looking::{is_at_or_below, stands_under};
pub use placing::{flag_of, lengthened, mode_of};
pub use row::Row;
pub use shape::Shape;
pub use step::Step;
pub use table_action::TableAction;
