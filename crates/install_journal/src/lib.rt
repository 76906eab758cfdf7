//! The undo journal of a folder: a change that is finished or abandoned as a whole, whatever moment a crash comes.
#![tactic(auto)]

mod abandoning;
mod beginning;
mod change;
mod closing;
mod damage;
mod fault;
mod finishing;
mod fitting;
mod gate;
mod gathering;
mod opening;
mod places;
mod plan;
mod preparing;
mod reading;
mod recovering;
mod restoring;
mod touching;
mod touching_all;
mod undoing;

pub use change::{Change, Receipt};
pub use fault::{FinishFault, JournalFault, TouchFault};
pub use gate::{Gate, read_gate};
pub use recovering::{Recovered, recover};
