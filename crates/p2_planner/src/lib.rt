//! The planner: which units of a catalog are to be installed for some roots, or the evidence that none can be.
#![tactic(auto)]

mod ask;
mod attempt;
mod choosing;
mod fault;
pub mod laws;
mod planned;
mod planning;
mod preferring;
mod roots;
mod settling;

pub use fault::PlanFault;
pub use planned::{LeftOut, Planned};
pub use planning::plan;
