//! The texts of instructions: which actions they call, with which values.
#![tactic(auto)]

mod call;
mod form;
mod naming;
mod opened;
mod params;
mod path;
mod pieces;
mod slots;
mod tables;
mod value;

pub use call::{ActionKind, Base, Call, Param, Value};
pub use instr_text::InstrRefusal;
pub use pieces::calls;
