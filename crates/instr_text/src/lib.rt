//! The texts of instructions: their pieces, the variables in values, and why a text is refused.
#![tactic(auto)]

mod cut;
mod expanded;
mod fault;
mod front;
mod piece;
mod words;

pub use cut::{split, split_bytes, trim_bytes};
pub use expanded::expand;
pub use fault::InstrRefusal;
pub use front::{behind, behind_bytes};
pub use piece::{Part, Piece, read_piece};
