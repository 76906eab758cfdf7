//! The constraints that are satisfied exactly where the selected members of a catalog are valid together.
#![tactic(auto)]

mod members;
mod order;
mod problem;
mod requirements;
mod roots;
mod singletons;

pub use members::Members;
pub use order::are_members;
pub use pb_rows::EncodeFault;
pub use problem::{constraints_of, encode, labels_of};
