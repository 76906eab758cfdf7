//! Honest objects of the outside in memory, for tests: a folder, a tree, an input and a sink. They tell what they hold,
//! and fail exactly where they are told to.
#![tactic(auto)]

mod folder;
mod history;
mod image;
mod names;
mod nodes;
mod places;
mod schedule;
mod stream;
mod tree;

pub use folder::MemoryFolder;
pub use image::ImageFault;
pub use stream::{MemoryInput, MemorySink};
pub use tree::{MemoryTree, PutFault};
