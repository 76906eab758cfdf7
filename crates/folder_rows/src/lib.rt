//! How the rows of a suite say what stands in a folder.
//!
//! A node is one field: `none` for no node, `dir`, `>TARGET` for a link, and `MODE#BYTES` or `MODE*COUNT` for a file with
//! these bytes or with so many zeros. MODE is octal, and left out it is 644. A node at a path is one field too, `PATH=NODE`,
//! cut at the first `=`. A crash is some fields more, each of which adds choices: `synced` none, `now` the node that each
//! touched path has, `dirs` a directory at each touched path, and `PATH=NODE` that one.
//!
//! An answer spells them in the same way. There a file of over 4,096 bytes stands as `MODE*COUNT`, whatever it holds.
#![tactic(auto)]

mod contents;
mod fault;
mod putting;
mod read;
mod write;

pub use contents::push_contents;
pub use fault::RowFault;
pub use putting::{PutAnswer, arm, may_put, put};
pub use read::{read_choice, read_node, read_numbers, read_path, read_touch};
pub use write::{push_image_fault, push_names, push_node, push_path, word_of};
