//! The host behind the traits of the outside: folders and trees of files, streams, and the words of a call.
#![tactic(auto)]

mod arguments;
mod faults;
mod host_folder;
mod host_lock;
mod host_place;
mod host_read;
mod host_root;
mod host_touched;
mod host_tree;
mod host_write;
mod std_input;
mod std_sink;

pub use arguments::{Arguments, ArgumentsFault};
pub use host_folder::HostFolder;
pub use host_lock::Lockable;
pub use host_tree::HostTree;
pub use std_input::StdInput;
pub use std_sink::StdSink;
