//! What the outside is to the layers above: names, paths and nodes, and the traits of a folder, a tree of files, an
//! input and a sink.
#![tactic(auto)]

mod blob;
mod fault;
mod folder;
mod name;
mod node;
mod path;
mod stream;
mod tree;

pub use blob::Blob;
pub use fault::{Failed, FolderError, TreeError};
pub use folder::Folder;
pub use name::Name;
pub use node::{After, Node, Touch};
pub use path::Path;
pub use stream::{Input, Sink};
pub use tree::Tree;
