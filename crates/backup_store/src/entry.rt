use folder_core::{Node, Path};

/// Which entry it is, from 1.
#[derive(Clone, Copy, Debug, PartialEq, Eq)]
pub struct EntryNumber(pub u32);

/// A path, and what stood there, or nothing.
#[derive(Debug, PartialEq, Eq, Drop)]
pub struct Entry {
    pub path: Path,
    pub before: Option<Node>,
}
