use backup_store::EntryNumber;
use folder_core::Path;
use osgi_version::List;

/// What a node was, as far as those below it depend on it.
#[derive(Clone, Copy, Debug, PartialEq, Eq)]
pub(crate) enum OldKind {
    Nothing,
    Directory,
    /// A file or a link, below which nothing stands.
    Leaf,
}

/// A path that has an entry, and its first one, which has the oldest node.
#[derive(Debug, Drop)]
pub(crate) struct Oldest {
    pub(crate) path: Path,
    pub(crate) number: EntryNumber,
    pub(crate) kind: OldKind,
}

/// What a recovery is to put back. It holds no bytes of files: each entry is read again when its turn comes.
#[derive(Debug, Drop)]
pub(crate) struct Plan {
    /// How many entries count.
    pub(crate) count: u32,
    /// One for each path, in the order of paths.
    pub(crate) oldest: List<Oldest>,
}
