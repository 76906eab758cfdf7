use folder_core::{Node, Path};
use osgi_version::List;

/// One thing that a call does.
#[derive(Debug, PartialEq, Eq, Drop)]
pub enum Step {
    /// This node is put at the path, or what stands there is taken away.
    Set { path: Path, node: Option<Node> },
    /// These paths are noted for the call's unit, source and target, in place of those that were. No paths are no note.
    Note { paths: List<Path> },
}
