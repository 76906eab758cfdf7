use folder_core::{Path, Touch};
use osgi_version::List;

/// What an action knows of the folder when a call of it begins.
#[derive(Debug, Drop)]
pub struct Shape {
    /// What stands at, above and below each place of the call, in the order of paths. A path that is missing has nothing.
    pub nodes: List<Touch>,
    /// The paths that are noted for the call's unit, source and target.
    pub noted: List<Path>,
    /// `installs/P`, the folder of the profile.
    pub install: Path,
    /// Where the unit's first artifact stands in the pool.
    pub artifact: Option<Path>,
}
