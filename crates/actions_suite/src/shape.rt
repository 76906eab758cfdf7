//! Whether a shape may be shown to an action.

ghost use Rattle.std.specs.Prelude.{IsTrue, IfSome};
ghost use Rattle.std.specs.Option.{option_copied};
ghost use Rattle.action_core.specs.Standing.{AreRising, IsInstall, IsPooled, IsShape};

use action_core::Shape;
use folder_core::{Path, Touch};
use unit_model::{is_profile, is_unit_id};

/// Whether its paths rise, and its bases are those of a profile and of an artifact in the pool.
pub fn is_shape(shape: &Shape) -> bool
    ensures { IsTrue result → IsShape shape.now }
{
    are_rising(shape.nodes.items())
        && is_install(&shape.install)
        && is_artifact(shape.artifact.as_ref())
}

fn are_rising(nodes: &[Touch]) -> bool
    ensures { IsTrue result → AreRising nodes.now }
{
    for place in 1..nodes.len() {
        if nodes[place - 1].path >= nodes[place].path {
            return false;
        }
    }
    true
}

fn is_install(path: &Path) -> bool
    ensures { IsTrue result → IsInstall path.now }
{
    match path.names().items() {
        [first, profile] => {
            first.text().as_str() == "installs" && is_profile(profile.text().bytes())
        }
        _ => false,
    }
}

fn is_artifact(path: Option<&Path>) -> bool
    ensures { IsTrue result → IfSome (option_copied path.entry) IsPooled }
{
    match path {
        Some(path) => is_pooled(path),
        None => true,
    }
}

fn is_pooled(path: &Path) -> bool
    ensures { IsTrue result → IsPooled path.now }
{
    match path.names().items() {
        [first, classifier, _] => {
            first.text().as_str() == "pool" && is_unit_id(classifier.text().bytes())
        }
        _ => false,
    }
}
