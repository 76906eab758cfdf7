//! What a shape says of the folder.

ghost use Rattle.std.specs.Prelude.{◌≡◌, ◌≤◌, length, take, IfSome, MatchOption};
ghost use Rattle.std.specs.Option.{option_copied};
ghost use Rattle.action_core.specs.Rows.{has_below};
ghost use Rattle.action_core.specs.Standing.{AreRising, is_at_or_below, map_of, stands_in, stands_under, under_in};
ghost use Rattle.action_core.specs.Tests.{is_dir, is_link, link_above};

use crate::shape::Shape;
use folder_core::{Name, Node, Path, Touch};

impl Shape {
    /// What stands at the path of these names.
    pub fn look(&self, names: &[Name]) -> Option<&Node>
        requires { AreRising self.now.nodes }
        ensures { option_copied result ≡ map_of self.now names.now }
    {
        node_in(self.nodes.items(), names)
    }

    pub fn is_directory(&self, names: &[Name]) -> bool
        requires { AreRising self.now.nodes }
        ensures { result ≡ is_dir (map_of self.now names.now) }
    {
        matches!(self.look(names), Some(Node::Dir))
    }

    fn is_link(&self, names: &[Name]) -> bool
        requires { AreRising self.now.nodes }
        ensures { result ≡ is_link (map_of self.now names.now) }
    {
        matches!(self.look(names), Some(Node::Link { .. }))
    }

    /// How many names the first link above a path has.
    pub(crate) fn link_above(&self, names: &[Name]) -> Option<usize>
        requires { AreRising self.now.nodes }
        ensures first { MatchOption result (link_above (map_of self.now) names.now ≡ None)
            (λ count. link_above (map_of self.now) names.now ≡ Some (take count names.now)) }
        ensures short { IfSome result (λ count. count ≤ length names.now) }
    {
        for count in 0..names.len() {
            if self.is_link(&names[..count]) {
                return Some(count);
            }
        }
        None
    }

    /// Whether something stands below the path.
    pub fn has_below(&self, path: &Path) -> bool
        ensures { result ≡ has_below path.now (under_in self.now.nodes path.now) }
    {
        any_below(self.nodes.items(), path)
    }
}

/// What these say of the path of the names, by a search in their order.
fn node_in<'a>(nodes: &'a [Touch], names: &[Name]) -> Option<&'a Node>
    requires { AreRising nodes.now }
    ensures { option_copied result ≡ stands_in nodes.now names.now }
{
    match nodes.binary_search_by(|touch| touch.path.names().items().cmp(names)) {
        Ok(place) => nodes[place].node.as_ref(),
        Err(_) => None,
    }
}

fn any_below(nodes: &[Touch], path: &Path) -> bool
    ensures { result ≡ has_below path.now (under_in nodes.now path.now) }
{
    for touch in nodes {
        if stands_under(path, touch) && touch.path != *path {
            return true;
        }
    }
    false
}

/// Whether it is something that stands at the place or below it.
pub fn stands_under(place: &Path, touch: &Touch) -> bool
    ensures { result ≡ stands_under place.now touch.now }
{
    is_at_or_below(place, &touch.path) && touch.node.is_some()
}

/// Whether the path is the place or lies below it.
pub fn is_at_or_below(place: &Path, path: &Path) -> bool
    ensures { result ≡ is_at_or_below place.now path.now }
{
    path.names().items().starts_with(place.names().items())
}
