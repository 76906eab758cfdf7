//! The tests that actions have in common.

ghost use Rattle.std.specs.Prelude.{◌≡◌, ◌≢◌, ◌≤◌, length, take, IfOk, IfErr, OnOk};
ghost use Rattle.action_core.specs.Standing.{AreRising, map_of, site_of};
ghost use Rattle.action_core.specs.Tests.{common, through_link, way};

use crate::fault::ActionFault;
use crate::shape::Shape;
use folder_core::Path;
use osgi_version::{NoMemory, Twin};
use std::alloc::Global;

impl Shape {
    /// Whether no link stands above the path.
    pub fn check_links(&self, path: &Path) -> Result<(), ActionFault>
        requires { AreRising self.now.nodes }
        ensures passed { OnOk result (through_link (map_of self.now) path.now ≡ None) }
        ensures refused { IfErr result (λ fault. fault ≢ ActionFault.NoMemory → through_link (map_of self.now) path.now ≡ Some fault) }
    {
        match self.link_above(path.names().items()) {
            Some(count) => Err(ActionFault::ThroughLink(front(
                self.nodes.allocator(),
                path,
                count,
            )?)),
            None => Ok(()),
        }
    }

    /// Whether the way leads to a path that may be changed: it isn't the folder of the profile, and no link stands above it.
    pub fn check_way(&self, path: &Path) -> Result<(), ActionFault>
        requires { AreRising self.now.nodes }
        ensures passed { OnOk result (way (site_of self.now) (map_of self.now) path.now ≡ None) }
        ensures refused { IfErr result (λ fault. fault ≢ ActionFault.NoMemory → way (site_of self.now) (map_of self.now) path.now ≡ Some fault) }
    {
        if path.names() == self.install.names() {
            return Err(ActionFault::InstallFolder(path.copy()?));
        }
        self.check_links(path)
    }

    /// Whether a node may be put at a path, or taken away: the way leads there, and its parent is a directory.
    pub fn check(&self, path: &Path) -> Result<(), ActionFault>
        requires { AreRising self.now.nodes }
        ensures passed { OnOk result (common (site_of self.now) (map_of self.now) path.now ≡ None) }
        ensures refused { IfErr result (λ fault. fault ≢ ActionFault.NoMemory → common (site_of self.now) (map_of self.now) path.now ≡ Some fault) }
    {
        self.check_way(path)?;
        let names = path.names().items();
        if self.is_directory(&names[..names.len().saturating_sub(1)]) {
            Ok(())
        } else {
            Err(ActionFault::NoParent(path.copy()?))
        }
    }
}

/// The path of the first names of a path.
fn front(alloc: Global, path: &Path, count: usize) -> Result<Path, NoMemory>
    requires { count ≤ length path.now }
    ensures { IfOk result (λ front. front ≡ take count path.now) }
{
    let names = &path.names().items()[..count];
    let mut front = Path::root(alloc);
    for name in names {
        if !front.push(name.copy()?)? {
            unreachable!();
        }
    }
    Ok(front)
}
