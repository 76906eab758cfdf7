ghost use Rattle.std.specs.Prelude.{◌≡◌, ◌≢◌, ◌≤◌, ◌↔◌, [], length, IfOk, IsTrue, OnErr, OnOk, Some};
ghost use Rattle.std.specs.Option.{option_copied};
ghost use Rattle.folder_core.specs.Path.{IsPath};
ghost use Rattle.folder_core.specs.Folder.{set_at};
ghost use Rattle.folder_core.specs.declared.node.Node.{Node};
ghost use Rattle.folder_core.specs.declared.node.Node.TheVariants.{Dir};
ghost use Rattle.folder_memory.specs.Nodes.{ShowsDirectory, map_of};

use folder_core::{Name, Node, Path};
use osgi_version::{NoMemory, Twin};
use std::alloc::Global;
use std::collections::BTreeMap;

/// The nodes of a folder by their paths, but for its root.
pub(crate) type Nodes = BTreeMap<Path, Node>;

/// The node at a path, with one that stands at the root.
pub(crate) fn node_at<'a>(nodes: &'a Nodes, root: &'a Node, path: &Path) -> Option<&'a Node>
    ensures { option_copied result ≡ map_of root.now nodes.now path.now }
{
    if path.names().is_empty() {
        Some(root)
    } else {
        nodes.get(path)
    }
}

pub(crate) fn copied(node: Option<&Node>) -> Result<Option<Node>, NoMemory>
    ensures { IfOk result (λ copied. copied ≡ option_copied node.entry) }
{
    match node {
        Some(node) => Ok(Some(node.copy()?)),
        None => Ok(None),
    }
}

/// Puts a node at a path that isn't the root, or takes the one there away. Refused, it changes nothing.
pub(crate) fn place(nodes: &mut Nodes, path: &Path, node: Option<&Node>) -> Result<(), NoMemory>
    requires { path.now ≢ [] }
    ensures ok { OnOk result ((root : Node) → map_of root nodes.new ≡ set_at (map_of root nodes.old) path.now (option_copied node.entry)) }
    ensures err { OnErr result ((root : Node) → map_of root nodes.new ≡ map_of root nodes.old) }
{
    match node {
        Some(node) => {
            nodes.insert(path.copy()?, node.copy()?)?;
        }
        None => {
            let _ = nodes.remove(path);
        }
    }
    Ok(())
}

pub(crate) fn is_directory(node: Option<&Node>) -> bool
    ensures { IsTrue result ↔ (option_copied node.entry ≡ Some Dir) }
{
    matches!(node, Some(Node::Dir))
}

/// A copy of a path, whose names are few and are names.
pub(crate) fn copied_path(path: &Path) -> Result<Path, NoMemory>
    ensures copy { IfOk result (λ copy. copy ≡ path.now) }
    ensures path { IsPath path.now }
{
    let _ = path.names();
    path.copy()
}

/// The path that has these names.
pub(crate) fn path_from(alloc: Global, names: &[Name]) -> Result<Path, NoMemory>
    requires { length names.now ≤ 64 }
    ensures { IfOk result (λ path. path ≡ names.now) }
{
    let mut path = Path::root(alloc);
    for name in names {
        path.push(name.copy()?)?;
    }
    Ok(path)
}

/// Whether a node that stands at a place shows that a directory stands at the path that has these names: it is that
/// directory, or stands below it.
pub(crate) fn shows_directory(names: &[Name], place: &Path, node: &Node) -> bool
    ensures { IsTrue result ↔ ShowsDirectory names.now place.now node.now }
{
    match place.names().items().strip_prefix(names) {
        Some(rest) => !rest.is_empty() || is_directory(Some(node)),
        None => false,
    }
}
