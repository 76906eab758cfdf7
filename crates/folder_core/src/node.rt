ghost use Rattle.std.specs.Prelude.{◌↔◌, IsTrue};
ghost use Rattle.folder_core.specs.Node.{IsNode, IsSmallAt, entries_path};
ghost use Rattle.folder_core.specs.Path.{IsBelow};

use crate::blob::Blob;
use crate::path::Path;
use osgi_version::{NoMemory, Text, Twin};

const MOST_MODE: u16 = 0o777;

const MOST_TARGET: usize = 4096;

const MOST_OUTSIDE: usize = 67_108_864;

/// What stands at a path. A mode is at most 0o777, and a target has at most 4,096 bytes.
#[derive(Debug, PartialEq, Eq, Drop)]
pub enum Node {
    File { mode: u16, blob: Blob },
    Dir,
    Link { target: Text },
}

/// A path, and what is to stand there, or nothing.
#[derive(Debug, PartialEq, Eq, Drop)]
pub struct Touch {
    pub path: Path,
    pub node: Option<Node>,
}

/// What a call that gave up left: nothing is changed, a recovery has to follow, or either.
#[derive(Clone, Copy, Debug, PartialEq, Eq)]
pub enum After {
    Unchanged,
    Recover,
    Either,
}

impl Node {
    /// Whether a folder may hold it at a path.
    pub fn may_stand_at(&self, path: &Path) -> bool
        ensures { IsTrue result ↔ (IsNode self.now × IsSmallAt path.now self.now) }
    {
        match self {
            Node::File { mode, blob } => {
                *mode <= MOST_MODE && (blob.bytes().len() <= MOST_OUTSIDE || is_below_entries(path))
            }
            Node::Dir => true,
            Node::Link { target } => target.bytes().len() <= MOST_TARGET,
        }
    }
}

fn is_below_entries(path: &Path) -> bool
    ensures { IsTrue result ↔ IsBelow entries_path path.now }
{
    match path.names().items() {
        [first, second, _, ..] => {
            first.text().as_str() == ".p2" && second.text().as_str() == "e"
        }
        _ => false,
    }
}

impl Twin for Node {
    fn copy(&self) -> Result<Node, NoMemory> {
        Ok(match self {
            Node::File { mode, blob } => Node::File {
                mode: *mode,
                blob: blob.copy()?,
            },
            Node::Dir => Node::Dir,
            Node::Link { target } => Node::Link {
                target: target.copy()?,
            },
        })
    }
}

impl Twin for Touch {
    fn copy(&self) -> Result<Touch, NoMemory> {
        let node = match &self.node {
            Some(node) => Some(node.copy()?),
            None => None,
        };
        Ok(Touch {
            path: self.path.copy()?,
            node,
        })
    }
}

impl Twin for After {
    fn copy(&self) -> Result<After, NoMemory> {
        Ok(*self)
    }
}
