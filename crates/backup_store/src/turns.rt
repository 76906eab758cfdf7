ghost use Rattle.std.specs.Prelude.{◌≡◌, IfOk, IfSome, IsErrOf, MatchOption};
ghost use Rattle.folder_core.specs.Cause.{HasCause};
ghost use Rattle.folder_core.specs.Crash.{IsImage, Elapses};
ghost use Rattle.folder_core.specs.Folder.{Map};
ghost use Rattle.folder_core.specs.Node.{IsNode, IsSmallAt};
ghost use Rattle.folder_core.specs.Step.{OnTold, Step};
ghost use Rattle.backup_store.specs.Looking.{IsStill};
ghost use Rattle.backup_store.specs.Turns.{AreTouches, set_in_turn};

use folder_core::{Folder, FolderError, Node, Path, Touch};
use osgi_version::{NoMemory, Twin};
use std::alloc::Global;

/// What stands at a path once the earlier touches are done, none of which is done yet. Each of them is looked at.
pub(crate) fn look_in_turn<F: Folder>(
    alloc: Global,
    folder: &mut F,
    earlier: &[Touch],
    path: &Path,
) -> Result<Option<Node>, FolderError>
    requires { AreTouches earlier.now }
    ensures found { IfOk result (λ found. OnTold (F.told folder.old) (λ s. set_in_turn earlier.now s.now path.now ≡ found)) }
    ensures node { IfOk result (λ found. IfSome found IsNode) }
    ensures small { IfOk result (λ found. IfSome found (IsSmallAt path.now)) }
    ensures still { Step (F.told folder.old) (F.told folder.new) IsStill }
    ensures time { Step (F.told folder.old) (F.told folder.new)
        (λ s t. Elapses s.moment t.moment (F.left_since folder.old) (F.left_since folder.new) (IsImage t)) }
    ensures cause { HasCause (F.faults folder.old) (F.faults folder.new) (IsErrOf result FolderError.Failed) }
{
    match last_at(earlier, path) {
        Some(touch) => Ok(copy_node(touch)?),
        None => folder.look(alloc, path),
    }
}

/// The last of these touches that is of this path.
fn last_at<'a>(touches: &'a [Touch], path: &Path) -> Option<&'a Touch>
    requires { AreTouches touches.now }
    ensures stands { MatchOption result
        ((m : Map) → set_in_turn touches.entry.now m path.now ≡ m path.now)
        (λ touch. (m : Map) → set_in_turn touches.entry.now m path.now ≡ touch.now.node) }
    ensures node { IfSome result (λ touch. IfSome touch.now.node IsNode) }
    ensures small { IfSome result (λ touch. IfSome touch.now.node (IsSmallAt path.now)) }
{
    let mut last = None;
    for touch in touches {
        if touch.path == *path {
            last = Some(touch);
        }
    }
    last
}

fn copy_node(touch: &Touch) -> Result<Option<Node>, NoMemory>
    ensures { IfOk result (λ node. node ≡ touch.now.node) }
{
    match &touch.node {
        Some(node) => Ok(Some(node.copy()?)),
        None => Ok(None),
    }
}
