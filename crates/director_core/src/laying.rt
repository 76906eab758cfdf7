ghost use Rattle.std.specs.Prelude.{◌≡◌, OnOk, IsErrOf};
ghost use Rattle.folder_core.specs.Cause.{HasCause};
ghost use Rattle.folder_core.specs.Step.{OnTold, Step};
ghost use Rattle.director_core.specs.Laid.{CanLay, AreNodes, IsBegun, SameElsewhere, laid};

use folder_core::{Folder, FolderError, Touch};
use osgi_version::List;

/// Puts nodes, one after the other. An `Err` leaves the folder in the middle.
pub(crate) fn lay<F: Folder>(folder: &mut F, touches: &List<Touch>) -> Result<(), FolderError>
    requires can_lay { OnTold (F.told folder.old) (λ s. CanLay touches.now s.now) }
    requires nodes { AreNodes touches.now }
    ensures ok { OnOk result (Step (F.told folder.old) (F.told folder.new) (λ s t. t.now ≡ laid touches.now s.now)) }
    ensures no_memory { IsErrOf result FolderError.NoMemory
        → Step (F.told folder.old) (F.told folder.new) (λ s t. IsBegun touches.now s.now t.now) }
    ensures elsewhere { Step (F.told folder.old) (F.told folder.new) (λ s t. SameElsewhere touches.now s.now t.now) }
    ensures cause { HasCause (F.faults folder.old) (F.faults folder.new) (IsErrOf result FolderError.Failed) }
{
    let touches = touches.items();
    for touch in touches {
        folder.set(&touch.path, touch.node.as_ref())?;
    }
    Ok(())
}
