ghost use Rattle.std.specs.Prelude.{◌⊎◌, IfErr, IfSome, OnOk, OnErr, IsErrOf};
ghost use Rattle.folder_core.specs.Cause.{HasCause};
ghost use Rattle.folder_core.specs.Crash.{IsImage, Elapses};
ghost use Rattle.folder_core.specs.Folder.{CanSet};
ghost use Rattle.folder_core.specs.Node.{IsNode, IsSmallAt};
ghost use Rattle.folder_core.specs.Step.{OnTold, Step};
ghost use Rattle.backup_store.specs.Fault.{IfDamaged};
ghost use Rattle.backup_store.specs.Looking.{IsStill};
ghost use Rattle.backup_store.specs.Settling.{IsTouchedImage, IsSettled, IsUnsettled};

use crate::fault::StoreFault;
use folder_core::{Folder, Touch};

/// Puts a node at its path, and syncs.
pub(crate) fn settle<F: Folder>(folder: &mut F, touch: &Touch) -> Result<(), StoreFault>
    requires place { OnTold (F.told folder.old) (λ s. CanSet s.now touch.now.path) }
    requires node { IfSome touch.now.node IsNode }
    requires small { IfSome touch.now.node (IsSmallAt touch.now.path) }

    ensures ok { OnOk result (Step (F.told folder.old) (F.told folder.new) (IsSettled touch.now)) }
    ensures err { OnErr result (Step (F.told folder.old) (F.told folder.new) (IsUnsettled touch.now)) }
    ensures no_memory { IsErrOf result StoreFault.NoMemory → Step (F.told folder.old) (F.told folder.new) IsStill }
    ensures never_damaged { IfErr result (λ fault. IfDamaged fault (λ at. ⊥)) }
    ensures time { Step (F.told folder.old) (F.told folder.new) (λ s t. Elapses s.moment t.moment (F.left_since folder.old)
        (F.left_since folder.new) (λ m. IsTouchedImage touch.now.path s m ⊎ IsImage t m)) }
    ensures cause { HasCause (F.faults folder.old) (F.faults folder.new) (IsErrOf result StoreFault.Failed) }
{
    folder.set(&touch.path, touch.node.as_ref())?;
    folder.sync()?;
    Ok(())
}
