ghost use Rattle.std.specs.Prelude.{IfOk, IfErr, IsErrAnd};
ghost use Rattle.folder_core.specs.Cause.{HasCause};
ghost use Rattle.folder_core.specs.Step.{OnTold};
ghost use Rattle.install_journal.specs.Broken.{NamesDamage};
ghost use Rattle.install_journal.specs.Looks.{OnlyLooks};
ghost use Rattle.install_journal.specs.Plan.{IsPlan};
ghost use Rattle.install_journal.specs.Preparing.{IsUnchanged};
ghost use Rattle.install_journal.specs.Undoing.{IsFailure, OnDamage};

use crate::fault::JournalFault;
use crate::fitting::find_unfit;
use crate::plan::Plan;
use crate::reading::read_counted;
use folder_core::{After, Folder, FolderError};
use std::alloc::Global;

/// Reads the entries that count, and finds out whether they can be put back.
pub(crate) fn gather<F: Folder>(alloc: Global, folder: &mut F) -> Result<Plan, JournalFault>
    ensures plan { IfOk result (λ plan. OnTold (F.told folder.old) (λ s. IsPlan plan s.now)) }
    ensures damaged { IfErr result (OnDamage (λ at. OnTold (F.told folder.old) (λ s. NamesDamage s.now at))) }
    ensures unchanged { IfErr result IsUnchanged }
    ensures looks { OnlyLooks F.told F.left_since folder.old folder.new }
    ensures cause { HasCause (F.faults folder.old) (F.faults folder.new) (IsErrAnd result IsFailure) }
{
    let plan = read_counted(alloc, folder)?;
    match find_unfit(alloc, folder, &plan) {
        Ok(None) => Ok(plan),
        Ok(Some(path)) => Err(JournalFault::Damaged { path }),
        Err(FolderError::Failed) => Err(JournalFault::Failed(After::Unchanged)),
        Err(FolderError::NoMemory) => Err(JournalFault::NoMemory(After::Unchanged)),
    }
}
