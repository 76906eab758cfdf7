ghost use Rattle.std.specs.Prelude.{◌≡◌, ◌≤◌, ◌++◌, IfOk, IfErr, OnOk};
ghost use Rattle.osgi_version.specs.VersionText.{IsVersion};
ghost use Rattle.folder_core.specs.Cause.{Rose};
ghost use Rattle.folder_core.specs.Step.{OnTold, Step};
ghost use Rattle.director_core.specs.Durable.{IsDurable, OnPerformed};
ghost use Rattle.director_core.specs.Laid.{IsBare};
ghost use Rattle.director_core.specs.Performs.{Fails, LeavesPerformed, PrintsPerformed, Adds};
ghost use Rattle.director_core.specs.Planned.{IsReady};
ghost use Rattle.director_core.specs.Printed.{plan_lines};

use crate::first_install::first_touches;
use crate::laying::lay;
use crate::plan::Plan;
use crate::writing::write_all;
use director_words::{Status, add_line, done_line, plan_line};
use folder_core::{After, Folder, FolderError, Sink};
use osgi_version::NoMemory;
use std::alloc::Global;

/// Writes the plan, puts its nodes, and writes the last line. Its memory is found before the first node is put.
pub(crate) fn perform<F: Folder, K: Sink>(
    alloc: Global,
    folder: &mut F,
    out: &mut K,
    plan: &Plan,
) -> Result<(), Status>
    requires ready { IsReady plan.now }
    requires bare { OnTold (F.told folder.old) (λ s. IsBare s.now) }
    ensures failed { IfErr result (Fails (Rose (F.faults folder.old) (F.faults folder.new)) (Rose (K.faults out.old) (K.faults out.new))) }
    ensures leaves { Step (F.told folder.old) (F.told folder.new)
        (λ s t. LeavesPerformed plan.now.profile plan.now.unit s.now result t.now) }
    ensures durable { OnPerformed result (OnTold (F.told folder.new) IsDurable) }
    ensures prints { Step (K.told out.old) (K.told out.new)
        (Adds (PrintsPerformed plan.now.profile plan.now.unit result)) }
    ensures later_folder { F.faults folder.old ≤ F.faults folder.new }
    ensures later_sink { K.faults out.old ≤ K.faults out.new }
{
    let lines = plan_lines(alloc, plan)?;
    if write_all(out, lines.as_slice()).is_err() {
        return Err(Status::SinkFault { committed: None });
    }
    let last = done_line(alloc, plan.profile.bytes(), 1)?;
    put(alloc, folder, plan)?;
    if write_all(out, last.items()).is_err() {
        return Err(Status::SinkFault { committed: Some(1) });
    }
    Ok(())
}

/// The lines of the plan: one unit comes to an empty profile.
fn plan_lines(alloc: Global, plan: &Plan) -> Result<Vec<u8>, NoMemory>
    requires { IsVersion plan.now.unit.name.version }
    ensures { IfOk result (λ lines. lines.items ≡ plan_lines plan.now.profile plan.now.unit) }
{
    let mut lines = plan_line(alloc, plan.profile.bytes(), 1)?.into_vec();
    let add = add_line(alloc, &plan.unit.name)?;
    lines.extend_from_slice(add.items())?;
    Ok(lines)
}

/// Puts the nodes of the first install, and makes them last.
fn put<F: Folder>(alloc: Global, folder: &mut F, plan: &Plan) -> Result<(), Status>
    requires ready { IsReady plan.now }
    requires bare { OnTold (F.told folder.old) (λ s. IsBare s.now) }
    ensures failed { IfErr result (Fails (Rose (F.faults folder.old) (F.faults folder.new)) ⊥) }
    ensures durable { OnOk result (OnTold (F.told folder.new) IsDurable) }
    ensures leaves { Step (F.told folder.old) (F.told folder.new)
        (λ s t. LeavesPerformed plan.now.profile plan.now.unit s.now result t.now) }
    ensures later { F.faults folder.old ≤ F.faults folder.new }
{
    let touches = first_touches(alloc, plan)?;
    match lay(folder, &touches) {
        Ok(()) => {}
        Err(FolderError::Failed) => return Err(Status::FolderFault(After::Recover)),
        Err(FolderError::NoMemory) => return Err(Status::NoMemory(After::Recover)),
    }
    match folder.sync() {
        Ok(()) => Ok(()),
        Err(_) => Err(Status::FolderFault(After::Recover)),
    }
}
