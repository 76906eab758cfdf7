//! What is printed where there is no plan.
ghost use Rattle.std.specs.Prelude.{◌<◌, ◌≤◌};

use crate::planning::push_fault;
use crate::push::push_word;
use crate::question::{Question, read_question};
use crate::scene::Scene;
use director_plan::{budget_spent_lines, unsatisfiable_lines};
use osgi_version::{List, NoMemory};
use p2_planner::{PlanFault, Planned, plan};
use std::alloc::Global;
use suite_row::Row;

/// The lines for these roots. None where there is a plan.
fn reasons(alloc: Global, scene: &Scene, question: &Question) -> Result<Option<List<u8>>, PlanFault>
    requires some { 0 < question.now.budget }
    requires small { question.now.budget ≤ 50000 }
{
    let planned = plan(
        &scene.catalog,
        &question.installed,
        &question.roots,
        &question.optional,
        &scene.env,
        question.budget,
    )?;
    match planned {
        Planned::Selection { .. } => Ok(None),
        Planned::NoSelection(evidence) => Ok(Some(unsatisfiable_lines(alloc, &evidence)?)),
        Planned::Spent(evidence) => {
            let lines = budget_spent_lines(alloc, question.budget, &evidence)?;
            Ok(Some(lines))
        }
    }
}

/// The lines, and behind them `end`, so that a last LF that is missing shows.
fn push_reasons(line: &mut Vec<u8>, lines: Option<List<u8>>) -> Result<(), NoMemory> {
    match lines {
        Some(lines) => {
            line.extend_from_slice(lines.items())?;
            push_word(line, "end")
        }
        None => push_word(line, "selection"),
    }
}

/// `why ..`: the lines that are printed where there is no selection, and `end`.
pub(crate) fn push_why(
    line: &mut Vec<u8>,
    alloc: Global,
    scene: &Scene,
    row: &Row,
) -> Result<(), NoMemory> {
    let question = read_question(alloc, row)?;
    if question.budget == 0 || question.budget > 50_000 {
        return push_word(line, "no question");
    }
    match reasons(alloc, scene, &question) {
        Ok(lines) => push_reasons(line, lines),
        Err(fault) => push_fault(line, fault),
    }
}
