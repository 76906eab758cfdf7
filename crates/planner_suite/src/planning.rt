//! What the planner answers.

use crate::judging::push_judged;
use crate::push::{push_name, push_next, push_word};
use crate::question::{Question, read_question};
use crate::scene::Scene;
use deriv_check::Evidence;
use osgi_version::NoMemory;
use p2_planner::{LeftOut, PlanFault, Planned, plan};
use std::alloc::Global;
use suite_row::Row;

/// The plan. None where the budget isn't one.
fn ask(scene: &Scene, question: &Question) -> Option<Result<Planned, PlanFault>> {
    if question.budget == 0 || question.budget > 50_000 {
        return None;
    }
    Some(plan(
        &scene.catalog,
        &question.installed,
        &question.roots,
        &question.optional,
        &scene.env,
        question.budget,
    ))
}

fn push_members(line: &mut Vec<u8>, members: &[u32]) -> Result<(), NoMemory> {
    for member in members {
        push_next(line, *member)?;
    }
    Ok(())
}

/// The roots that are left out.
fn push_left(line: &mut Vec<u8>, left: &[LeftOut]) -> Result<(), NoMemory> {
    for out in left {
        push_word(line, " left ")?;
        push_name(line, &out.root)?;
    }
    Ok(())
}

pub(crate) fn push_fault(line: &mut Vec<u8>, fault: PlanFault) -> Result<(), NoMemory> {
    match fault {
        PlanFault::SliceTooLarge => push_word(line, "slice too large"),
        PlanFault::ProblemTooLarge => push_word(line, "problem too large"),
        PlanFault::NoMemory => Err(NoMemory),
    }
}

/// `none`, or `spent` and how many lines the derivation has.
fn push_other(line: &mut Vec<u8>, planned: &Planned) -> Result<(), NoMemory> {
    match planned {
        Planned::Selection { .. } => Ok(()),
        Planned::NoSelection(_) => push_word(line, "none"),
        Planned::Spent(evidence) => {
            push_word(line, "spent")?;
            push_next(line, count(evidence))
        }
    }
}

fn count(evidence: &Evidence) -> u32 {
    u32::try_from(evidence.derivation.lines.len()).unwrap_or(u32::MAX)
}

fn push_planned(line: &mut Vec<u8>, planned: &Planned) -> Result<(), NoMemory> {
    match planned {
        Planned::Selection { members, left } => {
            push_word(line, "selection")?;
            push_members(line, members.items())?;
            push_left(line, left.items())
        }
        _ => push_other(line, planned),
    }
}

/// `plan BUDGET NUMBERS | ID VERSION .. | ID VERSION ..`: the plan for these installed units, strict and optional roots.
pub(crate) fn push_plan(
    line: &mut Vec<u8>,
    alloc: Global,
    scene: &Scene,
    row: &Row,
) -> Result<(), NoMemory> {
    let question = read_question(alloc, row)?;
    match ask(scene, &question) {
        None => push_word(line, "no question"),
        Some(Ok(planned)) => push_planned(line, &planned),
        Some(Err(fault)) => push_fault(line, fault),
    }
}

fn push_count(line: &mut Vec<u8>, planned: &Planned) -> Result<(), NoMemory> {
    match planned {
        Planned::Selection { .. } => push_word(line, "selection"),
        Planned::NoSelection(evidence) | Planned::Spent(evidence) => {
            push_word(line, "lines")?;
            push_next(line, count(evidence))
        }
    }
}

/// `lines ..`: how many lines the derivation has where there is no selection.
pub(crate) fn push_lines(
    line: &mut Vec<u8>,
    alloc: Global,
    scene: &Scene,
    row: &Row,
) -> Result<(), NoMemory> {
    let question = read_question(alloc, row)?;
    match ask(scene, &question) {
        None => push_word(line, "no question"),
        Some(Ok(planned)) => push_count(line, &planned),
        Some(Err(fault)) => push_fault(line, fault),
    }
}

/// The judgement on the selection, and the roots that are left out.
fn push_fit(
    line: &mut Vec<u8>,
    scene: &Scene,
    question: &Question,
    planned: &Planned,
) -> Result<(), NoMemory> {
    match planned {
        Planned::Selection { members, left } => {
            push_judged(line, scene, question, members, left)?;
            push_left(line, left.items())
        }
        _ => push_other(line, planned),
    }
}

/// `fits ..`: whether the selection is a valid and rooted part of the slice for the strict roots and the optional ones
/// that aren't left out.
pub(crate) fn push_fitting(
    line: &mut Vec<u8>,
    alloc: Global,
    scene: &Scene,
    row: &Row,
) -> Result<(), NoMemory> {
    let question = read_question(alloc, row)?;
    match ask(scene, &question) {
        None => push_word(line, "no question"),
        Some(Ok(planned)) => push_fit(line, scene, &question, &planned),
        Some(Err(fault)) => push_fault(line, fault),
    }
}
