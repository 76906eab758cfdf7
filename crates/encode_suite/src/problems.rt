//! What is asked of the units.

use crate::choice::{Choice, marks_of, subsets};
use crate::judge::is_valid;
use crate::push::{push_parts, push_word};
use crate::scene::Scene;
use osgi_version::{List, NoMemory, Text, Twin, Version, VersionFault, push_number};
use pb_core::{Constraint, Problem};
use pb_encode::{EncodeFault, are_members, encode};
use std::alloc::Global;
use suite_row::Row;
use unit_model::UnitName;

/// The most members of which all subsets are looked at.
const MOST: usize = 8;

/// Where the bar stands that parts members from roots, or else the end.
fn bar(row: &Row) -> usize {
    for place in 1..row.len() {
        if row.word(place) == "|" {
            return place;
        }
    }
    row.len()
}

/// Members, and the roots that they are to have.
#[derive(Drop)]
struct Question {
    members: List<u32>,
    roots: List<UnitName>,
}

fn read_question(alloc: Global, row: &Row) -> Result<Question, NoMemory> {
    let members = members(alloc, row)?;
    let roots = roots(alloc, row)?;
    Ok(Question { members, roots })
}

/// The numbers before the bar.
fn members(alloc: Global, row: &Row) -> Result<List<u32>, NoMemory> {
    let mut members = List::new(alloc);
    for place in 1..bar(row) {
        members.push(row.word(place).parse::<u32>().unwrap_or(u32::MAX))?;
    }
    Ok(members)
}

/// The version that a row has. Memory is wanting where it has none, which no row is to show.
fn version_of(alloc: Global, text: &Text) -> Result<Version, NoMemory> {
    match Version::parse(alloc, text.bytes()) {
        Ok(version) => Ok(version),
        Err(VersionFault::Bad { .. } | VersionFault::Raw | VersionFault::NoMemory) => Err(NoMemory),
    }
}

fn name(alloc: Global, id: &Text, version: &Text) -> Result<UnitName, NoMemory> {
    let version = version_of(alloc, version)?;
    let id = id.copy()?;
    Ok(UnitName { id, version })
}

/// The names behind the bar: an id and a version each.
fn roots(alloc: Global, row: &Row) -> Result<List<UnitName>, NoMemory> {
    let mut roots = List::new(alloc);
    for place in (bar(row).saturating_add(1)..row.len()).step_by(2) {
        roots.push(name(alloc, row.field(place), row.field(place.saturating_add(1)))?)?;
    }
    Ok(roots)
}

/// What the problem is. None where these are no members.
fn ask(scene: &Scene, question: &Question) -> Option<Result<Problem, EncodeFault>> {
    if !are_members(&scene.catalog, &question.members) {
        return None;
    }
    Some(encode(
        &scene.catalog,
        &question.members,
        &question.roots,
        &scene.env,
    ))
}

/// `problem NUMBERS | ID VERSION ..`: the labels and the constraints of these members for these roots.
pub(crate) fn push_problem(
    line: &mut Vec<u8>,
    alloc: Global,
    scene: &Scene,
    row: &Row,
) -> Result<(), NoMemory> {
    let question = read_question(alloc, row)?;
    match ask(scene, &question) {
        None => push_word(line, "no members"),
        Some(Ok(problem)) => push_parts(line, &problem),
        Some(Err(EncodeFault::TooLarge)) => push_word(line, "too large"),
        Some(Err(EncodeFault::NoMemory)) => Err(NoMemory),
    }
}

/// The numbers below the count.
fn first_members(alloc: Global, row: &Row) -> Result<List<u32>, NoMemory> {
    let mut members = List::new(alloc);
    for number in 0..row.word(1).parse::<u32>().unwrap_or(0) {
        members.push(number)?;
    }
    Ok(members)
}

fn push_term_count(line: &mut Vec<u8>, constraints: &[Constraint]) -> Result<(), NoMemory> {
    let mut count: u32 = 0;
    for constraint in constraints {
        let more = u32::try_from(constraint.terms.len()).unwrap_or(u32::MAX);
        count = count.saturating_add(more);
    }
    push_word(line, "terms ")?;
    push_number(line, count)
}

/// `terms COUNT | ID VERSION ..`: how many terms the problem of the first members has for these roots.
pub(crate) fn push_terms(
    line: &mut Vec<u8>,
    alloc: Global,
    scene: &Scene,
    row: &Row,
) -> Result<(), NoMemory> {
    let members = first_members(alloc, row)?;
    let roots = roots(alloc, row)?;
    let question = Question { members, roots };
    match ask(scene, &question) {
        None => push_word(line, "no members"),
        Some(Ok(problem)) => push_term_count(line, problem.constraints.items()),
        Some(Err(EncodeFault::TooLarge)) => push_word(line, "too large"),
        Some(Err(EncodeFault::NoMemory)) => Err(NoMemory),
    }
}

/// How many subsets are valid, and at how many the constraints say otherwise.
#[derive(Clone, Copy)]
struct Tally {
    valid: u32,
    otherwise: u32,
}

fn satisfies(choice: &Choice<'_>, constraints: &[Constraint]) -> bool {
    for constraint in constraints {
        if !choice.satisfies(constraint) {
            return false;
        }
    }
    true
}

fn count_one(tally: &mut Tally, valid: bool, satisfied: bool) {
    if valid {
        tally.valid = tally.valid.saturating_add(1);
    }
    if valid != satisfied {
        tally.otherwise = tally.otherwise.saturating_add(1);
    }
}

fn judge_one(
    tally: &mut Tally,
    scene: &Scene,
    question: &Question,
    problem: &Problem,
    marks: &[bool],
) {
    let choice = Choice {
        catalog: &scene.catalog,
        members: question.members.items(),
        marks,
    };
    let valid = is_valid(&choice, question.roots.items(), &scene.env);
    let satisfied = satisfies(&choice, problem.constraints.items());
    count_one(tally, valid, satisfied);
}

fn judge_all(scene: &Scene, question: &Question, problem: &Problem) -> Result<Tally, NoMemory> {
    let mut tally = Tally {
        valid: 0,
        otherwise: 0,
    };
    let members = question.members.len();
    for number in 0..subsets(members) {
        let marks = marks_of(question.members.allocator(), number, members)?;
        judge_one(&mut tally, scene, question, problem, marks.as_slice());
    }
    Ok(tally)
}

fn push_tally(
    line: &mut Vec<u8>,
    scene: &Scene,
    question: &Question,
    problem: &Problem,
) -> Result<(), NoMemory> {
    let tally = judge_all(scene, question, problem)?;
    push_word(line, "valid ")?;
    push_number(line, tally.valid)?;
    push_word(line, " otherwise ")?;
    push_number(line, tally.otherwise)
}

/// `subsets NUMBERS | ID VERSION ..`: how many subsets of these members are valid for these roots by the definition, and
/// at how many the constraints say otherwise.
pub(crate) fn push_subsets(
    line: &mut Vec<u8>,
    alloc: Global,
    scene: &Scene,
    row: &Row,
) -> Result<(), NoMemory> {
    let question = read_question(alloc, row)?;
    if question.members.len() > MOST {
        return push_word(line, "too many");
    }
    match ask(scene, &question) {
        None => push_word(line, "no members"),
        Some(Ok(problem)) => push_tally(line, scene, &question, &problem),
        Some(Err(EncodeFault::TooLarge)) => push_word(line, "too large"),
        Some(Err(EncodeFault::NoMemory)) => Err(NoMemory),
    }
}
