ghost use Rattle.std.specs.Prelude.{◌≡◌, ◌↔◌, ◌⊎◌, Ok, Err, map, take, length, IsTrue};
ghost use Rattle.std.specs.Str.{IsUtf8};
ghost use Rattle.deriv_check.specs.EvidenceForm.{IsCount, IsLine, IsConstraintOver, IsProblem, IsDerivation, IsEvidence, BeginsProblem, DenotesEvidence, whole_lines};
ghost use Rattle.deriv_check.specs.EvidenceText.{label_line, constraint_line, derived_line, problem_lines, derivation_lines, evidence_lines};
ghost use Rattle.deriv_check.specs.EvidenceAnswers.{IsEvidenceAnswer, AnswersLines};
ghost use Rattle.deriv_check.specs.Reading.{Parses, IsListOf, AreCounts, AreVariables, variable_lines, seen};
ghost use Rattle.deriv_check.specs.declared.derivation.CheckFault.TheVariants as fault;

use crate::constraint_reader::front_constraints;
use crate::derivation::{CheckFault, Derivation, Evidence, Line, Why};
use crate::line_reader::{front_labels, front_lines, read_derivation_line, read_problem_line};
use crate::stop::Stop;
use crate::words::whole_lines;
use osgi_version::{List, Text};
use pb_core::{Constraint, Problem};
use std::alloc::Global;

/// Reads the text of an evidence. A first line that doesn't begin `problem ` is skipped, and what follows the
/// derivation is passed over. `Bad` has `Why::Text` and the first line, from 1, such that no text of an evidence begins
/// with the lines up to it: where a line or its LF is missing at the end of the text, the number after the last whole
/// line. No memory is reserved by a number of the text. Takes time in line with the text's length.
pub fn read_evidence(alloc: Global, text: &[u8]) -> Result<Evidence, CheckFault>
    ensures exact { IsEvidenceAnswer (whole_lines text.now) result }
    // What denotes an evidence is read, memory aside.
    ensures only { (e : Evidence) → DenotesEvidence (whole_lines text.now) e → (result ≡ Ok e) ⊎ (result ≡ Err fault.NoMemory) }
{
    let lines = whole_lines(alloc, text)?;
    match read_text(alloc, &lines) {
        Ok(evidence) => Ok(evidence),
        Err(Stop::At(at)) => Err(CheckFault::Bad {
            line: at as u64 + 1,
            why: Why::Text,
        }),
        Err(Stop::NoMemory) => Err(CheckFault::NoMemory),
    }
}

/// Reads the lines of a text.
fn read_text(alloc: Global, lines: &[&[u8]]) -> Result<Evidence, Stop>
    ensures { AnswersLines (seen lines.now) result }
{
    if lines.is_empty() {
        return read_lines(alloc, lines);
    }
    if begins_problem(lines[0]) {
        return read_lines(alloc, lines);
    }
    match read_lines(alloc, &lines[1..]) {
        Ok(evidence) => Ok(evidence),
        Err(stop) => Err(stop.behind(1)),
    }
}

fn begins_problem(line: &[u8]) -> bool
    ensures { IsTrue result ↔ BeginsProblem line.now }
{
    line.starts_with(b"problem ".as_slice())
}

/// Reads lines that begin with an evidence's.
fn read_lines(alloc: Global, lines: &[&[u8]]) -> Result<Evidence, Stop>
    ensures { Parses IsEvidence evidence_lines (seen lines.now) result }
{
    let problem = match read_problem(alloc, lines) {
        Ok(problem) => problem,
        Err(stop) => return Err(stop),
    };
    let behind = 1 + problem.labels.len() + problem.constraints.len();
    match read_derivation(alloc, &lines[behind..]) {
        Ok(derivation) => Ok(Evidence {
            problem,
            derivation,
        }),
        Err(stop) => Err(stop.behind(behind)),
    }
}

fn read_problem(alloc: Global, lines: &[&[u8]]) -> Result<Problem, Stop>
    ensures { Parses IsProblem problem_lines (seen lines.now) result }
{
    if lines.is_empty() {
        return Err(Stop::At(0));
    }
    let Some((labels, constraints)) = read_problem_line(alloc, lines[0])? else {
        return Err(Stop::At(0));
    };
    match read_variables(alloc, &lines[1..], labels, constraints) {
        Ok((labels, constraints)) => Ok(Problem {
            labels,
            constraints,
        }),
        Err(stop) => Err(stop.behind(1)),
    }
}

/// Reads so many labels and so many constraints.
fn read_variables(
    alloc: Global,
    lines: &[&[u8]],
    labels: u32,
    constraints: u32,
) -> Result<(List<Text>, List<Constraint>), Stop>
    requires { AreCounts (labels, constraints) }
    ensures { Parses (AreVariables (labels, constraints)) variable_lines (seen lines.now) result }
{
    let named = match read_labels(alloc, lines, labels) {
        Ok(named) => named,
        Err(stop) => return Err(stop),
    };
    let behind = named.len();
    match read_constraints(alloc, named.items(), &lines[behind..], constraints) {
        Ok(found) => Ok((named, found)),
        Err(stop) => Err(stop.behind(behind)),
    }
}

fn read_derivation(alloc: Global, lines: &[&[u8]]) -> Result<Derivation, Stop>
    ensures { Parses IsDerivation derivation_lines (seen lines.now) result }
{
    if lines.is_empty() {
        return Err(Stop::At(0));
    }
    let Some(count) = read_derivation_line(alloc, lines[0])? else {
        return Err(Stop::At(0));
    };
    match read_derived(alloc, &lines[1..], count) {
        Ok(lines) => Ok(Derivation { lines }),
        Err(stop) => Err(stop.behind(1)),
    }
}

/// The first lines, so many at most.
fn up_to<'a>(lines: &'a [&'a [u8]], count: u32) -> &'a [&'a [u8]]
    ensures { result.now ≡ take count lines.now }
{
    if lines.len() > count as usize {
        &lines[..count as usize]
    } else {
        lines
    }
}

fn read_labels(alloc: Global, lines: &[&[u8]], count: u32) -> Result<List<Text>, Stop>
    ensures { Parses (IsListOf IsUtf8 count) (map label_line) (seen lines.now) result }
{
    let found = front_labels(alloc, up_to(lines, count))?;
    let number = found.len();
    if number < count as usize {
        return Err(Stop::At(number));
    }
    Ok(found)
}

fn read_constraints(
    alloc: Global,
    labels: &[Text],
    lines: &[&[u8]],
    count: u32,
) -> Result<List<Constraint>, Stop>
    requires { IsCount (length labels.now) }
    ensures { Parses (IsListOf (IsConstraintOver labels.now) count) (map constraint_line) (seen lines.now) result }
{
    let found = front_constraints(alloc, labels, up_to(lines, count))?;
    let number = found.len();
    if number < count as usize {
        return Err(Stop::At(number));
    }
    Ok(found)
}

fn read_derived(alloc: Global, lines: &[&[u8]], count: u32) -> Result<List<Line>, Stop>
    ensures { Parses (IsListOf IsLine count) (map derived_line) (seen lines.now) result }
{
    let found = front_lines(alloc, up_to(lines, count))?;
    let number = found.len();
    if number < count as usize {
        return Err(Stop::At(number));
    }
    Ok(found)
}
