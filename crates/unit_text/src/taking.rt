//! Reading a unit from the front of a run of lines.

ghost use Rattle.std.specs.Prelude.{◌≡◌, ◌≢◌, ℕ, List, ◌∷◌, true, Some, MatchOption, MatchResult, IfOk, IfErr};
ghost use Rattle.unit_model.specs.declared.name.UnitName.{UnitName};
ghost use Rattle.unit_lines.specs.Line.{seen};
ghost use Rattle.unit_lines.specs.declared.part.Part.TheVariants as parts;
ghost use Rattle.unit_text.specs.Draft.{has, finished, IsStep, IsNamed, NoName};
ghost use Rattle.unit_text.specs.UnitReading.{IsTaken, IsBadLines};

use crate::draft::Draft;
use crate::fault::BadLines;
use osgi_version::NoMemory;
use std::alloc::Global;
use unit_lines::{Part, read_part};
use unit_model::{Unit, UnitName};

/// A unit that stands at the front of a run of lines.
#[derive(Debug, Drop)]
pub struct TakenUnit {
    pub unit: Unit,
    /// How many lines it takes.
    pub lines: usize,
}

/// What a line was to the unit that is read.
#[derive(Clone, Copy)]
pub(crate) enum Step {
    Part,
    End,
    /// No unit has the line there.
    Wrong,
}

fn named(part: Part) -> Option<UnitName>
    ensures { MatchOption result ((name : UnitName) → part ≢ parts.Name name) (λ name. part ≡ parts.Name name) }
{
    match part {
        Part::Name(name) => Some(name),
        _ => None,
    }
}

/// The unit of the first line. None where no unit's text begins with the line.
fn begin(alloc: Global, line: &[u8]) -> Result<Option<Draft>, NoMemory>
    ensures { IfOk result (λ draft. MatchOption draft (NoName line.now) (IsNamed line.now)) }
{
    let Some(part) = read_part(alloc, line)? else {
        return Ok(None);
    };
    match named(part) {
        Some(name) => Ok(Some(Draft::new(alloc, name))),
        None => Ok(None),
    }
}

/// Goes on by one line.
fn advance(alloc: Global, draft: &mut Draft, line: &[u8]) -> Result<Step, NoMemory>
    ensures { IfOk result (IsStep line.now draft.old draft.new) }
{
    let Some(part) = read_part(alloc, line)? else {
        return Ok(Step::Wrong);
    };
    let ends = matches!(&part, Part::End);
    if !draft.put(part)? {
        Ok(Step::Wrong)
    } else if ends {
        Ok(Step::End)
    } else {
        Ok(Step::Part)
    }
}

fn finish(draft: Draft, lines: usize) -> Result<TakenUnit, BadLines>
    requires { has draft.update ≡ true }
    ensures { MatchResult result (λ taken. (finished draft ≡ Some taken.unit) × (taken.lines ≡ lines)) (λ _. ⊥) }
{
    match draft.finish() {
        Some(unit) => Ok(TakenUnit { unit, lines }),
        None => unreachable!(),
    }
}

/// Goes on behind the first line.
fn read_rest(alloc: Global, draft: Draft, rest: &[&[u8]]) -> Result<TakenUnit, BadLines>
    ensures taken { (first : List ℕ) → IsNamed first draft → IfOk result (IsTaken (first ∷ seen rest.now)) }
    ensures refused { (first : List ℕ) → IsNamed first draft → IfErr result (IsBadLines (first ∷ seen rest.now)) }
{
    let mut draft = draft;
    for (place, line) in rest.iter().enumerate() {
        match advance(alloc, &mut draft, line)? {
            Step::Part => {}
            Step::End => return finish(draft, place + 2),
            Step::Wrong => {
                return Err(BadLines::Line {
                    at: place as u64 + 2,
                });
            }
        }
    }
    Err(BadLines::CutOff)
}

/// The unit whose lines stand first. Lines are without their LF. Takes time in line with the unit's lines.
pub fn take_unit(alloc: Global, lines: &[&[u8]]) -> Result<TakenUnit, BadLines>
    ensures taken { IfOk result (IsTaken (seen lines.now)) }
    ensures refused { IfErr result (IsBadLines (seen lines.now)) }
{
    let [first, rest @ ..] = lines else {
        return Err(BadLines::CutOff);
    };
    match begin(alloc, first)? {
        Some(draft) => read_rest(alloc, draft, rest),
        None => Err(BadLines::Line { at: 1 }),
    }
}
