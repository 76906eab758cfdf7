ghost use Rattle.std.specs.Prelude.{◌∷◌, length, IfOk};
ghost use Rattle.deriv_check.specs.EvidenceForm.{IsCount, IsConstraintOver};
ghost use Rattle.deriv_check.specs.EvidenceText.{constraint_line, constraint_words};
ghost use Rattle.deriv_check.specs.Terms.{constraint_parts};
ghost use Rattle.deriv_check.specs.Reading.{Reading, IsFront, seen};

use crate::normality::is_normal;
use crate::numbers::read_number;
use crate::origin_reader::read_origin;
use crate::term_reader::front_terms;
use crate::words::words;
use osgi_version::{List, NoMemory, Text};
use pb_core::Constraint;
use std::alloc::Global;

/// The constraints that the lines begin with.
pub(crate) fn front_constraints(
    alloc: Global,
    labels: &[Text],
    lines: &[&[u8]],
) -> Result<List<Constraint>, NoMemory>
    requires { IsCount (length labels.now) }
    ensures { IfOk result (IsFront (IsConstraintOver labels.now) constraint_line (seen lines.now)) }
{
    let mut found = List::new(alloc);
    for line in lines {
        let Some(constraint) = read_constraint(alloc, labels, line)? else {
            return Ok(found);
        };
        found.push(constraint)?;
    }
    Ok(found)
}

fn read_constraint(
    alloc: Global,
    labels: &[Text],
    line: &[u8],
) -> Result<Option<Constraint>, NoMemory>
    requires { IsCount (length labels.now) }
    ensures { IfOk result (Reading (IsConstraintOver labels.now) constraint_line line.now) }
{
    let words = words(alloc, line)?;
    read_words(alloc, labels, &words)
}

fn read_words(
    alloc: Global,
    labels: &[Text],
    words: &[&[u8]],
) -> Result<Option<Constraint>, NoMemory>
    requires { IsCount (length labels.now) }
    ensures { IfOk result (Reading (IsConstraintOver labels.now) constraint_words (seen words.now)) }
{
    if words.len() < 3 {
        return Ok(None);
    }
    if words[0] != b"c".as_slice() {
        return Ok(None);
    }
    read_parts(alloc, labels, words[1], words[2], &words[3..])
}

/// Reads the origin, the degree and the terms of a constraint.
fn read_parts(
    alloc: Global,
    labels: &[Text],
    origin: &[u8],
    degree: &[u8],
    terms: &[&[u8]],
) -> Result<Option<Constraint>, NoMemory>
    requires { IsCount (length labels.now) }
    ensures { IfOk result (Reading (IsConstraintOver labels.now) constraint_parts (origin.now ∷ degree.now ∷ seen terms.now)) }
{
    let Some(number) = read_number(alloc, degree)? else {
        return Ok(None);
    };
    let found = front_terms(alloc, terms)?;
    if found.len() < terms.len() {
        return Ok(None);
    }
    if !is_normal(found.items(), number, labels.len()) {
        return Ok(None);
    }
    let Some(origin) = read_origin(alloc, labels, found.items(), origin)? else {
        return Ok(None);
    };
    Ok(Some(Constraint {
        terms: found,
        degree: number,
        origin,
    }))
}
