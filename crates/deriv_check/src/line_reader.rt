ghost use Rattle.std.specs.Prelude.{◌∷◌, ◌++◌, map, codes, IfOk};
ghost use Rattle.std.specs.Fmt.{decimal};
ghost use Rattle.std.specs.Str.{IsUtf8};
ghost use Rattle.deriv_check.specs.EvidenceForm.{IsCount, IsLine};
ghost use Rattle.deriv_check.specs.EvidenceText.{label_line, label_words, derived_line, derived_words, problem_line, problem_words, derivation_line, derivation_words};
ghost use Rattle.deriv_check.specs.Reading.{Reading, IsFront, AreCounts, seen};
ghost use Rattle.deriv_check.specs.Terms.{derived_parts};

use crate::derivation::Line;
use crate::field_reader::read_field;
use crate::numbers::read_count;
use crate::term_reader::{front_hints, front_lits};
use crate::words::words;
use osgi_version::{List, NoMemory, Text};
use std::alloc::Global;

/// The labels that the lines begin with.
pub(crate) fn front_labels(alloc: Global, lines: &[&[u8]]) -> Result<List<Text>, NoMemory>
    ensures { IfOk result (IsFront IsUtf8 label_line (seen lines.now)) }
{
    let mut found = List::new(alloc);
    for line in lines {
        let Some(label) = read_label(alloc, line)? else {
            return Ok(found);
        };
        found.push(label)?;
    }
    Ok(found)
}

/// The lines of a derivation that the lines begin with.
pub(crate) fn front_lines(alloc: Global, lines: &[&[u8]]) -> Result<List<Line>, NoMemory>
    ensures { IfOk result (IsFront IsLine derived_line (seen lines.now)) }
{
    let mut found = List::new(alloc);
    for line in lines {
        let Some(derived) = read_derived(alloc, line)? else {
            return Ok(found);
        };
        found.push(derived)?;
    }
    Ok(found)
}

fn read_label(alloc: Global, line: &[u8]) -> Result<Option<Text>, NoMemory>
    ensures { IfOk result (Reading IsUtf8 label_line line.now) }
{
    let words = words(alloc, line)?;
    read_label_words(alloc, &words)
}

fn read_label_words(alloc: Global, words: &[&[u8]]) -> Result<Option<Text>, NoMemory>
    ensures { IfOk result (Reading IsUtf8 label_words (seen words.now)) }
{
    if words.len() != 2 {
        return Ok(None);
    }
    if words[0] != b"v".as_slice() {
        return Ok(None);
    }
    read_field(alloc, words[1])
}

fn read_derived(alloc: Global, line: &[u8]) -> Result<Option<Line>, NoMemory>
    ensures { IfOk result (Reading IsLine derived_line line.now) }
{
    let words = words(alloc, line)?;
    read_derived_words(alloc, &words)
}

fn read_derived_words(alloc: Global, words: &[&[u8]]) -> Result<Option<Line>, NoMemory>
    ensures { IfOk result (Reading IsLine derived_words (seen words.now)) }
{
    if words.is_empty() {
        return Ok(None);
    }
    if words[0] != b"l".as_slice() {
        return Ok(None);
    }
    read_parts(alloc, &words[1..])
}

/// Reads literals, `;` and hints.
fn read_parts(alloc: Global, words: &[&[u8]]) -> Result<Option<Line>, NoMemory>
    ensures { IfOk result (Reading IsLine derived_parts (seen words.now)) }
{
    let clause = front_lits(alloc, words)?;
    let at = clause.len();
    if at >= words.len() {
        return Ok(None);
    }
    if words[at] != b";".as_slice() {
        return Ok(None);
    }
    let hints = front_hints(alloc, &words[at + 1..])?;
    if hints.len() < words.len() - at - 1 {
        return Ok(None);
    }
    Ok(Some(Line { clause, hints }))
}

/// Reads how many labels and constraints a problem has.
pub(crate) fn read_problem_line(alloc: Global, line: &[u8]) -> Result<Option<(u32, u32)>, NoMemory>
    ensures { IfOk result (Reading AreCounts problem_line line.now) }
{
    let words = words(alloc, line)?;
    read_problem_words(alloc, &words)
}

fn read_problem_words(alloc: Global, words: &[&[u8]]) -> Result<Option<(u32, u32)>, NoMemory>
    ensures { IfOk result (Reading AreCounts problem_words (seen words.now)) }
{
    if words.len() != 3 {
        return Ok(None);
    }
    if words[0] != b"problem".as_slice() {
        return Ok(None);
    }
    let Some(labels) = read_count(alloc, words[1])? else {
        return Ok(None);
    };
    let Some(constraints) = read_count(alloc, words[2])? else {
        return Ok(None);
    };
    Ok(Some((labels, constraints)))
}

/// Reads how many lines a derivation has.
pub(crate) fn read_derivation_line(alloc: Global, line: &[u8]) -> Result<Option<u32>, NoMemory>
    ensures { IfOk result (Reading IsCount derivation_line line.now) }
{
    let words = words(alloc, line)?;
    read_derivation_words(alloc, &words)
}

fn read_derivation_words(alloc: Global, words: &[&[u8]]) -> Result<Option<u32>, NoMemory>
    ensures { IfOk result (Reading IsCount derivation_words (seen words.now)) }
{
    if words.len() != 2 {
        return Ok(None);
    }
    if words[0] != b"derivation".as_slice() {
        return Ok(None);
    }
    read_count(alloc, words[1])
}
