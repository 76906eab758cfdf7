//! Reads what a host or a unit has, behind `units.N.` of a unit.

ghost use Rattle.std.specs.Prelude.{◌≡◌, ◌≤◌, IfSome, codes};
ghost use Rattle.std.specs.Option.{option_map};
ghost use Rattle.inf_keys.specs.declared.key.Part.TheVariants as part;
ghost use Rattle.inf_keys.specs.NameTables.{property_fields, provided_fields, artifact_fields};
ghost use Rattle.inf_keys.specs.KeyReading.{row_in, known, row_part, required_field_of, phase_field_in, instruction_part, word_reading, word_in, lone_reading, part_reading};

use crate::cut::cut;
use crate::fields::PhaseField;
use crate::key::Part;
use crate::names::{
    find_artifact_field, find_passed, find_phase, find_property_field, find_provided_field,
    find_required_field, find_single,
};
use crate::number::number_at_most;
use crate::reading::Reading;
use crate::words::{Word, find_word};

/// The greatest number in a key.
const GREATEST: u32 = 999_999;

/// The field of a requirement that isn't taken.
const MATCH_EXPRESSION: &[u8] = b"matchExp";

/// The number before the first dot, and what stands behind it.
#[tactic(auto, unfolding(crate::specs::KeyReading::row_in))]
pub(crate) fn row_in(text: &[u8]) -> Option<(u32, &[u8])>
    ensures { option_map (λ found. (found.0, found.1.now)) result ≡ row_in text.now }
{
    let (number, rest) = cut(text);
    let rest = rest?;
    let row = number_at_most(GREATEST, number)?;
    Some((row, rest))
}

fn property_part(text: &[u8]) -> Option<Part>
    ensures { result ≡ row_part part.Property property_fields text.now }
{
    let (row, name) = row_in(text)?;
    let field = find_property_field(name)?;
    Some(Part::Property(row, field))
}

fn provided_part(text: &[u8]) -> Option<Part>
    ensures { result ≡ row_part part.Provided provided_fields text.now }
{
    let (row, name) = row_in(text)?;
    let field = find_provided_field(name)?;
    Some(Part::Provided(row, field))
}

fn artifact_part(text: &[u8]) -> Option<Part>
    ensures { result ≡ row_part part.Artifact artifact_fields text.now }
{
    let (row, name) = row_in(text)?;
    let field = find_artifact_field(name)?;
    Some(Part::Artifact(row, field))
}

fn required_reading(text: &[u8]) -> Reading<Part>
    ensures { result ≡ required_field_of (row_in text.now) }
{
    let Some((row, name)) = row_in(text) else {
        return Reading::Unknown;
    };
    if name == MATCH_EXPRESSION {
        return Reading::LeftOut;
    }
    match find_required_field(name) {
        Some(field) => Reading::Meaning(Part::Required(row, field)),
        None => Reading::Unknown,
    }
}

/// The text of a phase, or its imports where `import` stands behind the phase's dot.
fn phase_field(behind: Option<&[u8]>) -> Option<PhaseField>
    ensures { result ≡ phase_field_in (option_map (λ last. last.now) behind.entry) }
{
    match behind {
        None => Some(PhaseField::Text),
        Some(last) if last == b"import".as_slice() => Some(PhaseField::Import),
        Some(_) => None,
    }
}

fn instruction_part(text: &[u8]) -> Option<Part>
    ensures { result ≡ instruction_part text.now }
{
    let (name, behind) = cut(text);
    let phase = find_phase(name)?;
    let field = phase_field(behind)?;
    Some(Part::Instruction(phase, field))
}

fn known(part: Option<Part>) -> Reading<Part>
    ensures { result ≡ known part }
{
    match part {
        Some(part) => Reading::Meaning(part),
        None => Reading::Unknown,
    }
}

/// What stands behind a first word and its dot.
fn word_reading(word: Word, rest: &[u8]) -> Reading<Part>
    ensures { result ≡ word_reading word rest.now }
{
    match word {
        Word::Properties => known(property_part(rest)),
        Word::Provides => known(provided_part(rest)),
        Word::Requires => required_reading(rest),
        Word::Artifacts => known(artifact_part(rest)),
        Word::Instructions => known(instruction_part(rest)),
        Word::MetaRequirements | Word::Licenses => Reading::Silent,
        Word::HostRequirements => Reading::LeftOut,
    }
}

/// A first word, and what stands behind its dot.
#[tactic(auto, unfolding(crate::specs::KeyReading::word_in))]
fn word_in(text: &[u8]) -> Option<(Word, &[u8])>
    ensures { option_map (λ found. (found.0, found.1.now)) result ≡ word_in text.now }
{
    let (name, rest) = cut(text);
    let rest = rest?;
    let word = find_word(name)?;
    Some((word, rest))
}

/// A part without such a first word.
#[tactic(auto, unfolding(crate::specs::KeyReading::lone_reading))]
fn lone_reading(text: &[u8]) -> Reading<Part>
    ensures { result ≡ lone_reading text.now }
{
    if let Some(reading) = find_passed(text) {
        return reading;
    }
    match find_single(text) {
        Some(single) => Reading::Meaning(Part::Single(single)),
        None => Reading::Unknown,
    }
}

#[tactic(auto, unfolding(crate::specs::KeyReading::part_reading))]
pub(crate) fn part_reading(text: &[u8]) -> Reading<Part>
    ensures { result ≡ part_reading text.now }
{
    if text.starts_with(b"copyright") {
        return Reading::Silent;
    }
    match word_in(text) {
        Some((word, rest)) => word_reading(word, rest),
        None => lone_reading(text),
    }
}
