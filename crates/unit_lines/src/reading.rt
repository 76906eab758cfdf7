//! Reading one line.

ghost use Rattle.std.specs.Prelude.{◌≡◌, IfOk, MatchOption};
ghost use Rattle.unit_lines.specs.Parts.{IsLineOf, part_texts};
ghost use Rattle.unit_lines.specs.Line.{seen};
ghost use Rattle.unit_lines.specs.Reading.{IsReading, IsPartOf, IsWorded, IsNoPart};
ghost use Rattle.unit_lines.specs.declared.part.Part.{Part};
ghost use Rattle.unit_lines.specs.declared.words.Kind.TheVariants as kind;

use crate::canonical::filter_of;
use crate::fields::{pieces_of, texts_of};
use crate::part::Part;
use crate::rows::{
    RequiredTexts, artifact_of, name_of, phase_of, property_of, provided_of, required_of,
    touchpoint_of, update_of,
};
use crate::words::{Kind, find_kind};
use osgi_version::{NoMemory, Text};
use std::alloc::Global;

fn name_part(alloc: Global, texts: &[Text]) -> Result<Option<Part>, NoMemory>
    ensures { IfOk result (IsReading (IsPartOf kind.Name) part_texts texts.now) }
{
    let [id, version] = texts else {
        return Ok(None);
    };
    match name_of(alloc, id, version)? {
        Some(name) => Ok(Some(Part::Name(name))),
        None => Ok(None),
    }
}

fn filter_part(alloc: Global, texts: &[Text]) -> Result<Option<Part>, NoMemory>
    ensures { IfOk result (IsReading (IsPartOf kind.Filter) part_texts texts.now) }
{
    let [text] = texts else {
        return Ok(None);
    };
    match filter_of(alloc, text)? {
        Some(filter) => Ok(Some(Part::Filter(filter))),
        None => Ok(None),
    }
}

fn update_part(alloc: Global, texts: &[Text]) -> Result<Option<Part>, NoMemory>
    ensures { IfOk result (IsReading (IsPartOf kind.Update) part_texts texts.now) }
{
    let [id, range, severity, description] = texts else {
        return Ok(None);
    };
    match update_of(alloc, id, range, severity, description)? {
        Some(update) => Ok(Some(Part::Update(update))),
        None => Ok(None),
    }
}

fn touchpoint_part(alloc: Global, texts: &[Text]) -> Result<Option<Part>, NoMemory>
    ensures { IfOk result (IsReading (IsPartOf kind.Touchpoint) part_texts texts.now) }
{
    let [id, version] = texts else {
        return Ok(None);
    };
    match touchpoint_of(alloc, id, version)? {
        Some(touchpoint) => Ok(Some(Part::Touchpoint(touchpoint))),
        None => Ok(None),
    }
}

fn property_part(texts: &[Text]) -> Result<Option<Part>, NoMemory>
    ensures { IfOk result (IsReading (IsPartOf kind.Property) part_texts texts.now) }
{
    let [name, value] = texts else {
        return Ok(None);
    };
    let property = property_of(name, value)?;
    Ok(Some(Part::Property(property)))
}

fn provided_part(alloc: Global, texts: &[Text]) -> Result<Option<Part>, NoMemory>
    ensures { IfOk result (IsReading (IsPartOf kind.Provided) part_texts texts.now) }
{
    let [namespace, name, version] = texts else {
        return Ok(None);
    };
    match provided_of(alloc, namespace, name, version)? {
        Some(provided) => Ok(Some(Part::Provided(provided))),
        None => Ok(None),
    }
}

fn required_part(alloc: Global, texts: &[Text]) -> Result<Option<Part>, NoMemory>
    ensures { IfOk result (IsReading (IsPartOf kind.Required) part_texts texts.now) }
{
    let [namespace, name, range, min, max, greedy, filter] = texts else {
        return Ok(None);
    };
    let texts = RequiredTexts {
        namespace,
        name,
        range,
        min,
        max,
        greedy,
        filter,
    };
    match required_of(alloc, &texts)? {
        Some(required) => Ok(Some(Part::Required(required))),
        None => Ok(None),
    }
}

fn artifact_part(alloc: Global, texts: &[Text]) -> Result<Option<Part>, NoMemory>
    ensures { IfOk result (IsReading (IsPartOf kind.Artifact) part_texts texts.now) }
{
    let [classifier, id, version] = texts else {
        return Ok(None);
    };
    match artifact_of(alloc, classifier, id, version)? {
        Some(artifact) => Ok(Some(Part::Artifact(artifact))),
        None => Ok(None),
    }
}

fn phase_part(texts: &[Text]) -> Result<Option<Part>, NoMemory>
    ensures { IfOk result (IsReading (IsPartOf kind.Phase) part_texts texts.now) }
{
    let [phase, imports, text] = texts else {
        return Ok(None);
    };
    match phase_of(phase, imports, text)? {
        Some(text) => Ok(Some(Part::Phase(text))),
        None => Ok(None),
    }
}

fn singleton_part(texts: &[Text]) -> Option<Part>
    ensures { IsReading (IsPartOf kind.Singleton) part_texts texts.now result }
{
    match texts {
        [] => Some(Part::Singleton),
        _ => None,
    }
}

fn end_part(texts: &[Text]) -> Option<Part>
    ensures { IsReading (IsPartOf kind.End) part_texts texts.now result }
{
    match texts {
        [] => Some(Part::End),
        _ => None,
    }
}

/// The part of this kind with these texts.
fn part_of(alloc: Global, kind: Kind, texts: &[Text]) -> Result<Option<Part>, NoMemory>
    ensures { IfOk result (IsReading (IsPartOf kind) part_texts texts.now) }
{
    match kind {
        Kind::Name => name_part(alloc, texts),
        Kind::Singleton => Ok(singleton_part(texts)),
        Kind::Filter => filter_part(alloc, texts),
        Kind::Update => update_part(alloc, texts),
        Kind::Touchpoint => touchpoint_part(alloc, texts),
        Kind::Property => property_part(texts),
        Kind::Provided => provided_part(alloc, texts),
        Kind::Required => required_part(alloc, texts),
        Kind::Artifact => artifact_part(alloc, texts),
        Kind::Phase => phase_part(texts),
        Kind::End => Ok(end_part(texts)),
    }
}

/// The part of a line with this word and these fields.
fn worded_part(alloc: Global, word: &[u8], fields: &[&[u8]]) -> Result<Option<Part>, NoMemory>
    ensures { IfOk result (λ part. MatchOption part (IsNoPart word.now (seen fields.now)) (IsWorded word.now (seen fields.now))) }
{
    let Some(kind) = find_kind(word) else {
        return Ok(None);
    };
    match texts_of(alloc, fields)? {
        Some(texts) => part_of(alloc, kind, texts.items()),
        None => Ok(None),
    }
}

/// The part that a line without its LF says. None exactly where it is the line of no part: each part that is in its form
/// has one line, which is that of no other. Takes time in line with the line.
pub fn read_part(alloc: Global, line: &[u8]) -> Result<Option<Part>, NoMemory>
    ensures { IfOk result (λ part. MatchOption part ((p : Part) → ¬ (IsLineOf line.now p)) (IsLineOf line.now)) }
{
    let pieces = pieces_of(alloc, line)?;
    match pieces.as_slice() {
        [word, fields @ ..] => worded_part(alloc, word, fields),
        [] => Ok(None),
    }
}
