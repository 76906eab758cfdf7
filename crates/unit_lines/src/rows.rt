//! Parts by the texts of their fields.

ghost use Rattle.std.specs.Prelude.{◌≡◌, [], ◌∷◌, IfOk};
ghost use Rattle.unit_lines.specs.Parts.{IsName, IsUpdate, IsTouchpoint, IsProvided, IsRequired, IsArtifact, IsPhase, name_texts, update_texts, touchpoint_texts, property_texts, provided_texts, required_texts, artifact_texts, phase_texts};
ghost use Rattle.unit_lines.specs.Reading.{IsReading, IsAsked, asked_texts, all_texts};

use crate::canonical::{number_of, optional_filter_of, range_of, truth_of, version_of};
use crate::phases::find_phase;
use osgi_version::{NoMemory, Text, Twin};
use std::alloc::Global;
use unit_model::{
    ArtifactKey, PhaseText, Property, Provided, Required, Touchpoint, UnitName, Update, is_unit_id,
};

pub(crate) fn name_of(
    alloc: Global,
    id: &Text,
    version: &Text,
) -> Result<Option<UnitName>, NoMemory>
    ensures { IfOk result (IsReading IsName name_texts (id.now ∷ version.now ∷ [])) }
{
    if !is_unit_id(id.bytes()) {
        return Ok(None);
    }
    let id = id.copy()?;
    match version_of(alloc, version)? {
        Some(version) => Ok(Some(UnitName { id, version })),
        None => Ok(None),
    }
}

pub(crate) fn update_of(
    alloc: Global,
    id: &Text,
    range: &Text,
    severity: &Text,
    description: &Text,
) -> Result<Option<Update>, NoMemory>
    ensures { IfOk result (IsReading IsUpdate update_texts (id.now ∷ range.now ∷ severity.now ∷ description.now ∷ [])) }
{
    let Some(severity) = number_of(alloc, severity)? else {
        return Ok(None);
    };
    let id = id.copy()?;
    let description = description.copy()?;
    match range_of(alloc, range)? {
        Some(range) => Ok(Some(Update {
            id,
            range,
            severity,
            description,
        })),
        None => Ok(None),
    }
}

pub(crate) fn touchpoint_of(
    alloc: Global,
    id: &Text,
    version: &Text,
) -> Result<Option<Touchpoint>, NoMemory>
    ensures { IfOk result (IsReading IsTouchpoint touchpoint_texts (id.now ∷ version.now ∷ [])) }
{
    let id = id.copy()?;
    match version_of(alloc, version)? {
        Some(version) => Ok(Some(Touchpoint { id, version })),
        None => Ok(None),
    }
}

pub(crate) fn property_of(name: &Text, value: &Text) -> Result<Property, NoMemory>
    ensures { IfOk result (λ property. property_texts property ≡ name.now ∷ value.now ∷ []) }
{
    let name = name.copy()?;
    let value = value.copy()?;
    Ok(Property { name, value })
}

pub(crate) fn provided_of(
    alloc: Global,
    namespace: &Text,
    name: &Text,
    version: &Text,
) -> Result<Option<Provided>, NoMemory>
    ensures { IfOk result (IsReading IsProvided provided_texts (namespace.now ∷ name.now ∷ version.now ∷ [])) }
{
    let namespace = namespace.copy()?;
    let name = name.copy()?;
    match version_of(alloc, version)? {
        Some(version) => Ok(Some(Provided {
            namespace,
            name,
            version,
        })),
        None => Ok(None),
    }
}

/// The texts of a requirement's fields.
#[derive(Clone, Copy)]
pub(crate) struct RequiredTexts<'a> {
    pub namespace: &'a Text,
    pub name: &'a Text,
    pub range: &'a Text,
    pub min: &'a Text,
    pub max: &'a Text,
    pub greedy: &'a Text,
    pub filter: &'a Text,
}

/// How many members a requirement asks for, and whether what matches is taken into the slice.
#[derive(Clone, Copy)]
struct Asked {
    min: u32,
    max: u32,
    greedy: bool,
}

fn asked_of(alloc: Global, min: &Text, max: &Text, greedy: &Text) -> Result<Option<Asked>, NoMemory>
    ensures { IfOk result (IsReading IsAsked asked_texts (min.now ∷ max.now ∷ greedy.now ∷ [])) }
{
    let Some(greedy) = truth_of(greedy) else {
        return Ok(None);
    };
    let Some(min) = number_of(alloc, min)? else {
        return Ok(None);
    };
    match number_of(alloc, max)? {
        Some(max) => Ok(Some(Asked { min, max, greedy })),
        None => Ok(None),
    }
}

pub(crate) fn required_of(
    alloc: Global,
    texts: &RequiredTexts<'_>,
) -> Result<Option<Required>, NoMemory>
    ensures { IfOk result (IsReading IsRequired required_texts (all_texts texts.now)) }
{
    let Some(asked) = asked_of(alloc, texts.min, texts.max, texts.greedy)? else {
        return Ok(None);
    };
    let Some(range) = range_of(alloc, texts.range)? else {
        return Ok(None);
    };
    let namespace = texts.namespace.copy()?;
    let name = texts.name.copy()?;
    match optional_filter_of(alloc, texts.filter)? {
        Some(filter) => Ok(Some(Required {
            namespace,
            name,
            range,
            filter,
            min: asked.min,
            max: asked.max,
            greedy: asked.greedy,
        })),
        None => Ok(None),
    }
}

pub(crate) fn artifact_of(
    alloc: Global,
    classifier: &Text,
    id: &Text,
    version: &Text,
) -> Result<Option<ArtifactKey>, NoMemory>
    ensures { IfOk result (IsReading IsArtifact artifact_texts (classifier.now ∷ id.now ∷ version.now ∷ [])) }
{
    if !is_unit_id(classifier.bytes()) || !is_unit_id(id.bytes()) {
        return Ok(None);
    }
    let classifier = classifier.copy()?;
    let id = id.copy()?;
    match version_of(alloc, version)? {
        Some(version) => Ok(Some(ArtifactKey {
            classifier,
            id,
            version,
        })),
        None => Ok(None),
    }
}

pub(crate) fn phase_of(
    phase: &Text,
    imports: &Text,
    text: &Text,
) -> Result<Option<PhaseText>, NoMemory>
    ensures { IfOk result (IsReading IsPhase phase_texts (phase.now ∷ imports.now ∷ text.now ∷ [])) }
{
    if imports.bytes().is_empty() && text.bytes().is_empty() {
        return Ok(None);
    }
    let Some(phase) = find_phase(phase.bytes()) else {
        return Ok(None);
    };
    let imports = imports.copy()?;
    let text = text.copy()?;
    Ok(Some(PhaseText {
        phase,
        imports,
        text,
    }))
}
