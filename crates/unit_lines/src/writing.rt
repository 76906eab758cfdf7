//! Writing the lines of a unit's text, each with its LF.

ghost use Rattle.std.specs.Prelude.{◌≡◌, [], ◌∷◌, ◌++◌, OnOk, IfOk, IfSome, map};
ghost use Rattle.osgi_version.specs.Field.{field};
ghost use Rattle.ldap_filter.specs.FilterText.{IsFilter};
ghost use Rattle.unit_lines.specs.Line.{behind_blank, behind_blanks};
ghost use Rattle.unit_lines.specs.Parts.{IsName, IsUpdate, IsTouchpoint, IsProvided, IsRequired, IsArtifact, part_line, asked_of, truth_text, optional_text};
ghost use Rattle.unit_lines.specs.declared.part.Part.TheVariants as part;

use crate::phases::phase_name;
use ldap_filter::Filter;
use osgi_version::{NoMemory, Text, push_field};
use std::alloc::Global;
use unit_model::{
    ArtifactKey, PhaseText, Property, Provided, Required, Touchpoint, UnitName, Update,
};

fn push_word(text: &mut Vec<u8>, word: &str) -> Result<(), NoMemory>
    ensures { OnOk result (text.new.items ≡ text.old.items ++ word.now) }
{
    text.extend_from_slice(word.as_bytes())?;
    Ok(())
}

/// Adds a field behind a blank.
fn push_text(text: &mut Vec<u8>, value: &[u8]) -> Result<(), NoMemory>
    ensures { OnOk result (text.new.items ≡ text.old.items ++ behind_blank (field value.now)) }
{
    text.push(b' ')?;
    push_field(text, value)
}

fn end_line(text: &mut Vec<u8>) -> Result<(), NoMemory>
    ensures { OnOk result (text.new.items ≡ text.old.items ++ 10 ∷ []) }
{
    text.push(b'\n')?;
    Ok(())
}

pub fn push_singleton(text: &mut Vec<u8>) -> Result<(), NoMemory>
    ensures { OnOk result (text.new.items ≡ text.old.items ++ (part_line part.Singleton ++ 10 ∷ [])) }
{
    push_word(text, "singleton")?;
    end_line(text)
}

pub fn push_end(text: &mut Vec<u8>) -> Result<(), NoMemory>
    ensures { OnOk result (text.new.items ≡ text.old.items ++ (part_line part.End ++ 10 ∷ [])) }
{
    push_word(text, "end")?;
    end_line(text)
}

pub fn push_name(text: &mut Vec<u8>, name: &UnitName) -> Result<(), NoMemory>
    requires { IsName name.now }
    ensures { OnOk result (text.new.items ≡ text.old.items ++ (part_line (part.Name name.now) ++ 10 ∷ [])) }
{
    let alloc = *text.allocator();
    let version = name.version.text(alloc)?;
    push_word(text, "unit")?;
    push_text(text, name.id.bytes())?;
    push_text(text, version.bytes())?;
    end_line(text)
}

pub fn push_filter(text: &mut Vec<u8>, filter: &Filter) -> Result<(), NoMemory>
    requires { IsFilter filter.now }
    ensures { OnOk result (text.new.items ≡ text.old.items ++ (part_line (part.Filter filter.now) ++ 10 ∷ [])) }
{
    let alloc = *text.allocator();
    let written = filter.text(alloc)?;
    push_word(text, "filter")?;
    push_text(text, written.bytes())?;
    end_line(text)
}

pub fn push_update(text: &mut Vec<u8>, update: &Update) -> Result<(), NoMemory>
    requires { IsUpdate update.now }
    ensures { OnOk result (text.new.items ≡ text.old.items ++ (part_line (part.Update update.now) ++ 10 ∷ [])) }
{
    let alloc = *text.allocator();
    let severity = update.severity.to_string(alloc)?;
    let range = update.range.text(alloc)?;
    push_word(text, "update")?;
    push_text(text, update.id.bytes())?;
    push_text(text, range.bytes())?;
    push_text(text, severity.as_bytes())?;
    push_text(text, update.description.bytes())?;
    end_line(text)
}

pub fn push_touchpoint(text: &mut Vec<u8>, touchpoint: &Touchpoint) -> Result<(), NoMemory>
    requires { IsTouchpoint touchpoint.now }
    ensures { OnOk result (text.new.items ≡ text.old.items ++ (part_line (part.Touchpoint touchpoint.now) ++ 10 ∷ [])) }
{
    let alloc = *text.allocator();
    let version = touchpoint.version.text(alloc)?;
    push_word(text, "touchpoint")?;
    push_text(text, touchpoint.id.bytes())?;
    push_text(text, version.bytes())?;
    end_line(text)
}

pub fn push_property(text: &mut Vec<u8>, property: &Property) -> Result<(), NoMemory>
    ensures { OnOk result (text.new.items ≡ text.old.items ++ (part_line (part.Property property.now) ++ 10 ∷ [])) }
{
    push_word(text, "property")?;
    push_text(text, property.name.bytes())?;
    push_text(text, property.value.bytes())?;
    end_line(text)
}

pub fn push_provided(text: &mut Vec<u8>, provided: &Provided) -> Result<(), NoMemory>
    requires { IsProvided provided.now }
    ensures { OnOk result (text.new.items ≡ text.old.items ++ (part_line (part.Provided provided.now) ++ 10 ∷ [])) }
{
    let alloc = *text.allocator();
    let version = provided.version.text(alloc)?;
    push_word(text, "provides")?;
    push_text(text, provided.namespace.bytes())?;
    push_text(text, provided.name.bytes())?;
    push_text(text, version.bytes())?;
    end_line(text)
}

fn optional_text(alloc: Global, filter: &Option<Filter>) -> Result<Text, NoMemory>
    requires { IfSome filter.now IsFilter }
    ensures { IfOk result (λ text. text ≡ optional_text filter.now) }
{
    match filter {
        Some(filter) => filter.text(alloc),
        None => Text::from_str(alloc, ""),
    }
}

fn truth_text(truth: bool) -> &'static [u8]
    ensures { result.now ≡ truth_text truth }
{
    if truth { b"1" } else { b"0" }
}

/// How many members the requirement asks for, and whether what matches is taken into the slice.
fn push_asked(text: &mut Vec<u8>, required: &Required) -> Result<(), NoMemory>
    ensures { OnOk result (text.new.items ≡ text.old.items ++ behind_blanks (map field (asked_of required.now))) }
{
    let alloc = *text.allocator();
    let min = required.min.to_string(alloc)?;
    let max = required.max.to_string(alloc)?;
    push_text(text, min.as_bytes())?;
    push_text(text, max.as_bytes())?;
    push_text(text, truth_text(required.greedy))
}

pub fn push_required(text: &mut Vec<u8>, required: &Required) -> Result<(), NoMemory>
    requires { IsRequired required.now }
    ensures { OnOk result (text.new.items ≡ text.old.items ++ (part_line (part.Required required.now) ++ 10 ∷ [])) }
{
    let alloc = *text.allocator();
    let range = required.range.text(alloc)?;
    let filter = optional_text(alloc, &required.filter)?;
    push_word(text, "requires")?;
    push_text(text, required.namespace.bytes())?;
    push_text(text, required.name.bytes())?;
    push_text(text, range.bytes())?;
    push_asked(text, required)?;
    push_text(text, filter.bytes())?;
    end_line(text)
}

pub fn push_artifact(text: &mut Vec<u8>, artifact: &ArtifactKey) -> Result<(), NoMemory>
    requires { IsArtifact artifact.now }
    ensures { OnOk result (text.new.items ≡ text.old.items ++ (part_line (part.Artifact artifact.now) ++ 10 ∷ [])) }
{
    let alloc = *text.allocator();
    let version = artifact.version.text(alloc)?;
    push_word(text, "artifact")?;
    push_text(text, artifact.classifier.bytes())?;
    push_text(text, artifact.id.bytes())?;
    push_text(text, version.bytes())?;
    end_line(text)
}

pub fn push_phase(text: &mut Vec<u8>, phase: &PhaseText) -> Result<(), NoMemory>
    ensures { OnOk result (text.new.items ≡ text.old.items ++ (part_line (part.Phase phase.now) ++ 10 ∷ [])) }
{
    push_word(text, "phase")?;
    push_text(text, phase_name(phase.phase))?;
    push_text(text, phase.imports.bytes())?;
    push_text(text, phase.text.bytes())?;
    end_line(text)
}
