//! Writes keys.

ghost use Rattle.std.specs.Prelude.{◌≡◌, ◌++◌, [], IfOk, OnOk, codes};
ghost use Rattle.std.specs.Str.{IsAscii};
ghost use Rattle.inf_keys.specs.declared.key.Owner.TheVariants.{Unit};
ghost use Rattle.inf_keys.specs.declared.key.Part.TheVariants as part;
ghost use Rattle.inf_keys.specs.KeyText.{row_text, part_text, owner_text, key_text};
ghost use Rattle.inf_keys.specs.NameTables.{word_name};

use crate::fields::{Phase, PhaseField};
use crate::key::{Key, Owner, Part};
use crate::names::{
    artifact_field_name, phase_name, property_field_name, provided_field_name, required_field_name,
    single_name,
};
use crate::words::{Word, word_name};
use osgi_version::{NoMemory, Text, push_number};
use std::alloc::Global;

fn push_dot(text: &mut Vec<u8>) -> Result<(), NoMemory>
    ensures { OnOk result (text.new.items ≡ text.old.items ++ codes ".") }
{
    text.push(b'.')?;
    Ok(())
}

fn push(text: &mut Vec<u8>, word: &[u8]) -> Result<(), NoMemory>
    ensures { OnOk result (text.new.items ≡ text.old.items ++ word.now) }
{
    text.extend_from_slice(word)?;
    Ok(())
}

/// Adds `WORD.N.FIELD`.
fn push_row(text: &mut Vec<u8>, word: Word, row: u32, field: &[u8]) -> Result<(), NoMemory>
    ensures { OnOk result (text.new.items ≡ text.old.items ++ row_text (word_name word) row field.now) }
{
    push(text, word_name(word))?;
    push_dot(text)?;
    push_number(text, row)?;
    push_dot(text)?;
    push(text, field)
}

/// Adds `instructions.PHASE` or `instructions.PHASE.import`.
fn push_instruction(text: &mut Vec<u8>, phase: Phase, field: PhaseField) -> Result<(), NoMemory>
    ensures { OnOk result (text.new.items ≡ text.old.items ++ part_text (part.Instruction phase field)) }
{
    push(text, word_name(Word::Instructions))?;
    push_dot(text)?;
    push(text, phase_name(phase))?;
    match field {
        PhaseField::Text => Ok(()),
        PhaseField::Import => push(text, b".import"),
    }
}

fn push_part(text: &mut Vec<u8>, part: Part) -> Result<(), NoMemory>
    ensures ascii { IsAscii (part_text part) }
    ensures ok { OnOk result (text.new.items ≡ text.old.items ++ part_text part) }
{
    match part {
        Part::Single(single) => push(text, single_name(single)),
        Part::Property(row, field) => {
            push_row(text, Word::Properties, row, property_field_name(field))
        }
        Part::Provided(row, field) => {
            push_row(text, Word::Provides, row, provided_field_name(field))
        }
        Part::Required(row, field) => {
            push_row(text, Word::Requires, row, required_field_name(field))
        }
        Part::Artifact(row, field) => {
            push_row(text, Word::Artifacts, row, artifact_field_name(field))
        }
        Part::Instruction(phase, field) => push_instruction(text, phase, field),
    }
}

/// Adds what stands before the part.
fn push_owner(text: &mut Vec<u8>, owner: Owner) -> Result<(), NoMemory>
    ensures ascii { IsAscii (owner_text owner []) }
    ensures ok { OnOk result (text.new.items ≡ text.old.items ++ owner_text owner []) }
{
    match owner {
        Owner::Host => Ok(()),
        Owner::Unit(unit) => push_unit(text, unit),
    }
}

/// Adds `units.N.`.
fn push_unit(text: &mut Vec<u8>, unit: u32) -> Result<(), NoMemory>
    ensures { OnOk result (text.new.items ≡ text.old.items ++ owner_text (Unit unit) []) }
{
    push(text, b"units.")?;
    push_number(text, unit)?;
    push_dot(text)
}

/// The text of a key.
pub fn write_key(alloc: Global, key: &Key) -> Result<Text, NoMemory>
    ensures { IfOk result (λ text. text ≡ key_text key.now) }
{
    let mut text = Vec::new(alloc);
    push_owner(&mut text, key.owner)?;
    push_part(&mut text, key.part)?;
    Text::from_ascii(alloc, text.as_slice())
}
