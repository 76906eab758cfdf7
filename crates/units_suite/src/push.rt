//! Parts of an answer.

use osgi_version::{NoMemory, Text, Version, push_field, push_number};
use unit_model::UnitName;

pub(crate) fn push_word(line: &mut Vec<u8>, word: &str) -> Result<(), NoMemory> {
    line.extend_from_slice(word.as_bytes())?;
    Ok(())
}

pub(crate) fn push_truth(line: &mut Vec<u8>, truth: bool) -> Result<(), NoMemory> {
    push_word(line, if truth { "true" } else { "false" })
}

/// A blank, and the text as a field.
pub(crate) fn push_text(line: &mut Vec<u8>, text: &Text) -> Result<(), NoMemory> {
    line.push(b' ')?;
    push_field(line, text.bytes())
}

/// A blank, and the number.
pub(crate) fn push_count(line: &mut Vec<u8>, number: u32) -> Result<(), NoMemory> {
    line.push(b' ')?;
    push_number(line, number)
}

/// The version, with the qualifier where it has one.
pub(crate) fn push_version(line: &mut Vec<u8>, version: &Version) -> Result<(), NoMemory> {
    push_number(line, version.major)?;
    line.push(b'.')?;
    push_number(line, version.minor)?;
    line.push(b'.')?;
    push_number(line, version.micro)?;
    if !version.qualifier.bytes().is_empty() {
        line.push(b'.')?;
        push_field(line, version.qualifier.bytes())?;
    }
    Ok(())
}

/// A blank, the id, `/` and the version.
pub(crate) fn push_name(line: &mut Vec<u8>, name: &UnitName) -> Result<(), NoMemory> {
    push_text(line, &name.id)?;
    line.push(b'/')?;
    push_version(line, &name.version)
}
