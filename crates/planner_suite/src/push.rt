//! Parts of an answer.

use osgi_version::{NoMemory, Version, push_number};
use unit_model::UnitName;

pub(crate) fn push_word(line: &mut Vec<u8>, word: &str) -> Result<(), NoMemory> {
    line.extend_from_slice(word.as_bytes())?;
    Ok(())
}

/// A blank, and the number.
pub(crate) fn push_next(line: &mut Vec<u8>, number: u32) -> Result<(), NoMemory> {
    line.push(b' ')?;
    push_number(line, number)
}

/// The id, `/` and the version.
pub(crate) fn push_name(line: &mut Vec<u8>, name: &UnitName) -> Result<(), NoMemory> {
    push_word(line, name.id.as_str())?;
    push_word(line, "/")?;
    push_version(line, &name.version)
}

fn push_version(line: &mut Vec<u8>, version: &Version) -> Result<(), NoMemory> {
    push_number(line, version.major)?;
    push_word(line, ".")?;
    push_number(line, version.minor)?;
    push_word(line, ".")?;
    push_number(line, version.micro)
}
