//! Parts of an answer.

use osgi_version::{NoMemory, Text, push_field};

pub(crate) fn push_word(line: &mut Vec<u8>, word: &str) -> Result<(), NoMemory> {
    line.extend_from_slice(word.as_bytes())?;
    Ok(())
}

/// The word, and the text as a field.
pub(crate) fn push_named(line: &mut Vec<u8>, word: &str, text: &Text) -> Result<(), NoMemory> {
    push_word(line, word)?;
    push_field(line, text.bytes())
}

pub(crate) fn push_wide(line: &mut Vec<u8>, number: u64) -> Result<(), NoMemory> {
    let text = format!(in *line.allocator(); "{number}")?;
    push_word(line, text.as_str())
}

pub(crate) fn push_truth(line: &mut Vec<u8>, truth: bool) -> Result<(), NoMemory> {
    push_word(line, if truth { "true" } else { "false" })
}
