//! Answers are written into one text.

use folder_core::After;
use osgi_version::{NoMemory, Text, Twin, push_field};
use std::alloc::Global;
use suite_row::Row;

pub(crate) fn push_word(text: &mut Vec<u8>, word: &str) -> Result<(), NoMemory> {
    text.extend_from_slice(word.as_bytes())?;
    Ok(())
}

/// A blank and a field.
pub(crate) fn push_text(text: &mut Vec<u8>, field: &Text) -> Result<(), NoMemory> {
    text.push(b' ')?;
    push_field(text, field.bytes())
}

/// Each line within brackets. One without its end has no closing bracket.
pub(crate) fn push_lines(text: &mut Vec<u8>, bytes: &[u8]) -> Result<(), NoMemory> {
    let mut begins = true;
    for byte in bytes {
        if begins {
            text.extend_from_slice(b" [")?;
        }
        begins = *byte == b'\n';
        text.push(if begins { b']' } else { *byte })?;
    }
    Ok(())
}

pub(crate) fn after_word(after: After) -> &'static str {
    match after {
        After::Unchanged => " unchanged",
        After::Recover => " recover",
        After::Either => " either",
    }
}

/// The fields of a row behind its first.
pub(crate) fn words_of(alloc: Global, row: &Row) -> Result<Vec<Text>, NoMemory> {
    let mut words = Vec::new(alloc);
    for place in 1..row.len() {
        words.push(row.field(place).copy()?)?;
    }
    Ok(words)
}
