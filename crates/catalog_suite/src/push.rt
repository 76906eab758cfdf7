//! Parts of an answer.

use osgi_version::{NoMemory, push_number};

pub(crate) fn push_word(line: &mut Vec<u8>, word: &str) -> Result<(), NoMemory> {
    line.extend_from_slice(word.as_bytes())?;
    Ok(())
}

/// The number, or `none`.
pub(crate) fn push_found(line: &mut Vec<u8>, found: Option<u32>) -> Result<(), NoMemory> {
    match found {
        Some(number) => push_number(line, number),
        None => push_word(line, "none"),
    }
}

/// Each number behind a blank.
pub(crate) fn push_numbers(line: &mut Vec<u8>, numbers: &[u32]) -> Result<(), NoMemory> {
    for number in numbers {
        line.push(b' ')?;
        push_number(line, *number)?;
    }
    Ok(())
}
