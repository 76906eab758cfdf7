//! The words of an answer.

use osgi_version::NoMemory;

/// Adds a word to a line, with a blank before it where it isn't the first.
pub fn say(line: &mut Vec<u8>, word: &str) -> Result<(), NoMemory> {
    if !line.is_empty() {
        line.push(b' ')?;
    }
    line.extend_from_slice(word.as_bytes())?;
    Ok(())
}

pub fn say_number(line: &mut Vec<u8>, number: u64) -> Result<(), NoMemory> {
    let digits = format!(in *line.allocator(); "{number}")?;
    say(line, digits.as_str())
}
