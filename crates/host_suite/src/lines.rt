use osgi_version::NoMemory;
use std::alloc::Global;

pub fn push(line: &mut Vec<u8>, word: &str) -> Result<(), NoMemory> {
    line.extend_from_slice(word.as_bytes())?;
    Ok(())
}

/// `ok` or `failed`.
pub fn push_done(line: &mut Vec<u8>, is_done: bool) -> Result<(), NoMemory> {
    push(line, if is_done { "ok" } else { "failed" })
}

pub fn push_count(line: &mut Vec<u8>, count: usize) -> Result<(), NoMemory> {
    let digits = count.to_string(*line.allocator())?;
    push(line, digits.as_str())
}

pub fn text_of(alloc: Global, text: &str) -> Result<String, NoMemory> {
    Ok(String::from_str(alloc, text)?)
}
