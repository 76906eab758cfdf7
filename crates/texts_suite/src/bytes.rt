use osgi_version::{NoMemory, Text};
use std::alloc::Global;

/// The bytes that the text's characters have as their numbers: how a row spells bytes that are no UTF-8. A character
/// above 255 is the byte `?`.
pub fn bytes_of(alloc: Global, text: &Text) -> Result<Vec<u8>, NoMemory> {
    let mut bytes = Vec::new(alloc);
    for character in text.as_str().chars() {
        bytes.push(u8::try_from(u32::from(character)).unwrap_or(b'?'))?;
    }
    Ok(bytes)
}
