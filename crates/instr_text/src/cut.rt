//! Parts of texts.

ghost use Rattle.std.specs.Prelude.{◌≡◌, ◌+◌, ◌<◌, ◌==◌, length, IfOk};
ghost use Rattle.std.specs.List.{slice_split};
ghost use Rattle.std.specs.Option.{option_map};
ghost use Rattle.instr_text.specs.Cut.{trimmed, cut, before_last, seen, sizes};

use osgi_version::NoMemory;
use std::alloc::Global;

/// The text without the white space at its ends.
pub(crate) fn trim(text: &str) -> &str
    ensures { result.now ≡ trimmed text.now }
{
    text.trim_ascii()
}

/// The bytes without the white space at their ends.
pub fn trim_bytes(bytes: &[u8]) -> &[u8]
    ensures { result.now ≡ trimmed bytes.now }
{
    bytes.trim_ascii()
}

/// What stands before the first mark and behind it. None where there is no mark.
#[tactic(auto, unfolding(crate::specs::Cut::cut))]
pub(crate) fn cut(text: &str, mark: char) -> Option<(&str, &str)>
    requires { mark < 128 }
    ensures { option_map (λ halves. (halves.0.now, halves.1.now)) result ≡ cut mark text.now }
{
    text.split_once(mark)
}

/// What stands before the `)` that the text ends with.
pub(crate) fn before_closing(text: &str) -> Option<&str>
    ensures { option_map (λ front. front.now) result ≡ before_last 41 text.now }
{
    text.strip_suffix(')')
}

/// What stands between the marks.
pub fn split(alloc: Global, text: &str, mark: char) -> Result<Vec<&str>, NoMemory>
    requires { mark < 128 }
    ensures { IfOk result (λ parts. seen parts.items ≡ slice_split (λ b. b == mark) text.now) }
{
    let parts = text.split(mark).collect(alloc)?;
    Ok(parts)
}

/// What stands between the marks in bytes. With one byte behind each, the parts are one byte longer than the bytes.
pub fn split_bytes(alloc: Global, bytes: &[u8], mark: u8) -> Result<Vec<&[u8]>, NoMemory>
    ensures value { IfOk result (λ parts. seen parts.items ≡ slice_split (λ b. b == mark) bytes.now) }
    ensures sizes { IfOk result (λ parts. sizes (seen parts.items) ≡ length bytes.now + 1) }
{
    let parts = bytes.split(|byte| *byte == mark).collect(alloc)?;
    Ok(parts)
}
