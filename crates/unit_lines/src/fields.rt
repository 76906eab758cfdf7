//! The pieces of a line.

ghost use Rattle.std.specs.Prelude.{◌≡◌, ◌==◌, IfOk, All, map};
ghost use Rattle.std.specs.List.{slice_split};
ghost use Rattle.std.specs.Str.{IsUtf8};
ghost use Rattle.osgi_version.specs.Field.{field};
ghost use Rattle.unit_lines.specs.Line.{seen};
ghost use Rattle.unit_lines.specs.Reading.{IsReading};

use osgi_version::{List, NoMemory, Text, read_field};
use std::alloc::Global;

/// What stands between the blanks.
pub(crate) fn pieces_of(alloc: Global, line: &[u8]) -> Result<Vec<&[u8]>, NoMemory>
    ensures { IfOk result (λ pieces. seen pieces.items ≡ slice_split (λ b. b == 32) line.now) }
{
    let pieces = line.split(|byte| *byte == b' ').collect(alloc)?;
    Ok(pieces)
}

/// The texts that have these fields.
pub(crate) fn texts_of(alloc: Global, fields: &[&[u8]]) -> Result<Option<List<Text>>, NoMemory>
    ensures { IfOk result (IsReading (All IsUtf8) (map field) (seen fields.now)) }
{
    let mut texts = List::new(alloc);
    for field in fields {
        match read_field(alloc, field)? {
            Some(text) => texts.push(text)?,
            None => return Ok(None),
        }
    }
    Ok(Some(texts))
}
