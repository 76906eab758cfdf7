ghost use Rattle.std.specs.Prelude.{IfOk};
ghost use Rattle.std.specs.Str.{IsUtf8};
ghost use Rattle.osgi_version.specs.Field.{field};
ghost use Rattle.deriv_check.specs.Reading.{Reading};

use osgi_version::{NoMemory, Text};
use std::alloc::Global;

/// Reads the text that a field stands for, as each word of a line is read.
pub(crate) fn read_field(alloc: Global, word: &[u8]) -> Result<Option<Text>, NoMemory>
    ensures { IfOk result (Reading IsUtf8 field word.now) }
{
    osgi_version::read_field(alloc, word)
}
