ghost use Rattle.std.specs.Prelude.{◌≡◌, ◌==◌, IfOk};
ghost use Rattle.std.specs.List.{slice_split};
ghost use Rattle.deriv_check.specs.EvidenceForm.{whole_lines};
ghost use Rattle.deriv_check.specs.Reading.{seen};

use osgi_version::NoMemory;
use std::alloc::Global;

/// What stands between the blanks of a line.
pub(crate) fn words(alloc: Global, line: &[u8]) -> Result<Vec<&[u8]>, NoMemory>
    ensures { IfOk result (λ words. seen words.items ≡ slice_split (λ b. b == 32) line.now) }
{
    let words = line.split(|byte| *byte == b' ').collect(alloc)?;
    Ok(words)
}

/// The lines of a text that end with LF, without it.
pub(crate) fn whole_lines(alloc: Global, text: &[u8]) -> Result<Vec<&[u8]>, NoMemory>
    ensures { IfOk result (λ lines. seen lines.items ≡ whole_lines text.now) }
{
    let mut lines: Vec<&[u8]> = text.split(|byte| *byte == b'\n').collect(alloc)?;
    // What stands behind the last LF is no whole line.
    lines.pop();
    Ok(lines)
}
