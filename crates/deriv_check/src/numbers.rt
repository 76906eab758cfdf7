ghost use Rattle.std.specs.Prelude.{◌<◌, ◌≤◌, ◌^◌, IfOk};
ghost use Rattle.std.specs.Fmt.{decimal};
ghost use Rattle.deriv_check.specs.EvidenceForm.{IsCount, IsHint};
ghost use Rattle.deriv_check.specs.EvidenceText.{pair_word};
ghost use Rattle.deriv_check.specs.Reading.{Reading};

use osgi_version::NoMemory;
use std::alloc::Global;

/// The most labels, constraints or lines of an evidence.
const MOST: u32 = 1_000_000_000;

/// Reads decimal digits without a sign or a leading zero.
pub(crate) fn read_number(alloc: Global, word: &[u8]) -> Result<Option<u64>, NoMemory>
    ensures { IfOk result (Reading (λ n. n < 2 ^ 64) decimal word.now) }
{
    let Ok(text) = str::from_utf8(word) else {
        return Ok(None);
    };
    let Ok(number) = text.parse::<u64>() else {
        return Ok(None);
    };
    // The standard library also takes a `+` and leading zeros.
    let digits = number.to_string(alloc)?;
    if digits.as_bytes() == word {
        Ok(Some(number))
    } else {
        Ok(None)
    }
}

/// Reads a number that fits 32 bits.
pub(crate) fn read_small(alloc: Global, word: &[u8]) -> Result<Option<u32>, NoMemory>
    ensures { IfOk result (Reading IsHint decimal word.now) }
{
    let Some(number) = read_number(alloc, word)? else {
        return Ok(None);
    };
    Ok(u32::try_from(number).ok())
}

/// Reads how many labels, constraints or lines there are.
pub(crate) fn read_count(alloc: Global, word: &[u8]) -> Result<Option<u32>, NoMemory>
    ensures { IfOk result (Reading IsCount decimal word.now) }
{
    match read_small(alloc, word)? {
        Some(count) if count <= MOST => Ok(Some(count)),
        _ => Ok(None),
    }
}
