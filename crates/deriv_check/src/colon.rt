ghost use Rattle.std.specs.Prelude.{◌≡◌, ◌∷◌, ◌++◌, IfOk, MatchOption};
ghost use Rattle.deriv_check.specs.EvidenceForm.{IsHint};
ghost use Rattle.deriv_check.specs.EvidenceText.{pair_word};
ghost use Rattle.deriv_check.specs.Colon.{NoColon, ArePair};
ghost use Rattle.deriv_check.specs.Reading.{Reading};

use crate::numbers::read_small;
use osgi_version::NoMemory;
use std::alloc::Global;

/// What stands before the first `:` and behind it, where there is one.
pub(crate) fn cut_at_colon(word: &[u8]) -> Option<(&[u8], &[u8])>
    ensures { MatchOption result (NoColon word.now)
        (λ cut. NoColon cut.0.now × (word.now ≡ cut.0.now ++ 58 ∷ cut.1.now)) }
{
    match word.iter().position(|byte| *byte == b':') {
        Some(at) => Some((&word[..at], &word[at + 1..])),
        None => None,
    }
}

/// Reads two numbers with `:` between them.
pub(crate) fn read_pair(alloc: Global, word: &[u8]) -> Result<Option<(u32, u32)>, NoMemory>
    ensures { IfOk result (Reading ArePair (λ p. pair_word p.0 p.1) word.now) }
{
    let Some((before, behind)) = cut_at_colon(word) else {
        return Ok(None);
    };
    let Some(first) = read_small(alloc, before)? else {
        return Ok(None);
    };
    let Some(second) = read_small(alloc, behind)? else {
        return Ok(None);
    };
    Ok(Some((first, second)))
}
