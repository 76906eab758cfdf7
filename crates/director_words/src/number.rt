ghost use Rattle.std.specs.Prelude.{◌≡◌, ◌⊎◌, ℕ, IfOk, IfSome, IsErr};
ghost use Rattle.director_words.specs.Number.{DenotesNumber};

use osgi_version::{NoMemory, push_number};
use std::alloc::Global;

/// Reads decimal digits without a sign or a leading zero. None is any other word, and a number past the type.
pub(crate) fn read_number(alloc: Global, word: &str) -> Result<Option<u32>, NoMemory>
    ensures found { IfOk result (λ number. IfSome number (DenotesNumber word.now)) }
    ensures only { (n : ℕ) → DenotesNumber word.now n → (result ≡ Ok (Some n)) ⊎ IsErr result }
{
    let Ok(number) = word.parse::<u32>() else {
        return Ok(None);
    };
    // The standard library also takes a `+` and leading zeros.
    let mut digits = Vec::new(alloc);
    push_number(&mut digits, number)?;
    if digits.as_slice() == word.as_bytes() {
        Ok(Some(number))
    } else {
        Ok(None)
    }
}
