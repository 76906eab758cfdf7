ghost use Rattle.std.specs.Prelude.{◌≡◌, ◌↔◌, ◌∷◌, ◌++◌, IsTrue, MatchOption};
ghost use Rattle.std.specs.List.{AllPass};
ghost use Rattle.director_words.specs.Pair.{IsPair};
ghost use Rattle.director_words.specs.Slash.{is_no_equals};

use ldap_filter::is_env_key;

/// Whether a word is `KEY=VALUE`, cut at its first `=`. The value may be empty.
pub(crate) fn is_pair(word: &[u8]) -> bool
    ensures { IsTrue result ↔ IsPair word.now }
{
    match cut_at_equals(word) {
        Some((key, _value)) => is_env_key(key),
        None => false,
    }
}

/// What stands before the first `=` and behind it, where there is one.
fn cut_at_equals(word: &[u8]) -> Option<(&[u8], &[u8])>
    ensures { MatchOption result (AllPass is_no_equals word.now)
        (λ cut. AllPass is_no_equals cut.0.now × (word.now ≡ cut.0.now ++ 61 ∷ cut.1.now)) }
{
    match word.iter().position(|byte| *byte == b'=') {
        Some(at) => Some((&word[..at], &word[at + 1..])),
        None => None,
    }
}
