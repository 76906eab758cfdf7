ghost use Rattle.std.specs.Prelude.{◌≡◌, ◌≤◌, length};
ghost use Rattle.std.specs.Option.{option_map};
ghost use Rattle.inf_keys.specs.Cut.{first_word, behind_first};

fn word_length(text: &[u8]) -> usize
    ensures value { result ≡ length (first_word text.now) }
    ensures within { result ≤ length text.now }
{
    text.iter().take_while(|byte| **byte != b'.').count()
}

/// What stands before the first dot, and what stands behind it, where there is one.
pub(crate) fn cut(text: &[u8]) -> (&[u8], Option<&[u8]>)
    ensures first { result.0.now ≡ first_word text.now }
    ensures behind { option_map (λ rest. rest.now) result.1 ≡ behind_first text.now }
{
    let (word, rest) = text.split_at(word_length(text));
    match rest {
        [] => (word, None),
        [_, behind @ ..] => (word, Some(behind)),
    }
}
