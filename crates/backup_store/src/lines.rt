ghost use Rattle.std.specs.Prelude.{◌≡◌, ◌≢◌, ◌++◌, ◌∷◌, [], ℕ, List, Contains, MatchOption, IfSome, IfNone};

/// What comes behind this front.
pub(crate) fn behind<'a>(bytes: &'a [u8], front: &[u8]) -> Option<&'a [u8]>
    ensures { MatchOption result ((rest : List ℕ) → bytes.entry.now ≢ front.now ++ rest) (λ rest. bytes.entry.now ≡ front.now ++ rest.now) }
{
    bytes.strip_prefix(front)
}

/// The first line without its LF, and what comes behind it. None exactly where there is no LF.
pub(crate) fn split_line(bytes: &[u8]) -> Option<(&[u8], &[u8])>
    ensures parts { IfSome result (λ parts. bytes.entry.now ≡ parts.0.now ++ 10 ∷ parts.1.now) }
    ensures line { IfSome result (λ parts. ¬ (Contains parts.0.now 10)) }
    ensures none { IfNone result (¬ (Contains bytes.entry.now 10)) }
{
    let end = bytes.iter().position(|byte| *byte == b'\n')?;
    Some((&bytes[..end], &bytes[end + 1..]))
}

/// The line without its LF, where nothing comes behind it.
pub(crate) fn only_line(bytes: &[u8]) -> Option<&[u8]>
    ensures none { IfNone result ((line : List ℕ) → ¬ (Contains line 10) → bytes.entry.now ≢ line ++ 10 ∷ []) }
    ensures whole { IfSome result (λ line. bytes.entry.now ≡ line.now ++ 10 ∷ []) }
    ensures line { IfSome result (λ line. ¬ (Contains line.now 10)) }
{
    let (line, rest) = split_line(bytes)?;
    if rest.is_empty() { Some(line) } else { None }
}
