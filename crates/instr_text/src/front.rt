//! What stands behind the front of a text.

ghost use Rattle.std.specs.Prelude.{◌≡◌};
ghost use Rattle.std.specs.Option.{option_map};
ghost use Rattle.instr_text.specs.Front.{behind};

/// What stands behind this front. None where the text doesn't begin with it.
pub fn behind<'a>(text: &'a str, front: &str) -> Option<&'a str>
    ensures { option_map (λ rest. rest.now) result ≡ behind front.now text.entry.now }
{
    text.strip_prefix(front)
}

/// The same of bytes.
pub fn behind_bytes<'a>(bytes: &'a [u8], front: &[u8]) -> Option<&'a [u8]>
    ensures { option_map (λ rest. rest.now) result ≡ behind front.now bytes.entry.now }
{
    bytes.strip_prefix(front)
}
