//! Values with any bytes between the pieces that are given.

ghost use Rattle.std.specs.Prelude.{◌≡◌, [], ◌∷◌, ◌++◌};
ghost use Rattle.std.specs.Option.{option_map};
ghost use Rattle.std.specs.List.{list_any};
ghost use Rattle.ldap_filter.specs.Pieces.{tails, fits};
ghost use Rattle.ldap_filter.specs.Behind.{behind};

use osgi_version::Text;

/// Whether the value is the pieces in this order, with any bytes between each and the next. Takes time in the
/// value's length times the pieces'.
pub(crate) fn fits(pieces: &[Text], value: &[u8]) -> bool
    ensures { result ≡ fits pieces.now value.now }
{
    match pieces {
        [] => false,
        [only] => only.bytes() == value,
        [first, middle @ .., last] => {
            let first = first.bytes();
            value.starts_with(first) && has_end(middle, last.bytes(), &value[first.len()..])
        }
    }
}

/// Whether some end of the value fits these pieces. The first place of each piece leaves the most to the later ones.
fn has_end(middle: &[Text], last: &[u8], value: &[u8]) -> bool
    ensures { result ≡ list_any (fits (middle.now ++ last.now ∷ [])) (tails value.now) }
{
    let mut rest = value;
    for piece in middle {
        match behind(piece.bytes(), rest) {
            Some(shorter) => rest = shorter,
            None => return false,
        }
    }
    rest.ends_with(last)
}

/// What is behind the first place of the piece in the value.
fn behind<'v>(piece: &[u8], value: &'v [u8]) -> Option<&'v [u8]>
    ensures { option_map (λ r. r.now) result ≡ behind piece.now value.now }
{
    let mut rest = value;
    loop {
        if rest.starts_with(piece) {
            return Some(&rest[piece.len()..]);
        }
        let (_, shorter) = rest.split_first()?;
        rest = shorter;
    }
}
