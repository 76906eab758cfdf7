//! Reads keys.

ghost use Rattle.std.specs.Prelude.{◌≡◌};
ghost use Rattle.std.specs.Option.{option_map};
ghost use Rattle.inf_keys.specs.Meaning.{has, host_has, Means};
ghost use Rattle.inf_keys.specs.KeyReading.{unit_of, owner_in, owned, key_reading};

use crate::cut::cut;
use crate::fields::Single;
use crate::key::{Key, Owner, Part};
use crate::parts::{part_reading, row_in};
use crate::reading::Reading;

/// Whether a host has the part: its id and its version are those of the folder's name.
fn host_has(part: Part) -> bool
    ensures { result ≡ host_has part }
{
    match part {
        Part::Single(single) => matches!(
            single,
            Single::UpdateId
                | Single::UpdateRange
                | Single::UpdateSeverity
                | Single::UpdateDescription
        ),
        Part::Artifact(_, _) => false,
        Part::Property(_, _)
        | Part::Provided(_, _)
        | Part::Required(_, _)
        | Part::Instruction(_, _) => true,
    }
}

fn has(owner: Owner, part: Part) -> bool
    ensures { result ≡ has owner part }
{
    match owner {
        Owner::Host => host_has(part),
        Owner::Unit(_) => true,
    }
}

/// The unit of the number before the first dot, and what stands behind it.
fn unit_of(text: &[u8]) -> Option<(Owner, &[u8])>
    ensures { option_map (λ found. (found.0, found.1.now)) result ≡ unit_of text.now }
{
    let (unit, part) = row_in(text)?;
    Some((Owner::Unit(unit), part))
}

/// Whose part the text names, and what stands behind the owner.
#[tactic(auto, unfolding(crate::specs::KeyReading::owner_in))]
fn owner_in(text: &[u8]) -> Option<(Owner, &[u8])>
    ensures { option_map (λ found. (found.0, found.1.now)) result ≡ owner_in text.now }
{
    let (word, rest) = cut(text);
    match rest {
        Some(rest) if word == b"units".as_slice() => unit_of(rest),
        _ => Some((Owner::Host, text)),
    }
}

/// What an owner's part means.
fn owned(owner: Owner, reading: Reading<Part>) -> Reading<Key>
    ensures { result ≡ owned owner reading }
{
    match reading {
        Reading::Meaning(part) if has(owner, part) => Reading::Meaning(Key { owner, part }),
        Reading::Meaning(_) | Reading::Unknown => Reading::Unknown,
        Reading::Silent => Reading::Silent,
        Reading::LeftOut => Reading::LeftOut,
    }
}

fn key_reading(text: &[u8]) -> Reading<Key>
    ensures { result ≡ key_reading text.now }
{
    match owner_in(text) {
        Some((owner, part)) => owned(owner, part_reading(part)),
        None => Reading::Unknown,
    }
}

/// What a key of a p2.inf means. No text has two meanings, and no meaning has two texts.
pub fn read_key(text: &[u8]) -> Reading<Key>
    ensures { Means text.now result }
{
    key_reading(text)
}
