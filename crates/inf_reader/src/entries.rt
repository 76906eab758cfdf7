//! The pairs of a p2.inf, tested in their order.

ghost use Rattle.std.specs.Prelude.{◌≡◌, IfOk, IfSome};
ghost use Rattle.std.specs.Option.{option_map};
ghost use Rattle.osgi_version.specs.VersionText.{IsVersion};
ghost use Rattle.inf_keys.specs.KeyReading.{key_reading};
ghost use Rattle.inf_keys.specs.Meaning.{Means, IsOwner};
ghost use Rattle.inf_reader.specs.Gives.{Gives};
ghost use Rattle.inf_reader.specs.Entries.{taken, entry_of, entries_of};

use crate::fault::InfRefusal;
use inf_keys::{Key, Reading, read_key};
use inf_values::{Place, is_host, place_of, replaced};
use osgi_version::{Text, Twin};
use props_reader::Pairs;
use std::alloc::Global;
use unit_model::UnitName;

/// A pair whose value says something.
#[derive(Debug, Drop)]
pub(crate) struct Entry {
    pub(crate) key: Key,
    pub(crate) place: Place,
    pub(crate) text: Text,
}

fn reading_of(key: &[u8]) -> Reading<Key>
    ensures means { Means key.now result }
    ensures value { result ≡ key_reading key.now }
{
    read_key(key)
}

/// What a key names. None where it says nothing.
#[tactic(auto, unfolding(crate::specs::Entries::taken))]
fn taken(key: &Text) -> Result<Option<Key>, InfRefusal>
    ensures value { Gives (λ found. found) result (taken key_reading key.now) }
    ensures owner { IfOk result (λ found. IfSome found (λ k. IsOwner k.owner)) }
{
    match reading_of(key.bytes()) {
        Reading::Meaning(found) => Ok(Some(found)),
        Reading::Silent => Ok(None),
        Reading::LeftOut => Err(InfRefusal::LeftOutKey(key.copy()?)),
        Reading::Unknown => Err(InfRefusal::UnknownKey(key.copy()?)),
    }
}

/// The entry of a pair. None where its key says nothing.
#[tactic(auto, unfolding(crate::specs::Entries::entry_of))]
fn entry_of(
    alloc: Global,
    host: Option<&UnitName>,
    key: &Text,
    value: &Text,
) -> Result<Option<Entry>, InfRefusal>
    requires { IfSome host (λ h. IsVersion h.now.version) }
    ensures { Gives (λ found. found) result (entry_of key_reading (option_map (λ h. h.now) host.entry) (key.now, value.now)) }
{
    let named = taken(key)?;
    let Some(text) = replaced(alloc, host, value.as_str())? else {
        return Err(InfRefusal::NoHost(key.copy()?));
    };
    let Some(named) = named else {
        return Ok(None);
    };
    if is_host(named.owner) && host.is_none() {
        return Err(InfRefusal::NoHost(key.copy()?));
    }
    Ok(Some(Entry {
        key: named,
        place: place_of(named),
        text,
    }))
}

/// The entries of the pairs.
pub(crate) fn entries_of(
    alloc: Global,
    host: Option<&UnitName>,
    pairs: &Pairs,
) -> Result<Vec<Entry>, InfRefusal>
    requires { IfSome host (λ h. IsVersion h.now.version) }
    ensures { Gives (λ found. found.items) result (entries_of key_reading (option_map (λ h. h.now) host.entry) pairs.now) }
{
    let mut entries = Vec::new(alloc);
    for place in 0..pairs.len() {
        let Some((key, value)) = pairs.pair(place) else {
            unreachable!()
        };
        if let Some(entry) = entry_of(alloc, host, key, value)? {
            entries.push(entry)?;
        }
    }
    Ok(entries)
}
