//! Hashes by which units are looked up. They take no memory, and what is found by one is compared in whole. The hash
//! has a fixed seed.

ghost use Rattle.std.specs.Prelude.{◌≡◌};
ghost use Rattle.unit_catalog.specs.Keys.{text_key, pair_key, name_key};

use std::hash::{FoldHasher, Hasher};
use unit_model::UnitName;

/// The hash of an id.
pub(crate) fn text_key(text: &[u8]) -> u64
    ensures { result ≡ text_key text.now }
{
    let mut hasher = FoldHasher::default();
    hasher.write(text);
    hasher.finish()
}

/// The hash of a namespace and a name.
pub(crate) fn pair_key(namespace: &[u8], name: &[u8]) -> u64
    ensures { result ≡ pair_key namespace.now name.now }
{
    let mut hasher = FoldHasher::default();
    hasher.write(namespace);
    hasher.write(name);
    hasher.finish()
}

/// The hash of the name of a unit.
pub(crate) fn name_key(name: &UnitName) -> u64
    ensures { result ≡ name_key name.now }
{
    let mut hasher = FoldHasher::default();
    hasher.write(name.id.bytes());
    hasher.write_u32(name.version.major);
    hasher.write_u32(name.version.minor);
    hasher.write_u32(name.version.micro);
    hasher.write(name.version.qualifier.bytes());
    hasher.finish()
}
