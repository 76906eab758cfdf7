//! Changing an environment.

ghost use Rattle.std.specs.Prelude.{◌≡◌, ◌↔◌, ◌<◌, ◌≤◌, ◌≢◌, [], ◌∷◌, ◌++◌, length, take, drop, vec_len, Err, IsTrue, IfErr, IfOk, OnOk, OnErr};
ghost use Rattle.ldap_filter.specs.EnvPairs.{IsEnv, IsEnvPair, IsEnvKey, Sets, lowered, is_key_byte};
ghost use Rattle.ldap_filter.specs.EnvFault.{IsEnvFault};
ghost use Rattle.ldap_filter.specs.EnvPlace.{IsPlace, Changes};
ghost use Rattle.ldap_filter.specs.EnvSeen.{pair_seen, pairs_seen};

use crate::env::{Entry, Env};
use crate::env_fault::EnvFault;
use osgi_version::{NoMemory, Text, Twin};
use std::alloc::Global;
use std::cmp::Ordering;

/// How many bytes a key may have.
const LONGEST_KEY: usize = 200;

impl Env {
    /// Sets the value at a key, whose capital letters become small ones. An empty value takes the key away. An `Err`
    /// changes nothing.
    pub fn set(&mut self, key: &[u8], value: &Text) -> Result<(), EnvFault>
        ensures ok { OnOk result (Sets self.old self.new (lowered key.now) value.now) }
        ensures key { OnOk result (IsEnvKey key.now) }
        ensures bad_key { ¬ (IsEnvKey key.now) → result ≡ Err EnvFault.BadKey }
        ensures refused { IfErr result (IsEnvFault key.now) }
        ensures err { OnErr result (self.new ≡ self.old) }
    {
        if !is_env_key(key) {
            return Err(EnvFault::BadKey);
        }
        let key = lowered(*self.entries.allocator(), key)?;
        if value.bytes().is_empty() {
            remove(&mut self.entries, key.bytes());
            return Ok(());
        }
        let value = value.copy()?;
        put(&mut self.entries, Entry { key, value })?;
        Ok(())
    }
}

fn put(entries: &mut Vec<Entry>, entry: Entry) -> Result<(), NoMemory>
    requires env { IsEnv (pairs_seen entries.old.items) }
    requires form { IsEnvPair (pair_seen entry) }
    ensures ok { OnOk result (Changes entries.old.items entries.new.items entry.key entry.value) }
    ensures err { OnErr result (entries.new.items ≡ entries.old.items) }
{
    match place_of(entries.as_slice(), entry.key.bytes()) {
        Ok(place) => entries[place] = entry,
        Err(place) => entries.insert(place, entry)?,
    }
    Ok(())
}

fn remove(entries: &mut Vec<Entry>, key: &[u8])
    requires { IsEnv (pairs_seen entries.old.items) }
    ensures { Changes entries.old.items entries.new.items key.now [] }
{
    if let Ok(place) = place_of(entries.as_slice(), key) {
        let _ = entries.remove(place);
    }
}

/// Whether these bytes may be a key of an environment: 1 to 200 printable ASCII bytes without blank and `=`.
pub fn is_env_key(key: &[u8]) -> bool
    ensures { IsTrue result ↔ IsEnvKey key.now }
{
    !key.is_empty() && key.len() <= LONGEST_KEY && key.iter().all(|byte| is_key_byte(*byte))
}

fn is_key_byte(byte: u8) -> bool
    ensures { result ≡ is_key_byte byte }
{
    0x21 <= byte && byte <= 0x7E && byte != b'='
}

/// The key with small letters for capital ones.
fn lowered(alloc: Global, key: &[u8]) -> Result<Text, NoMemory>
    requires { IsEnvKey key.now }
    ensures { IfOk result (λ low. low ≡ lowered key.now) }
{
    let low: Vec<u8> = key
        .iter()
        .map(|byte| byte.to_ascii_lowercase())
        .collect(alloc)?;
    Text::from_ascii(alloc, low.as_slice())
}

/// The place of the entry at a key, or where it would be.
fn place_of(entries: &[Entry], key: &[u8]) -> Result<usize, usize>
    ensures { IsPlace entries.now key.now result }
{
    for (place, entry) in entries.iter().enumerate() {
        match entry.key.bytes().cmp(key) {
            Ordering::Less => {}
            Ordering::Equal => return Ok(place),
            Ordering::Greater => return Err(place),
        }
    }
    Err(entries.len())
}
