ghost use Rattle.std.specs.Prelude.{◌≡◌, length, slice_get, IfOk};
ghost use Rattle.std.specs.Option.{option_map};
ghost use Rattle.std.specs.Cmp.{partial_equiv_from_equiv};
ghost use Rattle.ldap_filter.specs.EnvPairs.{IsEnv, lowered, value_of};
ghost use Rattle.ldap_filter.specs.EnvEq.{env_eq, env_eq-equiv};

use osgi_version::{NoMemory, Text, Twin};
use std::alloc::Global;
use std::marker::Model;

/// A key and its value.
#[derive(Debug, PartialEq, Eq, Drop)]
pub(crate) struct Entry {
    pub(crate) key: Text,
    pub(crate) value: Text,
}

impl Twin for Entry {
    fn copy(&self) -> Result<Entry, NoMemory> {
        Ok(Entry {
            key: self.key.copy()?,
            value: self.value.copy()?,
        })
    }
}

/// What the attributes of filters are looked up in: keys and their values, rising by the bytes of the keys. A key is
/// 1 to 200 printable ASCII bytes without blank, `=` and capital letters, and a value isn't empty.
#[derive(Debug, Drop)]
pub struct Env {
    pub(crate) entries: Vec<Entry>,
}

impl Model for Env {
    ghost use Rattle.std.specs.Prelude.{List, ℕ};
    ghost use Rattle.ldap_filter.specs.EnvPairs.{IsEnv};

    ghost Value = { List (List ℕ × List ℕ) };

    ghost use Rattle.ldap_filter.specs.EnvSeen.{pairs_seen};

    ghost view = { λ a. pairs_seen a.entries.items };

    ghost invariant = { λ a. IsEnv (pairs_seen a.entries.items) };
}

impl Env {
    ghost use Rattle.std.specs.Prelude.{[]};

    /// An environment without keys.
    pub fn new(alloc: Global) -> Env
        ensures { result ≡ [] }
    {
        Env {
            entries: Vec::new(alloc),
        }
    }

    /// How many keys there are.
    pub fn len(&self) -> usize
        ensures value { result ≡ length self.now }
        ensures form { IsEnv self.now }
    {
        self.entries.len()
    }

    /// The key and the value at a place, from 0. None exactly where the keys end before it.
    pub fn pair(&self, place: usize) -> Option<(&Text, &Text)>
        ensures { option_map (λ p. (p.0.now, p.1.now)) result ≡ slice_get self.now place }
    {
        let entry = self.entries.get(place)?;
        Some((&entry.key, &entry.value))
    }

    /// The value at a key, whose letters may be capital ones. None exactly where there is none.
    pub fn get(&self, key: &[u8]) -> Option<&Text>
        ensures { option_map (λ v. v.now) result ≡ value_of self.now (lowered key.now) }
    {
        for entry in &self.entries {
            if entry.key.bytes().eq_ignore_ascii_case(key) {
                return Some(&entry.value);
            }
        }
        None
    }
}

impl Twin for Env {
    fn copy(&self) -> Result<Env, NoMemory> {
        let mut entries = Vec::new(*self.entries.allocator());
        for entry in &self.entries {
            entries.push(entry.copy()?)?;
        }
        Ok(Env { entries })
    }
}

impl PartialEq for Env {
    ghost eq = { env_eq };

    ghost laws = { partial_equiv_from_equiv env_eq-equiv };

    fn eq(&self, other: &Env) -> bool {
        self.entries == other.entries
    }
}

impl Eq for Env {
    ghost laws = { env_eq-equiv };
}
