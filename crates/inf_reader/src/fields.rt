//! The values of single keys.

ghost use Rattle.std.specs.Prelude.{◌≡◌};
ghost use Rattle.std.specs.Option.{option_map};
ghost use Rattle.inf_reader.specs.Gives.{Gives};
ghost use Rattle.inf_reader.specs.TableAt.{at};
ghost use Rattle.inf_reader.specs.Parts.{has, text_at, truth_or, needed_text, needed_id, needed_version, version_if_there, range_if_there, number_or, filter_if_there};

use crate::fault::InfRefusal;
use crate::table::Table;
use inf_keys::{Key, write_key};
use ldap_filter::Filter;
use osgi_version::{Range, Text, Version};

impl Table {
    pub(crate) fn has(&self, key: Key) -> bool
        ensures { result ≡ has (at self.now) key }
    {
        self.get(key).is_some()
    }

    /// The text of a key that has one.
    #[tactic(auto, unfolding(crate::specs::Parts::text_at))]
    pub(crate) fn text(&self, key: Key) -> Option<&Text>
        ensures { option_map (λ t. t.now) result ≡ text_at (at self.now) key }
    {
        self.get(key)?.plain()
    }

    #[tactic(auto, unfolding(crate::specs::Parts::truth_or))]
    pub(crate) fn truth_or(&self, key: Key, default: bool) -> bool
        ensures { result ≡ truth_or (at self.now) key default }
    {
        match self.get(key) {
            Some(value) => value.truth(),
            None => default,
        }
    }

    #[tactic(auto, unfolding(crate::specs::Parts::needed_text))]
    pub(crate) fn needed_text(&self, key: Key) -> Result<&Text, InfRefusal>
        ensures { Gives (λ text. text.now) result (needed_text (at self.now) key) }
    {
        match self.text(key) {
            Some(text) => Ok(text),
            None => Err(InfRefusal::BadValue(write_key(self.alloc, &key)?)),
        }
    }

    /// The text of a key, which has the form of a unit's id.
    #[tactic(auto, unfolding(crate::specs::Parts::needed_id))]
    pub(crate) fn needed_id(&self, key: Key) -> Result<&Text, InfRefusal>
        ensures { Gives (λ id. id.now) result (needed_id (at self.now) key) }
    {
        if let Some(value) = self.get(key) {
            if let Some(id) = value.id() {
                return Ok(id);
            }
        }
        Err(InfRefusal::BadValue(write_key(self.alloc, &key)?))
    }

    #[tactic(auto, unfolding(crate::specs::Parts::needed_version))]
    pub(crate) fn needed_version(&self, key: Key) -> Result<&Version, InfRefusal>
        ensures { Gives (λ version. version.now) result (needed_version (at self.now) key) }
    {
        if let Some(value) = self.get(key) {
            if let Some(version) = value.version() {
                return Ok(version);
            }
        }
        Err(InfRefusal::BadValue(write_key(self.alloc, &key)?))
    }

    /// The version of a key. None where the key isn't there.
    #[tactic(auto, unfolding(crate::specs::Parts::version_if_there))]
    pub(crate) fn version(&self, key: Key) -> Result<Option<&Version>, InfRefusal>
        ensures { Gives (λ found. option_map (λ v. v.now) found) result (version_if_there (at self.now) key) }
    {
        let Some(value) = self.get(key) else {
            return Ok(None);
        };
        match value.version() {
            Some(version) => Ok(Some(version)),
            None => Err(InfRefusal::BadValue(write_key(self.alloc, &key)?)),
        }
    }

    /// The range of a key. None where the key isn't there.
    #[tactic(auto, unfolding(crate::specs::Parts::range_if_there))]
    pub(crate) fn range(&self, key: Key) -> Result<Option<&Range>, InfRefusal>
        ensures { Gives (λ found. option_map (λ r. r.now) found) result (range_if_there (at self.now) key) }
    {
        let Some(value) = self.get(key) else {
            return Ok(None);
        };
        match value.range() {
            Some(range) => Ok(Some(range)),
            None => Err(InfRefusal::BadValue(write_key(self.alloc, &key)?)),
        }
    }

    /// The filter of a key. None where the key isn't there.
    #[tactic(auto, unfolding(crate::specs::Parts::filter_if_there))]
    pub(crate) fn filter(&self, key: Key) -> Result<Option<&Filter>, InfRefusal>
        ensures { Gives (λ found. option_map (λ f. f.now) found) result (filter_if_there (at self.now) key) }
    {
        let Some(value) = self.get(key) else {
            return Ok(None);
        };
        match value.filter() {
            Some(filter) => Ok(Some(filter)),
            None => Err(InfRefusal::BadValue(write_key(self.alloc, &key)?)),
        }
    }

    #[tactic(auto, unfolding(crate::specs::Parts::number_or))]
    pub(crate) fn number_or(&self, key: Key, default: u32) -> Result<u32, InfRefusal>
        ensures { Gives (λ number. number) result (number_or (at self.now) key default) }
    {
        let Some(value) = self.get(key) else {
            return Ok(default);
        };
        match value.number() {
            Some(number) => Ok(number),
            None => Err(InfRefusal::BadValue(write_key(self.alloc, &key)?)),
        }
    }
}
