//! The values of a p2.inf by their keys, and the rows and units that they speak of.

ghost use Rattle.std.specs.Prelude.{◌≡◌, ◌<◌, ◌≤◌, map, IfOk};
ghost use Rattle.std.specs.Option.{option_copied};
ghost use Rattle.std.specs.BTreeSet.{keys_between};
ghost use Rattle.std.specs.declared.ops.Bound.TheVariants.{Included, Excluded};
ghost use Rattle.std.specs.declared.cmp.Ordering.TheVariants.{Less};
ghost use Rattle.inf_keys.specs.declared.key.Key.{Key};
ghost use Rattle.inf_values.specs.Readings.{Readings, ReadsAll};
ghost use Rattle.inf_reader.specs.Placing.{value_at, places_of, owners_of, rows_in, place_cmp};
ghost use Rattle.inf_reader.specs.TableAt.{at};

use crate::entries::Entry;
use inf_keys::Key;
use inf_values::{Place, Value, class_of, value_of};
use osgi_version::{NoMemory, Twin};
use std::alloc::Global;
use std::collections::{BTreeMap, BTreeSet};

/// The values by their keys, the places that have one, and the owners of these places.
#[derive(Drop)]
pub(crate) struct Table {
    pub(crate) alloc: Global,
    pub(crate) values: BTreeMap<Key, Value>,
    pub(crate) places: BTreeSet<Place>,
    pub(crate) owners: BTreeSet<u32>,
}

/// The table of the entries.
#[tactic(auto, unfolding(crate::specs::Placing::value_at, crate::specs::Placing::places_of, crate::specs::Placing::owners_of))]
pub(crate) fn table_of(alloc: Global, entries: &[Entry]) -> Result<Table, NoMemory>
    ensures values { IfOk result (λ t. (read : Readings) → ReadsAll read → (key : Key) → at t key ≡ value_at read entries.now key) }
    ensures places { IfOk result (λ t. t.places.keys ≡ places_of entries.now) }
    ensures owners { IfOk result (λ t. t.owners.keys ≡ owners_of entries.now) }
{
    let mut values = BTreeMap::new(alloc);
    let mut places = BTreeSet::new(alloc);
    let mut owners = BTreeSet::new(alloc);
    for entry in entries {
        let value = value_of(alloc, class_of(entry.key.part), entry.text.copy()?)?;
        values.insert(entry.key, value)?;
        places.insert(entry.place)?;
        owners.insert(entry.place.owner)?;
    }
    Ok(Table {
        alloc,
        values,
        places,
        owners,
    })
}

impl Table {
    pub(crate) fn get(&self, key: Key) -> Option<&Value>
        ensures { option_copied result ≡ at self.now key }
    {
        self.values.get(&key)
    }

    /// The rows of the places from the first one on and before the end, in their order.
    fn rows_between(&self, first: Place, end: Place) -> Result<Vec<u32>, NoMemory>
        requires { place_cmp first end ≡ Less }
        ensures { IfOk result (λ rows. rows.items ≡ map (λ p. p.row) (keys_between place_cmp (Included first) (Excluded end) self.now.places)) }
    {
        let rows = self
            .places
            .range(first..end)
            .map(|place| place.row)
            .collect(self.alloc)?;
        Ok(rows)
    }

    /// The numbers of an owner's rows in a list, rising. The lists are the kinds of parts, as keys order them.
    pub(crate) fn rows(&self, owner: u32, list: u8) -> Result<Vec<u32>, NoMemory>
        requires { list < 5 }
        ensures { IfOk result (λ rows. rows.items ≡ rows_in self.now.places.keys owner list) }
    {
        let first = Place {
            owner,
            list,
            row: 0,
        };
        let end = Place {
            owner,
            list: list + 1,
            row: 0,
        };
        let rows = self.rows_between(first, end)?;
        Ok(rows)
    }

    /// The owners, rising.
    pub(crate) fn owners(&self) -> Result<Vec<u32>, NoMemory>
        ensures { IfOk result (λ owners. owners.items ≡ self.now.owners.keys) }
    {
        let owners = self.owners.iter().copied().collect(self.alloc)?;
        Ok(owners)
    }
}
