ghost use Rattle.std.specs.Prelude.{◌≡◌, length, slice_get};
ghost use Rattle.std.specs.Option.{option_map};
ghost use Rattle.props_reader.specs.PairsOf.{HasDistinctKeys};

use osgi_version::{List, NoMemory, Text, Twin};
use std::marker::Model;

/// A key and its value.
#[derive(Debug, PartialEq, Eq, Drop)]
pub(crate) struct Pair {
    pub(crate) key: Text,
    pub(crate) value: Text,
}

impl Twin for Pair {
    fn copy(&self) -> Result<Pair, NoMemory> {
        Ok(Pair {
            key: self.key.copy()?,
            value: self.value.copy()?,
        })
    }
}

/// Pairs of a key and a value with distinct keys, in the order in which the keys were first seen.
#[derive(Debug, PartialEq, Eq, Drop)]
pub struct Pairs {
    pub(crate) pairs: List<Pair>,
}

impl Model for Pairs {
    ghost use Rattle.std.specs.Prelude.{List as Items, ℕ};
    ghost use Rattle.props_reader.specs.PairsOf.{HasDistinctKeys};
    ghost use Rattle.props_reader.specs.PairsSeen.{pairs_seen};

    ghost Value = { Items (Items ℕ × Items ℕ) };

    ghost view = { λ a. pairs_seen a.pairs };

    ghost use Rattle.props_reader.specs.PairsSeen.{pairs_unseen, pairs_unseen-pairs_seen};
    ghost use Rattle.std.proofs.Common.{ap};

    ghost inverse = { λ v. record { pairs = pairs_unseen v } };

    ghost inverse_ok = { λ a h. ap (λ ps. record { pairs = ps }) (pairs_unseen-pairs_seen a.pairs) };

    ghost invariant = { λ a. HasDistinctKeys (pairs_seen a.pairs) };
}

impl Pairs {
    /// How many pairs there are.
    pub fn len(&self) -> usize
        ensures value { result ≡ length self.now }
        ensures distinct { HasDistinctKeys self.now }
    {
        self.pairs.len()
    }

    /// The key and the value at a place, from 0. None exactly where the pairs end before it.
    pub fn pair(&self, place: usize) -> Option<(&Text, &Text)>
        ensures { option_map (λ p. (p.0.now, p.1.now)) result ≡ slice_get self.now place }
    {
        let pair = self.pairs.get(place)?;
        Some((&pair.key, &pair.value))
    }
}

impl Twin for Pairs {
    fn copy(&self) -> Result<Pairs, NoMemory> {
        Ok(Pairs {
            pairs: self.pairs.copy()?,
        })
    }
}
