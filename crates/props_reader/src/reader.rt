ghost use Rattle.std.specs.Prelude.{◌≡◌, IfOk, map};
ghost use Rattle.props_reader.specs.Gives.{Gives};
ghost use Rattle.props_reader.specs.Entries.{entries_seen};
ghost use Rattle.props_reader.specs.PairsOf.{pair_of, merged, pairs_of, HasDistinctKeys};

use crate::characters::spelled;
use crate::fault::PropsFault;
use crate::key::Key;
use crate::lines::natural_lines;
use crate::logical::{Placed, logical_lines};
use crate::pairs::{Pair, Pairs};
use crate::signs::{key_and_value, signs};
use indexmap::IndexMap;
use osgi_version::{List, NoMemory, Text};
use std::alloc::Global;

/// The pair that a logical line spells.
#[tactic(auto, unfolding(crate::specs::PairsOf::pair_of))]
fn pair_of(alloc: Global, line: &[Placed]) -> Result<(Text, Text), PropsFault>
    ensures { Gives (λ pair. pair) result (pair_of line.now) }
{
    let signs = signs(alloc, line)?;
    let (key, value) = key_and_value(&signs);
    Ok((spelled(alloc, key)?, spelled(alloc, value)?))
}

/// The pairs of the logical lines. A later equal key replaces the value and keeps the first place.
fn merged(alloc: Global, lines: &[Vec<Placed>]) -> Result<IndexMap<Key, Text>, PropsFault>
    ensures { Gives (λ found. entries_seen found.entries) result (merged (map (λ line. line.items) lines.now)) }
{
    let mut found = IndexMap::new(alloc);
    for line in lines {
        let (key, value) = pair_of(alloc, line)?;
        found.insert(Key { text: key }, value)?;
    }
    Ok(found)
}

/// The entries as pairs.
fn as_pairs(alloc: Global, entries: IndexMap<Key, Text>) -> Result<Pairs, NoMemory>
    requires { HasDistinctKeys (entries_seen entries.entries) }
    ensures { IfOk result (λ pairs. pairs ≡ entries_seen entries.entries) }
{
    let mut pairs = List::new(alloc);
    for (key, value) in entries {
        pairs.push(Pair {
            key: key.text,
            value,
        })?;
    }
    Ok(Pairs { pairs })
}

/// The pairs of a properties text. Takes time in line with its length.
#[tactic(auto, unfolding(crate::specs::PairsOf::pairs_of))]
pub fn read(alloc: Global, bytes: &[u8]) -> Result<Pairs, PropsFault>
    ensures exact { Gives (λ pairs. pairs) result (pairs_of bytes.now) }
    ensures distinct { IfOk result HasDistinctKeys }
{
    let lines = natural_lines(alloc, bytes)?;
    let lines = logical_lines(alloc, &lines)?;
    let found = merged(alloc, &lines)?;
    Ok(as_pairs(alloc, found)?)
}
