ghost use Rattle.std.specs.Prelude.{◌≡◌, ◌↔◌, ◌∷◌, [], ◌++◌, List as Items, ℕ, IfOk, IsTrue, MatchOption};
ghost use Rattle.std.specs.BTreeSet.{contains};
ghost use Rattle.std.specs.Ordering.{nat_cmp};
ghost use Rattle.std.specs.Cmp.Lexicographic.{slice_cmp};
ghost use Rattle.folder_core.specs.Name.{AreRising, AreThose};
ghost use Rattle.folder_memory.specs.Places.{HasBelow, HasFrom, IsLastBefore, NothingBefore};

use crate::names::{name_below, rising};
use folder_core::{Name, Path};
use osgi_version::{List, NoMemory, Twin};
use std::alloc::Global;
use std::collections::{BTreeMap, BTreeSet};
use std::ops::Bound;

/// The last place before a path at which something stands, and what stands there.
pub(crate) fn last_before<'a, V>(
    places: &'a BTreeMap<Path, V>,
    path: &Path,
) -> Option<(&'a Path, &'a V)>
    ensures { MatchOption result (NothingBefore places.now path.now) (λ found. IsLastBefore places.now path.now found.0.now found.1.now) }
{
    places.range(..path).next_back()
}

/// Whether something stands below a path. In the order of paths that comes right behind it.
pub(crate) fn has_below<V>(places: &BTreeMap<Path, V>, path: &Path) -> bool
    ensures { IsTrue result ↔ HasBelow places.now path.now }
{
    let behind = (Bound::Excluded(path), Bound::Unbounded);
    match places.range(behind).next() {
        Some((place, _)) => name_below(path, place).is_some(),
        None => false,
    }
}

/// The names directly below a path at or below which something stands. It costs a step for each place below the path.
fn names_below<V>(
    alloc: Global,
    places: &BTreeMap<Path, V>,
    path: &Path,
) -> Result<BTreeSet<Name>, NoMemory>
    ensures { IfOk result (λ names. (name : Items ℕ) → IsTrue (contains (slice_cmp nat_cmp) names name) ↔ HasFrom places.now (path.now ++ name ∷ [])) }
{
    let mut names = BTreeSet::new(alloc);
    let behind = (Bound::Excluded(path), Bound::Unbounded);
    for (place, _) in places.range(behind) {
        let Some(name) = name_below(path, place) else {
            return Ok(names);
        };
        names.insert(name.copy()?)?;
    }
    Ok(names)
}

/// The same, in rising order.
pub(crate) fn kids_of<V>(
    alloc: Global,
    places: &BTreeMap<Path, V>,
    path: &Path,
) -> Result<List<Name>, NoMemory>
    ensures names { IfOk result (AreThose (λ name. HasFrom places.now (path.now ++ name ∷ []))) }
    ensures rising { IfOk result AreRising }
{
    let names = names_below(alloc, places, path)?;
    rising(alloc, names)
}
