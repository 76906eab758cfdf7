ghost use Rattle.std.specs.Prelude.{IfOk, IsTrue, MatchOption};
ghost use Rattle.std.specs.BTreeSet.{contains};
ghost use Rattle.std.specs.Ordering.{nat_cmp};
ghost use Rattle.std.specs.Cmp.Lexicographic.{slice_cmp};
ghost use Rattle.folder_core.specs.Name.{AreRising, AreThose};
ghost use Rattle.folder_core.specs.Path.{IsBelow};
ghost use Rattle.folder_memory.specs.Below.{IsFirstBelow};

use folder_core::{Name, Path};
use osgi_version::{List, NoMemory};
use std::alloc::Global;
use std::collections::BTreeSet;

/// The first name on the way from a path to a place below it.
pub(crate) fn name_below<'a>(path: &Path, place: &'a Path) -> Option<&'a Name>
    ensures { MatchOption result (¬ (IsBelow path.now place.now)) (λ name. IsFirstBelow path.now name.now place.now) }
{
    let front = path.names().items();
    let names = place.names().items();
    let rest = names.strip_prefix(front)?;
    rest.first()
}

/// The names of a set, in rising order.
pub(crate) fn rising(alloc: Global, names: BTreeSet<Name>) -> Result<List<Name>, NoMemory>
    ensures names { IfOk result (AreThose (λ name. IsTrue (contains (slice_cmp nat_cmp) names name))) }
    ensures rising { IfOk result AreRising }
{
    let listed: Vec<Name> = names.into_iter().collect(alloc)?;
    Ok(List::from_vec(listed))
}
