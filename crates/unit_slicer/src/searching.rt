//! A search for all units that roots and requirements lead to.

ghost use Rattle.std.specs.Prelude.{◌≡◌, Err, IfOk};
ghost use Rattle.unit_catalog.specs.Named.{HasDistinctNames};
ghost use Rattle.unit_slicer.specs.Reached.{AreReached, ReachesOver};
ghost use Rattle.unit_slicer.specs.declared.fault.SliceFault.TheVariants as faults;

use crate::adding::{add_next, add_roots};
use crate::fault::SliceFault;
use crate::found::Found;
use crate::way::Way;
use osgi_version::List;
use unit_model::UnitName;

/// All units that are reached from the roots, each worked off once.
pub(crate) fn find_all(way: &Way<'_, '_, '_>, roots: &List<UnitName>) -> Result<Found, SliceFault>
    ensures names { HasDistinctNames way.now.catalog.now }
    ensures all { IfOk result (λ found. AreReached way.now roots.now found.found) }
    ensures large { result ≡ Err faults.TooLarge → ReachesOver 8192 way.now roots.now }
{
    let mut found = Found::new(roots.allocator(), way.catalog.len())?;
    add_roots(&mut found, way, roots.items())?;
    let mut place = 0;
    while let Some(number) = found.get(place) {
        add_next(&mut found, way, number)?;
        place += 1;
    }
    Ok(found)
}
