ghost use Rattle.std.specs.Prelude.{◌≡◌, ◌≢◌, Err, IfOk, Contains};
ghost use Rattle.unit_catalog.specs.At.{HasAt};
ghost use Rattle.unit_catalog.specs.Order.{AreMembers, units_at};
ghost use Rattle.unit_slicer.specs.Members.{AreAllOf};
ghost use Rattle.unit_slicer.specs.RootedPart.{IsRootedIn, IsRootedPart};
ghost use Rattle.unit_slicer.specs.WholeCatalog.{IsPart};
ghost use Rattle.unit_slicer.specs.declared.fault.SliceFault.TheVariants as faults;

use crate::adding::add_numbers;
use crate::fault::SliceFault;
use crate::found::Found;
use crate::searching::find_all;
use crate::way::{Links, Way};
use ldap_filter::Env;
use osgi_version::{List, NoMemory};
use unit_catalog::Catalog;
use unit_model::UnitName;

/// The members that requirements among the members, greedy or not, lead to from the roots, in their order: the part of
/// them that the roots ask for. Where the members are valid for the roots, this part is. It takes as long as the
/// requirements of the part have providers in the catalog.
pub fn rooted(
    catalog: &Catalog,
    members: &List<u32>,
    roots: &List<UnitName>,
    env: &Env,
) -> Result<List<u32>, NoMemory>
    requires { AreMembers catalog.now members.now }
    ensures members { IfOk result (AreMembers catalog.now) }
    ensures part { IfOk result (IsPart (HasAt catalog.now (IsRootedIn (units_at catalog.now members.now) roots.now env.now)) members.now) }
    ensures rooted { IfOk result (λ part.
        IsRootedPart (units_at catalog.now members.now) roots.now env.now (units_at catalog.now part)) }
{
    match find_rooted(catalog, members, roots, env) {
        Ok(found) => kept(members, &found),
        Err(SliceFault::NoMemory) => Err(NoMemory),
        Err(SliceFault::TooLarge) => unreachable!(),
    }
}

/// The members that are rooted, which are no more than the members.
fn find_rooted(
    catalog: &Catalog,
    members: &List<u32>,
    roots: &List<UnitName>,
    env: &Env,
) -> Result<Found, SliceFault>
    requires { AreMembers catalog.now members.now }
    ensures all { IfOk result (λ found.
        AreAllOf catalog.now (IsRootedIn (units_at catalog.now members.now) roots.now env.now) found.found) }
    ensures few { result ≢ Err faults.TooLarge }
{
    let mut among = Found::new(members.allocator(), catalog.len())?;
    add_numbers(&mut among, members.items())?;
    let way = Way {
        catalog,
        env,
        links: Links::All,
        among: Some(&among),
    };
    let found = find_all(&way, roots)?;
    Ok(found)
}

/// Those of the numbers that were found, in their order.
fn kept(numbers: &List<u32>, found: &Found) -> Result<List<u32>, NoMemory>
    ensures { IfOk result (IsPart (Contains found.now.found) numbers.now) }
{
    let mut kept = List::new(numbers.allocator());
    for number in numbers.items() {
        if found.has(*number) {
            kept.push(*number)?;
        }
    }
    Ok(kept)
}
