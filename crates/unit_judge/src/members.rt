//! Looks at units that are in order, without memory.

ghost use Rattle.std.specs.Prelude.{◌≡◌, ◌↔◌, IsTrue, MatchOption};
ghost use Rattle.std.specs.Ordering.{is_lt};
ghost use Rattle.unit_catalog.specs.Named.{IsNumberOf};
ghost use Rattle.unit_catalog.specs.Order.{by_id, AreInOrder};
ghost use Rattle.unit_model.specs.Valid.{Collide};
ghost use Rattle.unit_judge.specs.Judged.{DoesApply, HaveRoots, AllApply, StandApart, IsMissingRoot, IsFirstWithout, AreColliding};

use ldap_filter::Env;
use std::cmp::Ordering;
use unit_model::{Unit, UnitName, applies};

/// The order of names: by id, and then by version.
fn by_id(name: &UnitName, other: &UnitName) -> Ordering
    ensures { result ≡ by_id name.now other.now }
{
    name.id
        .bytes()
        .cmp(other.id.bytes())
        .then(name.version.order(&other.version))
}

/// Whether the units stand in the order of their ids and then of their versions, with no two of one name.
pub fn are_in_order(units: &[Unit]) -> bool
    ensures { IsTrue result ↔ AreInOrder units.now }
{
    units.is_sorted_by(is_before)
}

fn is_before(unit: &Unit, next: &Unit) -> bool
    ensures { result ≡ is_lt (by_id unit.now.name next.now.name) }
{
    by_id(&unit.name, &next.name).is_lt()
}

/// The place of the unit of this name.
pub(crate) fn place_of(units: &[Unit], name: &UnitName) -> Option<usize>
    requires { AreInOrder units.now }
    ensures { IsNumberOf units.now name.now result }
{
    units.binary_search_by(|unit| by_id(&unit.name, name)).ok()
}

/// The first root that is no member.
pub(crate) fn missing_root<'a>(units: &[Unit], roots: &'a [UnitName]) -> Option<&'a UnitName>
    requires { AreInOrder units.now }
    ensures { MatchOption result (HaveRoots units.now roots.now)
        (λ root. IsMissingRoot units.now roots.now root.now) }
{
    for root in roots {
        if place_of(units, root).is_none() {
            return Some(root);
        }
    }
    None
}

/// The first member whose filter is false.
pub(crate) fn not_applying<'a>(units: &'a [Unit], env: &Env) -> Option<&'a Unit>
    ensures { MatchOption result (AllApply units.now env.now)
        (λ unit. IsFirstWithout (DoesApply env.now) units.now unit.now) }
{
    for unit in units {
        if !applies(unit, env) {
            return Some(unit);
        }
    }
    None
}

fn collide(unit: &Unit, other: &Unit) -> bool
    ensures { IsTrue result ↔ Collide unit.now other.now }
{
    unit.name.id == other.name.id && (unit.singleton || other.singleton)
}

fn same_id(unit: &Unit, other: &Unit) -> bool
    ensures { IsTrue result ↔ (unit.now.name.id ≡ other.now.name.id) }
{
    unit.name.id == other.name.id
}

/// The first two members of one id of which one is a singleton. Units of one id stand together, so each has to be
/// compared with the first of its id alone.
pub(crate) fn colliding<'a>(units: &'a [Unit]) -> Option<(&'a Unit, &'a Unit)>
    requires { AreInOrder units.now }
    ensures { MatchOption result (StandApart units.now)
        (λ pair. AreColliding units.now pair.0.now pair.1.now) }
{
    let mut first = 0;
    for (place, unit) in units.iter().enumerate() {
        if !same_id(&units[first], unit) {
            first = place;
        } else if first < place && collide(&units[first], unit) {
            return Some((&units[first], unit));
        }
    }
    None
}
