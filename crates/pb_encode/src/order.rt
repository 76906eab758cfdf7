//! Whether numbers are those of members.

ghost use Rattle.std.specs.Prelude.{◌≡◌, ◌<◌, ◌↔◌, length, IsTrue};
ghost use Rattle.unit_catalog.specs.Order.{by_id, IsBefore, AreMembers};
ghost use Rattle.pb_encode.specs.InPlace.{IsInPlace};

use osgi_version::List;
use std::cmp::Ordering;
use unit_catalog::Catalog;
use unit_model::UnitName;

const MOST_MEMBERS: usize = 8192;

/// Whether these are at most 8,192 numbers of units, in the order of the units' names, each once.
pub fn are_members(catalog: &Catalog, numbers: &List<u32>) -> bool
    ensures { IsTrue result ↔ AreMembers catalog.now numbers.now }
{
    if numbers.len() > MOST_MEMBERS {
        return false;
    }
    let numbers = numbers.items();
    for place in 0..numbers.len() {
        if !is_in_place(catalog, numbers, place) {
            return false;
        }
    }
    true
}

/// Whether the number at this place is that of a unit, and of one behind that of the number before it.
fn is_in_place(catalog: &Catalog, numbers: &[u32], place: usize) -> bool
    requires { place < length numbers.now }
    ensures { IsTrue result ↔ IsInPlace catalog.now numbers.now place }
{
    if numbers[place] >= catalog.len() {
        return false;
    }
    place == 0 || is_before(catalog, numbers[place - 1], numbers[place])
}

/// Whether the unit of the first number stands before that of the second, where both are there.
fn is_before(catalog: &Catalog, number: u32, later: u32) -> bool
    ensures { IsTrue result ↔ IsBefore catalog.now number later }
{
    match (catalog.unit(number), catalog.unit(later)) {
        (Some(unit), Some(other)) => by_name(&unit.name, &other.name) == Ordering::Less,
        _ => true,
    }
}

fn by_name(name: &UnitName, other: &UnitName) -> Ordering
    ensures { result ≡ by_id name.now other.now }
{
    name.id
        .bytes()
        .cmp(other.id.bytes())
        .then(name.version.order(&other.version))
}
