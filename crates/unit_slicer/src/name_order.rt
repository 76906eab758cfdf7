//! The order of units by their names.

ghost use Rattle.std.specs.Prelude.{◌≡◌};
ghost use Rattle.std.specs.List.Sorted.{IsPermutation, IsSorted};
ghost use Rattle.unit_catalog.specs.Order.{by_id};
ghost use Rattle.unit_slicer.specs.NameOrder.{number_cmp};

use std::cmp::Ordering;
use unit_catalog::Catalog;
use unit_model::UnitName;

/// Puts numbers of units into the order of the units' ids, and then of their versions.
pub(crate) fn sort_by_name(catalog: &Catalog, numbers: &mut Vec<u32>)
    ensures permutation { IsPermutation numbers.old.items numbers.new.items }
    ensures sorted { IsSorted (number_cmp catalog.now) numbers.new.items }
{
    numbers.sort_unstable_by(|number, other| by_name_at(catalog, *number, *other));
}

fn by_name_at(catalog: &Catalog, number: u32, other: u32) -> Ordering
    ensures { result ≡ number_cmp catalog.now number other }
{
    match (catalog.unit(number), catalog.unit(other)) {
        (Some(unit), Some(other)) => by_name(&unit.name, &other.name),
        (Some(_), None) => Ordering::Greater,
        (None, Some(_)) => Ordering::Less,
        (None, None) => Ordering::Equal,
    }
}

fn by_name(name: &UnitName, other: &UnitName) -> Ordering
    ensures { result ≡ by_id name.now other.now }
{
    name.id
        .bytes()
        .cmp(other.id.bytes())
        .then(name.version.order(&other.version))
}
