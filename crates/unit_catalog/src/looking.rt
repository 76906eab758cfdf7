//! Looks at the units that an index leads to.

ghost use Rattle.std.specs.Prelude.{◌≡◌, ℕ, ◌↔◌, ◌++◌, ◌<◌, [], ◌∷◌, false, IsTrue, IfOk, OnOk, List, All};
ghost use Rattle.unit_model.specs.Matches.{Matches};
ghost use Rattle.unit_catalog.specs.At.{HasAt};
ghost use Rattle.unit_catalog.specs.Greatest.{by_version};
ghost use Rattle.unit_catalog.specs.Listed.{IsRising};
ghost use Rattle.unit_catalog.specs.Looking.{IsWanted, IsFoundAmong, IsAbove, IsNoHigher, IsGreatestAmong, AreMatching};

use crate::wanted::Wanted;
use ldap_filter::Env;
use std::alloc::{AllocError, Global};
use std::cmp::Ordering;
use unit_model::{Required, Unit, UnitName, matches};

/// The first of the numbers whose unit has the name.
pub(crate) fn named(units: &[Unit], numbers: &[u32], name: &UnitName) -> Option<u32>
    ensures { IsFoundAmong units.now (λ u. u.name ≡ name.now) numbers.now result }
{
    for number in numbers {
        if is_named(units, *number, name) {
            return Some(*number);
        }
    }
    None
}

fn is_named(units: &[Unit], number: u32, name: &UnitName) -> bool
    ensures { IsTrue result ↔ HasAt units.now (λ u. u.name ≡ name.now) number }
{
    match units.get(number as usize) {
        Some(unit) => same_name(&unit.name, name),
        None => false,
    }
}

fn same_name(name: &UnitName, other: &UnitName) -> bool
    ensures { IsTrue result ↔ (name.now ≡ other.now) }
{
    name == other
}

/// The greatest of the numbers, by version and then by id, whose unit is wanted.
pub(crate) fn greatest(
    units: &[Unit],
    numbers: &[u32],
    wanted: &Wanted<'_>,
    env: &Env,
) -> Option<u32>
    ensures { IsGreatestAmong units.now (IsWanted wanted.now env.now) numbers.now result }
{
    let mut best = None;
    for number in numbers {
        best = better(units, best, *number, wanted, env);
    }
    best
}

/// The number, where its unit is wanted and above the best so far, or else that best.
fn better(
    units: &[Unit],
    best: Option<u32>,
    number: u32,
    wanted: &Wanted<'_>,
    env: &Env,
) -> Option<u32>
    ensures { (numbers : List ℕ) →
        IsGreatestAmong units.now (IsWanted wanted.now env.now) numbers best
        → IsGreatestAmong units.now (IsWanted wanted.now env.now) (numbers ++ number ∷ []) result }
{
    if !is_wanted(units, number, wanted, env) {
        return best;
    }
    if is_above(units, number, best) {
        return Some(number);
    }
    best
}

fn is_wanted(units: &[Unit], number: u32, wanted: &Wanted<'_>, env: &Env) -> bool
    ensures { IsTrue result ↔ HasAt units.now (IsWanted wanted.now env.now) number }
{
    match units.get(number as usize) {
        Some(unit) => wanted.is(unit, env),
        None => false,
    }
}

/// Whether the first unit is above the best so far.
fn is_above(units: &[Unit], number: u32, best: Option<u32>) -> bool
    ensures above { IsTrue result → IsAbove units.now number best }
    ensures below { result ≡ false → IsNoHigher units.now number best }
{
    let Some(best) = best else {
        return true;
    };
    match (units.get(number as usize), units.get(best as usize)) {
        (Some(unit), Some(other)) => by_version(&unit.name, &other.name).is_gt(),
        _ => true,
    }
}

fn by_version(name: &UnitName, other: &UnitName) -> Ordering
    ensures { result ≡ by_version name.now other.now }
{
    name.version
        .order(&other.version)
        .then(name.id.bytes().cmp(other.id.bytes()))
}

/// Those of the numbers whose units match the requirement.
pub(crate) fn matching(
    alloc: Global,
    units: &[Unit],
    numbers: &[u32],
    required: &Required,
) -> Result<Vec<u32>, AllocError>
    requires { IsRising numbers.now }
    ensures { IfOk result (λ found. AreMatching units.now required.now numbers.now found.items) }
{
    let mut found = Vec::new(alloc);
    for number in numbers {
        keep(&mut found, units, *number, required)?;
    }
    Ok(found)
}

/// Puts the number behind those that were found, where its unit matches.
fn keep(
    found: &mut Vec<u32>,
    units: &[Unit],
    number: u32,
    required: &Required,
) -> Result<(), AllocError>
    ensures { OnOk result ((numbers : List ℕ) → All (λ n. n < number) numbers
        → AreMatching units.now required.now numbers found.old.items
        → AreMatching units.now required.now (numbers ++ number ∷ []) found.new.items) }
{
    if !matches_at(units, number, required) {
        return Ok(());
    }
    found.push(number)?;
    Ok(())
}

fn matches_at(units: &[Unit], number: u32, required: &Required) -> bool
    ensures { IsTrue result ↔ HasAt units.now (Matches required.now) number }
{
    match units.get(number as usize) {
        Some(unit) => matches(required, unit),
        None => false,
    }
}
