//! Adds to the units that were found those that roots, units and requirements lead to. Where that would be over 8,192,
//! this is told as soon as it is known.

ghost use Rattle.std.specs.Prelude.{◌≡◌, ℕ, ◌<◌, ◌↔◌, length, Err, OnOk, IsTrue, All, Any, Contains};
ghost use Rattle.unit_model.specs.Applies.{filter_true};
ghost use Rattle.unit_catalog.specs.At.{HasAt};
ghost use Rattle.unit_slicer.specs.Adding.{Applies, IsFollowed, IsOwn, IsRootOf, IsRoot, IsProvider, IsLedTo, IsNext};
ghost use Rattle.unit_slicer.specs.Found.{Adds, AreTooMany};
ghost use Rattle.unit_slicer.specs.Way.{IsAmong};
ghost use Rattle.unit_slicer.specs.declared.fault.SliceFault.TheVariants as faults;

use crate::fault::SliceFault;
use crate::found::Found;
use crate::way::Way;
use ldap_filter::Env;
use unit_catalog::Catalog;
use unit_model::{Required, Unit, UnitName, applies};

/// Whether the unit of this number is there and applies.
fn applies_at(catalog: &Catalog, number: u32, env: &Env) -> bool
    ensures { IsTrue result ↔ HasAt catalog.now (Applies env.now) number }
{
    match catalog.unit(number) {
        Some(unit) => applies(unit, env),
        None => false,
    }
}

/// Whether the unit of this number may be found.
fn may_find(way: &Way<'_, '_, '_>, number: u32) -> bool
    ensures { IsTrue result ↔ (IsAmong way.now.among number × HasAt way.now.catalog.now (Applies way.now.env.now) number) }
{
    way.is_among(number) && applies_at(way.catalog, number, way.env)
}

/// Adds all of the numbers.
pub(crate) fn add_numbers(found: &mut Found, numbers: &[u32]) -> Result<(), SliceFault>
    requires { All (λ n. n < found.old.units) numbers.now }
    ensures ok { OnOk result (Adds (λ n. Any (λ m. n ≡ m) numbers.now) found.old found.new) }
    ensures too_large { result ≡ Err faults.TooLarge → AreTooMany (λ n. Any (λ m. n ≡ m) numbers.now) found.old }
{
    for number in numbers {
        found.add(*number)?;
    }
    Ok(())
}

/// Adds the number, where its unit may be found.
fn add_own(found: &mut Found, way: &Way<'_, '_, '_>, number: u32) -> Result<(), SliceFault>
    requires { found.old.units ≡ length way.now.catalog.now }
    ensures ok { OnOk result (Adds (IsOwn way.now number) found.old found.new) }
    ensures too_large { result ≡ Err faults.TooLarge → AreTooMany (IsOwn way.now number) found.old }
{
    if !may_find(way, number) {
        return Ok(());
    }
    found.add(number)
}

fn add_root(found: &mut Found, way: &Way<'_, '_, '_>, root: &UnitName) -> Result<(), SliceFault>
    requires { found.old.units ≡ length way.now.catalog.now }
    ensures ok { OnOk result (Adds (IsRootOf way.now root.now) found.old found.new) }
    ensures too_large { result ≡ Err faults.TooLarge → AreTooMany (IsRootOf way.now root.now) found.old }
{
    let Some(number) = way.catalog.find(root) else {
        return Ok(());
    };
    add_own(found, way, number)
}

/// Adds the units of these names that apply. A name of no unit adds nothing.
pub(crate) fn add_roots(
    found: &mut Found,
    way: &Way<'_, '_, '_>,
    roots: &[UnitName],
) -> Result<(), SliceFault>
    requires { found.old.units ≡ length way.now.catalog.now }
    ensures ok { OnOk result (Adds (IsRoot way.now roots.now) found.old found.new) }
    ensures too_large { result ≡ Err faults.TooLarge → AreTooMany (IsRoot way.now roots.now) found.old }
{
    for root in roots {
        add_root(found, way, root)?;
    }
    Ok(())
}

/// Whether what matches the requirement is found.
fn is_followed(way: &Way<'_, '_, '_>, required: &Required) -> bool
    ensures { IsTrue result ↔ IsFollowed way.now required.now }
{
    way.links.may_lead(required) && asks(required, way.env) && required.max > 0
}

/// Whether the requirement's filter is true, or missing.
fn asks(required: &Required, env: &Env) -> bool
    ensures { result ≡ filter_true env.now required.now.filter }
{
    match &required.filter {
        Some(filter) => filter.truth(env),
        None => true,
    }
}

/// Adds those of the numbers whose units apply.
fn add_each(found: &mut Found, way: &Way<'_, '_, '_>, numbers: &[u32]) -> Result<(), SliceFault>
    requires { found.old.units ≡ length way.now.catalog.now }
    ensures ok { OnOk result (Adds (λ n. Any (λ m. IsOwn way.now m n) numbers.now) found.old found.new) }
    ensures too_large { result ≡ Err faults.TooLarge → AreTooMany (λ n. Any (λ m. IsOwn way.now m n) numbers.now) found.old }
{
    for number in numbers {
        add_own(found, way, *number)?;
    }
    Ok(())
}

/// Adds the units that match the requirement and apply, where it is followed.
fn add_providers(
    found: &mut Found,
    way: &Way<'_, '_, '_>,
    required: &Required,
) -> Result<(), SliceFault>
    requires { found.old.units ≡ length way.now.catalog.now }
    ensures ok { OnOk result (Adds (IsProvider way.now required.now) found.old found.new) }
    ensures too_large { result ≡ Err faults.TooLarge → AreTooMany (IsProvider way.now required.now) found.old }
{
    if !is_followed(way, required) {
        return Ok(());
    }
    let providers = way.catalog.providers(required)?;
    add_each(found, way, providers.items())
}

/// Adds the units that the unit's requirements lead to.
fn add_led_to(found: &mut Found, way: &Way<'_, '_, '_>, unit: &Unit) -> Result<(), SliceFault>
    requires { found.old.units ≡ length way.now.catalog.now }
    ensures ok { OnOk result (Adds (IsLedTo way.now unit.now) found.old found.new) }
    ensures too_large { result ≡ Err faults.TooLarge → AreTooMany (IsLedTo way.now unit.now) found.old }
{
    for required in unit.required.items() {
        add_providers(found, way, required)?;
    }
    Ok(())
}

/// Adds the units that the requirements of the unit of this number lead to.
pub(crate) fn add_next(
    found: &mut Found,
    way: &Way<'_, '_, '_>,
    number: u32,
) -> Result<(), SliceFault>
    requires { found.old.units ≡ length way.now.catalog.now }
    ensures ok { OnOk result (Adds (IsNext way.now number) found.old found.new) }
    ensures too_large { result ≡ Err faults.TooLarge → AreTooMany (IsNext way.now number) found.old }
{
    let Some(unit) = way.catalog.unit(number) else {
        return Ok(());
    };
    add_led_to(found, way, unit)
}
