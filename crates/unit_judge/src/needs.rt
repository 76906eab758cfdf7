//! Whether requirements are met.

ghost use Rattle.std.specs.Prelude.{◌≡◌, ◌≤◌, ◌↔◌, IsTrue, IfOk, MatchOption, All};
ghost use Rattle.unit_model.specs.Applies.{filter_true};
ghost use Rattle.unit_model.specs.Met.{IsMet};
ghost use Rattle.unit_model.specs.declared.required.Required.{Required as Need};
ghost use Rattle.unit_judge.specs.Judged.{FailsFirst, AreServed, IsUnserved};

use ldap_filter::Env;
use osgi_version::NoMemory;
use std::alloc::Global;
use unit_catalog::ProviderIndex;
use unit_model::{Required, Unit};

/// Whether the requirement's filter is true, or missing.
pub(crate) fn asks(required: &Required, env: &Env) -> bool
    ensures { result ≡ filter_true env.now required.now.filter }
{
    match &required.filter {
        Some(filter) => filter.truth(env),
        None => true,
    }
}

fn is_enough(required: &Required, count: usize) -> bool
    ensures { IsTrue result ↔ ((required.now.min ≤ count) × (count ≤ required.now.max)) }
{
    required.min as usize <= count && count <= required.max as usize
}

fn is_met(
    alloc: Global,
    index: &ProviderIndex<'_>,
    required: &Required,
    env: &Env,
) -> Result<bool, NoMemory>
    ensures { IfOk result (λ met. IsTrue met ↔ IsMet required.now index.now env.now) }
{
    if !asks(required, env) {
        return Ok(true);
    }
    let providers = index.providers(alloc, required)?;
    Ok(is_enough(required, providers.len()))
}

/// The place of the first of the requirements that isn't met.
fn unmet(
    alloc: Global,
    index: &ProviderIndex<'_>,
    required: &[Required],
    env: &Env,
) -> Result<Option<usize>, NoMemory>
    ensures { IfOk result (λ unmet. MatchOption unmet
        (All (λ r. IsMet r index.now env.now) required.now)
        (λ place. (need : Need) × FailsFirst (λ r. IsMet r index.now env.now) required.now place need)) }
{
    for (place, requirement) in required.iter().enumerate() {
        if !is_met(alloc, index, requirement, env)? {
            return Ok(Some(place));
        }
    }
    Ok(None)
}

/// The first member with a requirement that isn't met, and the place of the first of these.
pub(crate) fn unserved<'a>(
    alloc: Global,
    index: &ProviderIndex<'a>,
    env: &Env,
) -> Result<Option<(&'a Unit, usize)>, NoMemory>
    ensures { IfOk result (λ found. MatchOption found (AreServed index.now env.now)
        (λ pair. IsUnserved index.now env.now pair.0.now pair.1)) }
{
    let units = index.units();
    for unit in units {
        if let Some(place) = unmet(alloc, index, unit.required.items(), env)? {
            return Ok(Some((unit, place)));
        }
    }
    Ok(None)
}
