//! Whether chains of requirements lead to each unit from a root.

ghost use Rattle.std.specs.Prelude.{◌≡◌, ◌++◌, ℕ, ◌<◌, IfOk, OnOk, MatchOption, List, length};
ghost use Rattle.unit_catalog.specs.Order.{AreInOrder};
ghost use Rattle.unit_model.specs.Slice.{HasChain, IsAny, AreRooted};
ghost use Rattle.unit_model.specs.declared.name.UnitName.{UnitName as Name};
ghost use Rattle.unit_judge.specs.Judged.{AllApply, IsFirstWithout, FailsFirst};
ghost use Rattle.unit_judge.specs.Reaching.{IsMarked, IsListed, IsSound, IsClosed, IsUnmarkedFirst};

use crate::reaching::Reached;
use ldap_filter::Env;
use osgi_version::NoMemory;
use std::alloc::Global;
use unit_catalog::ProviderIndex;
use unit_model::{Unit, UnitName};

/// Marks what the marked units lead to, and what that leads to, until each of them was followed.
fn close(
    reached: &mut Reached,
    alloc: Global,
    index: &ProviderIndex<'_>,
    env: &Env,
) -> Result<(), NoMemory>
    requires size { length reached.old.marks.items ≡ length index.now }
    requires listed { IsListed reached.old }
    requires apply { AllApply index.now env.now }
    ensures size { OnOk result (length reached.new.marks.items ≡ length index.now) }
    ensures kept { OnOk result ((n : ℕ) → IsMarked reached.old.marks.items n → IsMarked reached.new.marks.items n) }
    ensures sound { OnOk result ((roots : List Name) → IsSound index.now roots env.now reached.old → IsSound index.now roots env.now reached.new) }
    ensures closed { OnOk result (IsClosed index.now env.now reached.new) }
{
    let mut next = 0;
    while let Some(number) = reached.order.get(next).copied() {
        if let Some(unit) = index.units().get(number) {
            reached.follow(alloc, index, unit, env)?;
        }
        next += 1;
    }
    Ok(())
}

/// The first unit that isn't marked.
fn unmarked<'a>(units: &'a [Unit], marks: &[bool]) -> Option<&'a Unit>
    requires { length marks.now ≡ length units.now }
    ensures { MatchOption result ((n : ℕ) → n < length units.now → IsMarked marks.now n)
        (λ unit. IsUnmarkedFirst units.now marks.now unit.now) }
{
    for (number, unit) in units.iter().enumerate() {
        if !marks[number] {
            return Some(unit);
        }
    }
    None
}

/// The first unit that no chain of requirements among the units leads to from a strict root or from an optional one.
pub(crate) fn unrooted<'a>(
    alloc: Global,
    index: &ProviderIndex<'a>,
    strict: &[UnitName],
    optional: &[UnitName],
    env: &Env,
) -> Result<Option<&'a Unit>, NoMemory>
    requires order { AreInOrder index.now }
    requires apply { AllApply index.now env.now }
    ensures { IfOk result (λ found. MatchOption found (AreRooted index.now strict.now optional.now env.now)
        (λ unit. IsFirstWithout (HasChain index.now IsAny (strict.now ++ optional.now) env.now) index.now unit.now)) }
{
    let units = index.units();
    let mut reached = Reached::new(alloc, units.len())?;
    reached.reach_roots(units, strict)?;
    reached.reach_roots(units, optional)?;
    close(&mut reached, alloc, index, env)?;
    Ok(unmarked(units, reached.marks.as_slice()))
}
