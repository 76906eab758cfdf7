ghost use Rattle.std.specs.Prelude.{◌≡◌, ◌↔◌, IfOk};
ghost use Rattle.unit_catalog.specs.Order.{AreInOrder};
ghost use Rattle.unit_model.specs.Slice.{AreRooted};
ghost use Rattle.unit_model.specs.Valid.{IsValid};
ghost use Rattle.unit_model.specs.declared.judgement.Judgement.TheVariants as judgements;
ghost use Rattle.unit_judge.specs.Judged.{HaveRoots, AllApply, IsJudged, row_number};

use crate::members::{colliding, missing_root, not_applying};
use crate::needs::unserved;
use crate::rooting::unrooted;
use ldap_filter::Env;
use osgi_version::{List, NoMemory, Twin};
use std::alloc::Global;
use unit_catalog::ProviderIndex;
use unit_model::{Judgement, Unit, UnitName};

/// Whether the units are valid for the strict roots and rooted in the roots of both lists, or else the first rule that
/// they break, in the order of the answers, with the first root or member that breaks it. An optional root that is no
/// member breaks no rule. It takes about as long as there are units that provide what each requirement asks for.
pub fn judge(
    units: &List<Unit>,
    roots: &List<UnitName>,
    optional: &List<UnitName>,
    env: &Env,
) -> Result<Judgement, NoMemory>
    requires { AreInOrder units.now }
    ensures good { IfOk result (λ judgement. (judgement ≡ judgements.Good) ↔
        (IsValid units.now roots.now env.now × AreRooted units.now roots.now optional.now env.now)) }
    ensures first { IfOk result (IsJudged units.now roots.now optional.now env.now) }
{
    let members = units.items();
    if let Some(root) = missing_root(members, roots.items()) {
        return Ok(Judgement::Root(root.copy()?));
    }
    if let Some(unit) = not_applying(members, env) {
        return Ok(Judgement::Applies(unit.name.copy()?));
    }
    let alloc = units.allocator();
    let index = ProviderIndex::new(alloc, members)?;
    judge_together(alloc, &index, roots.items(), optional.items(), env)
}

/// The same of units that apply, and that have the strict roots among them.
fn judge_together(
    alloc: Global,
    index: &ProviderIndex<'_>,
    roots: &[UnitName],
    optional: &[UnitName],
    env: &Env,
) -> Result<Judgement, NoMemory>
    requires order { AreInOrder index.now }
    requires rooted { HaveRoots index.now roots.now }
    requires apply { AllApply index.now env.now }
    ensures { IfOk result (IsJudged index.now roots.now optional.now env.now) }
{
    if let Some((unit, place)) = unserved(alloc, index, env)? {
        let unit = unit.name.copy()?;
        let row = row_number(place);
        return Ok(Judgement::Requirement { unit, row });
    }
    if let Some((unit, other)) = colliding(index.units()) {
        let first = unit.name.copy()?;
        let second = other.name.copy()?;
        return Ok(Judgement::Singleton { first, second });
    }
    match unrooted(alloc, index, roots, optional, env)? {
        Some(unit) => Ok(Judgement::Unrooted(unit.name.copy()?)),
        None => Ok(Judgement::Good),
    }
}

/// The number of a row by its place: from 1, or the greatest that fits.
fn row_number(place: usize) -> u32
    ensures { result ≡ row_number place }
{
    if place < u32::MAX as usize {
        place as u32 + 1
    } else {
        u32::MAX
    }
}
