ghost use Rattle.std.specs.Prelude.{◌≡◌, ◌⊎◌, ◌++◌, ◌<◌, ◌≤◌, ℕ, List, [], Err, IfOk, IsErr};
ghost use Rattle.unit_catalog.specs.Order.{units_at};
ghost use Rattle.unit_slicer.specs.Members.{HasMoreThan};
ghost use Rattle.p2_planner.specs.Attempting.{IsAttempt, IsFitting, IsPlannedBeside, IsPlannedFor, IsSelectionOf, IsTooLargeBeside, IsTooLargeFor};
ghost use Rattle.p2_planner.specs.Planning.{IsPlanned, IsPlanOf, IsProblemTooLarge};
ghost use Rattle.p2_planner.specs.Preferring.{ArePreferred};
ghost use Rattle.p2_planner.specs.Settling.{ComesTo};
ghost use Rattle.p2_planner.specs.declared.fault.PlanFault.TheVariants as faults;

use crate::ask::Ask;
use crate::attempt::{Attempt, try_for};
use crate::fault::PlanFault;
use crate::planned::Planned;
use crate::preferring::preferred;
use crate::roots::all_roots;
use crate::settling::Settled;
use ldap_filter::Env;
use osgi_version::{List, NoMemory, Twin};
use unit_catalog::Catalog;
use unit_model::UnitName;
use unit_slicer::{rooted, slice};

/// Which units of the catalog are to be installed for the roots: a part of their slice that is valid for the strict ones
/// and those optional ones that are kept, and in which requirements lead to each unit from a root. Where the installed
/// units of the slice are valid for these, the selection is what the roots ask for of them, and nothing else is taken.
///
/// First a selection is sought for the strict roots, and the evidence shows that there is none, or that the budget was
/// spent, which is how many clauses a search may learn, from 1 to 50,000. Then each optional root has a search of its
/// own, in their order, with the whole budget: it is kept where some selection is valid for the strict roots, those kept
/// before and itself, and else left out with the evidence. A budget that is spent there is the answer too.
pub fn plan(
    catalog: &Catalog,
    installed: &List<u32>,
    roots: &List<UnitName>,
    optional: &List<UnitName>,
    env: &Env,
    budget: u32,
) -> Result<Planned, PlanFault>
    requires some { 0 < budget }
    requires small { budget ≤ 50000 }
    ensures planned { IfOk result (IsPlanned catalog.now installed.now roots.now optional.now env.now budget) }

    // The faults but want of memory come exactly where the slice, or else a problem that is come to, is too large.
    ensures slice { result ≡ Err faults.SliceTooLarge → HasMoreThan 8192 catalog.now (roots.now ++ optional.now) env.now }
    ensures slice_refused { HasMoreThan 8192 catalog.now (roots.now ++ optional.now) env.now → IsErr result }
    ensures problem { result ≡ Err faults.ProblemTooLarge → IsProblemTooLarge catalog.now roots.now optional.now env.now budget }
{
    let wanted = all_roots(roots, optional)?;
    let slice = slice(catalog, &wanted, env)?;
    let preferred = preferred(catalog, &slice, installed)?;
    let ask = Ask {
        catalog,
        env,
        slice: &slice,
        preferred: &preferred,
        budget,
    };
    let planned = plan_for(&ask, roots, optional, &wanted)?;
    Ok(planned)
}

/// The plan for a slice.
fn plan_for(
    ask: &Ask<'_, '_, '_, '_>,
    roots: &List<UnitName>,
    optional: &List<UnitName>,
    wanted: &List<UnitName>,
) -> Result<Planned, PlanFault>
    requires { wanted.now ≡ roots.now ++ optional.now }
    ensures planned { IfOk result (λ plan. (installed : List ℕ) →
        ArePreferred ask.now.slice.now installed ask.now.preferred.now →
        IsPlanOf ask.now.catalog.now ask.now.slice.now installed roots.now optional.now ask.now.env.now ask.now.budget plan) }
    ensures few { IfOk result (λ planned. ¬ (IsTooLargeFor ask.now roots.now)) }
    ensures large { result ≡ Err faults.ProblemTooLarge →
        IsTooLargeFor ask.now roots.now ⊎ (¬ (IsTooLargeFor ask.now roots.now) × IsTooLargeBeside ask.now roots.now optional.now) }
    ensures slice { result ≡ Err faults.SliceTooLarge → ⊥ }
{
    let attempt = try_for(ask, roots)?;
    let planned = planned_of(ask, roots, optional, wanted, attempt)?;
    Ok(planned)
}

/// What the attempt for the strict roots means for a plan.
fn planned_of(
    ask: &Ask<'_, '_, '_, '_>,
    roots: &List<UnitName>,
    optional: &List<UnitName>,
    wanted: &List<UnitName>,
    attempt: Attempt,
) -> Result<Planned, PlanFault>
    requires { IsAttempt ask.now roots.now attempt }
    ensures planned { IfOk result (IsPlannedFor ask.now roots.now optional.now wanted.now) }
    ensures large { result ≡ Err faults.ProblemTooLarge → IsTooLargeBeside ask.now roots.now optional.now }
    ensures slice { result ≡ Err faults.SliceTooLarge → ⊥ }
{
    match attempt {
        Attempt::Fits(chosen) => {
            let first = settled_first(roots, chosen)?;
            plan_beside(ask, optional, wanted, first)
        }
        Attempt::Refuted(evidence) => Ok(Planned::NoSelection(evidence)),
        Attempt::Spent(evidence) => Ok(Planned::Spent(evidence)),
    }
}

/// The strict roots are settled, with members that are valid for them.
fn settled_first(roots: &List<UnitName>, chosen: List<u32>) -> Result<Settled, NoMemory>
    ensures { IfOk result (λ settled. (settled.roots ≡ roots.now) × (settled.chosen ≡ chosen) × (settled.left ≡ [])) }
{
    let roots = roots.copy()?;
    let left = List::new(roots.allocator());
    Ok(Settled {
        roots,
        chosen,
        left,
    })
}

/// The plan for the optional roots, where the strict ones are settled.
fn plan_beside(
    ask: &Ask<'_, '_, '_, '_>,
    optional: &List<UnitName>,
    wanted: &List<UnitName>,
    mut settled: Settled,
) -> Result<Planned, PlanFault>
    requires fits { IsFitting ask.now settled.roots settled.chosen }
    requires none { settled.left ≡ [] }
    ensures planned { IfOk result (IsPlannedBeside ask.now settled.roots optional.now wanted.now) }
    ensures large { result ≡ Err faults.ProblemTooLarge →
        ComesTo (IsTooLargeFor ask.now) (units_at ask.now.catalog.now ask.now.slice.now) ask.now.env.now ask.now.budget settled.roots optional.now }
    ensures slice { result ≡ Err faults.SliceTooLarge → ⊥ }
{
    let spent = settled.settle_each(ask, optional)?;
    match spent {
        Some(evidence) => Ok(Planned::Spent(evidence)),
        None => {
            let members = selection(ask, wanted, &settled)?;
            Ok(Planned::Selection {
                members,
                left: settled.left,
            })
        }
    }
}

/// Those of the chosen members, which are valid for the roots that are kept, that the wanted roots ask for.
fn selection(
    ask: &Ask<'_, '_, '_, '_>,
    wanted: &List<UnitName>,
    settled: &Settled,
) -> Result<List<u32>, NoMemory>
    requires { IsFitting ask.now settled.now.roots settled.now.chosen }
    ensures { IfOk result (IsSelectionOf ask.now settled.now.roots wanted.now) }
{
    rooted(ask.catalog, &settled.chosen, wanted, ask.env)
}
