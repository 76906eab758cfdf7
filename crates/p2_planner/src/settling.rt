//! What becomes of the optional roots, one after the other.

ghost use Rattle.std.specs.Prelude.{◌≡◌, [], Err, IfOk};
ghost use Rattle.unit_catalog.specs.Order.{units_at};
ghost use Rattle.p2_planner.specs.Attempting.{AreSteps, IsAttempt, IsFitting, IsStep, IsTooLargeFor};
ghost use Rattle.p2_planner.specs.Roots.{with_name};
ghost use Rattle.p2_planner.specs.Settling.{ComesTo};
ghost use Rattle.p2_planner.specs.declared.fault.PlanFault.TheVariants as faults;

use crate::ask::Ask;
use crate::attempt::{Attempt, try_for};
use crate::fault::PlanFault;
use crate::planned::LeftOut;
use crate::roots::with_name;
use deriv_check::Evidence;
use osgi_version::{List, NoMemory, Twin};
use unit_model::UnitName;

/// How far the roots are settled.
#[derive(Drop)]
pub(crate) struct Settled {
    /// The strict roots, and the optional ones that are kept.
    pub(crate) roots: List<UnitName>,
    /// Members that are valid for these.
    pub(crate) chosen: List<u32>,
    /// The optional roots that are left out.
    pub(crate) left: List<LeftOut>,
}

impl Settled {
    /// Settles the optional roots in their order. The evidence where the budget is spent on one.
    pub(crate) fn settle_each(
        &mut self,
        ask: &Ask<'_, '_, '_, '_>,
        optional: &List<UnitName>,
    ) -> Result<Option<Evidence>, PlanFault>
        requires fits { IsFitting ask.now self.old.roots self.old.chosen }
        requires none { self.old.left ≡ [] }
        ensures ok { IfOk result (AreSteps ask.now optional.now self.old self.new) }
        ensures large { result ≡ Err faults.ProblemTooLarge →
            ComesTo (IsTooLargeFor ask.now) (units_at ask.now.catalog.now ask.now.slice.now) ask.now.env.now ask.now.budget self.old.roots optional.now }
        ensures slice { result ≡ Err faults.SliceTooLarge → ⊥ }
    {
        for root in optional.items() {
            if let Some(evidence) = self.settle(ask, root)? {
                return Ok(Some(evidence));
            }
        }
        Ok(None)
    }

    /// Keeps an optional root where some selection is valid for it and the roots so far, and leaves it out where none is.
    /// The evidence where the budget is spent.
    fn settle(
        &mut self,
        ask: &Ask<'_, '_, '_, '_>,
        root: &UnitName,
    ) -> Result<Option<Evidence>, PlanFault>
        ensures ok { IfOk result (IsStep ask.now (with_name root.now self.old.roots) root.now self.old self.new) }
        ensures few { IfOk result (λ spent. ¬ (IsTooLargeFor ask.now (with_name root.now self.old.roots))) }
        ensures large { result ≡ Err faults.ProblemTooLarge → IsTooLargeFor ask.now (with_name root.now self.old.roots) }
        ensures slice { result ≡ Err faults.SliceTooLarge → ⊥ }
    {
        let tried = with_name(&self.roots, root)?;
        let attempt = try_for(ask, &tried)?;
        let spent = self.take(ask, tried, root, attempt)?;
        Ok(spent)
    }

    /// What the attempt for the roots with this one means.
    fn take(
        &mut self,
        ask: &Ask<'_, '_, '_, '_>,
        tried: List<UnitName>,
        root: &UnitName,
        attempt: Attempt,
    ) -> Result<Option<Evidence>, NoMemory>
        requires { IsAttempt ask.now tried attempt }
        ensures { IfOk result (IsStep ask.now tried root.now self.old self.new) }
    {
        match attempt {
            Attempt::Fits(chosen) => {
                self.roots = tried;
                self.chosen = chosen;
                Ok(None)
            }
            Attempt::Refuted(evidence) => {
                let root = root.copy()?;
                self.left.push(LeftOut { root, evidence })?;
                Ok(None)
            }
            Attempt::Spent(evidence) => Ok(Some(evidence)),
        }
    }
}
