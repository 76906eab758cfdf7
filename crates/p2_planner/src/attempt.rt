//! One attempt to select members for roots.

ghost use Rattle.std.specs.Prelude.{◌≡◌, ◌<◌, ◌≤◌, All, Err, IfOk, length, map};
ghost use Rattle.pb_core.specs.AtLeast.{at_least};
ghost use Rattle.pb_core.specs.Normal.{IsNormalOver};
ghost use Rattle.pb_core.specs.Satisfied.{SatisfiesAll};
ghost use Rattle.deriv_check.specs.Sound.{AreSound};
ghost use Rattle.unit_catalog.specs.Order.{units_at};
ghost use Rattle.pb_rows.specs.Normalising.{HasMoreTerms};
ghost use Rattle.pb_rows.specs.Rows.{rows};
ghost use Rattle.pb_solver.specs.Answers.{IsAnswer, IsWanted};
ghost use Rattle.pb_solver.specs.Wanted.{is_wanted};
ghost use Rattle.p2_planner.specs.Attempting.{IsAttempt, concluded};
ghost use Rattle.p2_planner.specs.declared.fault.PlanFault.TheVariants as faults;

use crate::ask::Ask;
use crate::choosing::chosen;
use crate::fault::PlanFault;
use deriv_check::Evidence;
use deriv_check::laws::derivations_are_sound;
use osgi_version::{List, NoMemory};
use pb_core::{Problem, Steps};
use pb_encode::encode;
use pb_solver::{Answer, solve};
use std::alloc::Global;
use std::marker::Brand;
use std::sync::ledger::{Blank, Ledger};
use unit_model::UnitName;

const MOST_CONSTRAINTS: usize = 1_000_000_000;

/// What comes of an attempt.
#[derive(Drop)]
pub(crate) enum Attempt {
    /// These members are valid for the roots.
    Fits(List<u32>),
    /// No selection is.
    Refuted(Evidence),
    Spent(Evidence),
}

/// Selects members that are valid for the roots, those that are preferred where they are, or shows why none is.
pub(crate) fn try_for(
    ask: &Ask<'_, '_, '_, '_>,
    roots: &List<UnitName>,
) -> Result<Attempt, PlanFault>
    ensures ok { IfOk result (IsAttempt ask.now roots.now) }
    ensures large { result ≡ Err faults.ProblemTooLarge →
        HasMoreTerms 4000000 (rows (units_at ask.now.catalog.now ask.now.slice.now) roots.now ask.now.env.now) }
    ensures few { IfOk result (λ attempt.
        ¬ (HasMoreTerms 4000000 (rows (units_at ask.now.catalog.now ask.now.slice.now) roots.now ask.now.env.now))) }
    ensures slice { result ≡ Err faults.SliceTooLarge → ⊥ }
{
    derivations_are_sound();
    let problem = encode(ask.catalog, ask.slice, roots, ask.env)?;
    let answer = answer_of(ask, &problem)?;
    let attempt = conclude(ask, problem, answer)?;
    Ok(attempt)
}

/// What the solver answers. Memory is wanting for over a thousand million constraints.
fn answer_of(ask: &Ask<'_, '_, '_, '_>, problem: &Problem) -> Result<Answer, NoMemory>
    requires labels { length problem.now.labels ≡ length ask.now.slice.now }
    requires normal { All (λ c. IsNormalOver (length problem.now.labels) (at_least c)) problem.now.constraints }
    ensures few { IfOk result (λ answer. length problem.now.constraints ≤ 1000000000) }
    ensures answer { IfOk result (IsAnswer (length problem.now.labels) problem.now.constraints ask.now.budget) }
    ensures wanted { SatisfiesAll (is_wanted ask.now.preferred.now) (map at_least problem.now.constraints)
        → IfOk result (IsWanted (is_wanted ask.now.preferred.now)) }
{
    if problem.constraints.len() > MOST_CONSTRAINTS {
        return Err(NoMemory);
    }
    let alloc = ask.slice.allocator();
    solved::<Brand>(alloc, problem, ask.budget, ask.preferred, Blank::new(1))
}

/// What the solver answers, with a count of steps of its own.
fn solved<L: Ledger>(
    alloc: Global,
    problem: &Problem,
    budget: u32,
    order: &List<u32>,
    blank: Blank,
) -> Result<Answer, NoMemory>
    requires name { blank.name ≡ L.name }
    requires parts { blank.parts ≡ L.parts }
    requires one { blank.parts ≡ 1 }
    requires some_budget { 0 < budget }
    requires small_budget { budget ≤ 50000 }
    requires labels { length problem.now.labels ≤ 1000000000 }
    requires constraints { length problem.now.constraints ≤ 1000000000 }
    requires normal { All (λ c. IsNormalOver (length problem.now.labels) (at_least c)) problem.now.constraints }
    requires order { All (λ v. (0 < v) × (v ≤ length problem.now.labels)) order.now }
    ensures answer { IfOk result (IsAnswer (length problem.now.labels) problem.now.constraints budget) }
    ensures wanted { SatisfiesAll (is_wanted order.now) (map at_least problem.now.constraints) → IfOk result (IsWanted (is_wanted order.now)) }
{
    let mut steps = Steps::<L>::new(blank);
    let answer = solve(alloc, problem, budget, order, &mut steps)?;
    Ok(answer)
}

/// What the answer means for the members.
fn conclude(
    ask: &Ask<'_, '_, '_, '_>,
    problem: Problem,
    answer: Answer,
) -> Result<Attempt, NoMemory>
    requires { IsAnswer (length ask.now.slice.now) problem.constraints ask.now.budget answer }
    ensures { IfOk result (λ attempt. attempt ≡ concluded ask.now.slice.now problem answer) }
{
    match answer {
        Answer::Model(values) => {
            drop(problem);
            let members = chosen(ask.slice, &values)?;
            Ok(Attempt::Fits(members))
        }
        Answer::Refuted(derivation) => Ok(Attempt::Refuted(Evidence {
            problem,
            derivation,
        })),
        Answer::Spent(derivation) => Ok(Attempt::Spent(Evidence {
            problem,
            derivation,
        })),
    }
}
