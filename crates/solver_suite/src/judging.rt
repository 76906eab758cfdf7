//! What the solver answers, and whether it is right.
ghost use Rattle.std.specs.Prelude.{◌≡◌, ◌<◌, ◌≤◌, ◌↔◌, length, All, IsTrue};
ghost use Rattle.pb_core.specs.AtLeast.{at_least};
ghost use Rattle.pb_core.specs.Normal.{IsNormalOver};

use deriv_check::{CheckFault, Derivation, Verdict, check};
use osgi_version::{List, NoMemory};
use pb_core::{Assignment, Problem, Steps, slack};
use pb_solver::{Answer, solve};
use std::alloc::Global;
use std::marker::Brand;
use std::sync::ledger::{Blank, Ledger};

/// What an answer comes to.
#[derive(Clone, Copy, PartialEq, Eq)]
pub enum Finding {
    /// Every variable has a value, no constraint is violated, and the true variables are those asked for, or not.
    Model { wanted: bool },
    Refuted,
    /// So many lines check.
    Spent(usize),
    /// A model that leaves a variable open or violates a constraint, or a derivation that doesn't show what it should.
    Wrong,
}

fn solved<L: Ledger>(
    alloc: Global,
    problem: &Problem,
    budget: u32,
    order: &List<u32>,
    blank: Blank,
) -> Result<Answer, NoMemory>
    requires name { blank.name ≡ L.name }
    requires parts { blank.parts ≡ L.parts }
    requires one { blank.parts ≡ 1 }
    requires some_budget { 0 < budget }
    requires small_budget { budget ≤ 50000 }
    requires labels { length problem.now.labels ≤ 1000000000 }
    requires constraints { length problem.now.constraints ≤ 1000000000 }
    requires normal { All (λ c. IsNormalOver (length problem.now.labels) (at_least c)) problem.now.constraints }
    requires order { All (λ v. (0 < v) × (v ≤ length problem.now.labels)) order.now }
{
    let mut steps = Steps::<L>::new(blank);
    let answer = solve(alloc, problem, budget, order, &mut steps)?;
    Ok(answer)
}

fn is_satisfied(problem: &Problem, values: &Assignment) -> bool
    requires labels { length values.now ≡ length problem.now.labels }
    requires normal { All (λ c. IsNormalOver (length problem.now.labels) (at_least c)) problem.now.constraints }
{
    let constraints = problem.constraints.items();
    for constraint in constraints {
        if slack(constraint, values) < 0 {
            return false;
        }
    }
    true
}

fn is_complete(values: &Assignment) -> bool
    requires { length values.now ≤ 1000000000 }
{
    for variable in 1..values.len() as u32 + 1 {
        if values.value(variable).is_none() {
            return false;
        }
    }
    true
}

/// Whether exactly the variables of the list are true.
fn is_wanted(values: &Assignment, order: &[u32]) -> bool
    requires { length values.now ≤ 1000000000 }
{
    for variable in 1..values.len() as u32 + 1 {
        if values.value(variable) != Some(order.contains(&variable)) {
            return false;
        }
    }
    true
}

fn model(problem: &Problem, order: &[u32], values: &Assignment) -> Finding
    requires labels { length problem.now.labels ≤ 1000000000 }
    requires normal { All (λ c. IsNormalOver (length problem.now.labels) (at_least c)) problem.now.constraints }
{
    if values.len() != problem.labels.len() {
        return Finding::Wrong;
    }
    if !is_complete(values) || !is_satisfied(problem, values) {
        return Finding::Wrong;
    }
    let wanted = is_wanted(values, order);
    Finding::Model { wanted }
}

fn verdict(
    alloc: Global,
    problem: &Problem,
    derivation: &Derivation,
) -> Result<Option<Verdict>, NoMemory>
    requires labels { length problem.now.labels ≤ 1000000000 }
    requires constraints { length problem.now.constraints ≤ 1000000000 }
    requires normal { All (λ c. IsNormalOver (length problem.now.labels) (at_least c)) problem.now.constraints }
{
    if derivation.lines.len() > 60_000 {
        return Ok(None);
    }
    match check(alloc, problem, derivation) {
        Ok(verdict) => Ok(Some(verdict)),
        Err(CheckFault::Bad { .. }) => Ok(None),
        Err(CheckFault::NoMemory) => Err(NoMemory),
    }
}

fn judged(
    alloc: Global,
    problem: &Problem,
    order: &[u32],
    answer: &Answer,
) -> Result<Finding, NoMemory>
    requires labels { length problem.now.labels ≤ 1000000000 }
    requires constraints { length problem.now.constraints ≤ 1000000000 }
    requires normal { All (λ c. IsNormalOver (length problem.now.labels) (at_least c)) problem.now.constraints }
{
    match answer {
        Answer::Model(values) => Ok(model(problem, order, values)),
        Answer::Refuted(derivation) => match verdict(alloc, problem, derivation)? {
            Some(Verdict::Refutes) => Ok(Finding::Refuted),
            _ => Ok(Finding::Wrong),
        },
        Answer::Spent(derivation) => match verdict(alloc, problem, derivation)? {
            Some(Verdict::Follows) => Ok(Finding::Spent(derivation.lines.len())),
            _ => Ok(Finding::Wrong),
        },
    }
}

/// Solves a problem, and judges the answer.
pub fn solve_and_judge(
    alloc: Global,
    problem: &Problem,
    budget: u32,
    order: &List<u32>,
) -> Result<Finding, NoMemory>
    requires some_budget { 0 < budget }
    requires small_budget { budget ≤ 50000 }
    requires labels { length problem.now.labels ≤ 1000000000 }
    requires constraints { length problem.now.constraints ≤ 1000000000 }
    requires normal { All (λ c. IsNormalOver (length problem.now.labels) (at_least c)) problem.now.constraints }
    requires order { All (λ v. (0 < v) × (v ≤ length problem.now.labels)) order.now }
{
    let answer = solved::<Brand>(alloc, problem, budget, order, Blank::new(1))?;
    judged(alloc, problem, order.items(), &answer)
}
