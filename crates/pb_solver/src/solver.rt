ghost use Rattle.std.specs.Prelude.{◌≡◌, ◌<◌, ◌≤◌, ◌+◌, ◌*◌, All, IfOk, length, map};
ghost use Rattle.pb_core.specs.AtLeast.{at_least};
ghost use Rattle.pb_core.specs.Normal.{IsNormalOver};
ghost use Rattle.pb_core.specs.Satisfied.{SatisfiesAll};
ghost use Rattle.pb_solver.specs.Answers.{IsAnswer, IsWanted, terms_of};
ghost use Rattle.pb_solver.specs.Wanted.{is_wanted};

use crate::answer::Answer;
use crate::search::Search;
use osgi_version::{List, NoMemory};
use pb_core::{Problem, Steps};
use std::alloc::Global;
use std::sync::ledger::Ledger;

/// Searches for an assignment that satisfies a problem, and learns a clause from each conflict, at most `budget` of them.
/// The first assignment that is tried makes exactly the variables of `order` true. Between two conflicts a variable gets
/// a value once, so the steps, which are changes of a constraint's slack, are at most
/// `2 * (budget + 1) * (terms + budget * variables)`, also where memory ends. Time and memory: each conflict costs in
/// addition the variables, and the terms of the constraints that it rests on.
pub fn solve<L: Ledger>(
    alloc: Global,
    problem: &Problem,
    budget: u32,
    order: &List<u32>,
    steps: &mut Steps<L>,
) -> Result<Answer, NoMemory>
    requires some_budget { 0 < budget }
    requires small_budget { budget ≤ 50000 }
    requires labels { length problem.now.labels ≤ 1000000000 }
    requires constraints { length problem.now.constraints ≤ 1000000000 }
    requires normal { All (λ c. IsNormalOver (length problem.now.labels) (at_least c)) problem.now.constraints }
    requires order { All (λ v. (0 < v) × (v ≤ length problem.now.labels)) order.now }
    ensures answer { IfOk result (IsAnswer (length problem.now.labels) problem.now.constraints budget) }
    ensures wanted { SatisfiesAll (is_wanted order.now) (map at_least problem.now.constraints) → IfOk result (IsWanted (is_wanted order.now)) }
    ensures steps { steps.new ≤ steps.old + 2 * (budget + 1) * (terms_of problem.now.constraints + budget * length problem.now.labels) }
{
    let mut search = Search::new(alloc, problem, budget, order)?;
    search.settle(1, steps);
    let ending = search.run(alloc, steps)?;
    let answer = search.finish(alloc, ending)?;
    Ok(answer)
}
