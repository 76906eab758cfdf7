ghost use Rattle.std.specs.Prelude.{◌≡◌, ◌<◌, ◌≤◌, ◌+◌, ◌-◌, ◌++◌, ◌∷◌, [], ℕ, All, IfOk, OnOk, OnErr, MatchOption, IsTrue, None, length, map, replicate, slice_index_or};
ghost use Rattle.pb_core.specs.AtLeast.{at_least, clause};
ghost use Rattle.pb_core.specs.Normal.{IsNormalOver};
ghost use Rattle.pb_core.specs.Values.{is_open};
ghost use Rattle.deriv_check.specs.LineRule.{HasLiterals};
ghost use Rattle.pb_trail.specs.Along.{values_before, weight};
ghost use Rattle.pb_trail.specs.Growth.{Grows, IsDecided};
ghost use Rattle.pb_trail.specs.Rest.{Rests, RestBefore, IsSettled};
ghost use Rattle.pb_trail.specs.Trail.{Counted};
ghost use Rattle.pb_solver.specs.Levels.{LevelsHold, IsBack, RestsAtLevels, last_of};

use osgi_version::{List, NoMemory};
use pb_core::{Lit, Problem, Steps};
use pb_trail::Trail;
use std::alloc::Global;
use std::sync::ledger::Ledger;

/// A trail that is cut into levels, each of which begins with a decision.
#[derive(Drop)]
pub(crate) struct Levels {
    pub(crate) trail: Trail,
    /// Where the decisions stand, rising.
    pub(crate) starts: Vec<usize>,
}

/// How many of the levels begin below a floor.
fn levels_below(starts: &[usize], floor: usize) -> usize
    ensures within { result ≤ length starts.now }
    ensures below { (i : ℕ) → i < result → slice_index_or starts.now i 0 < floor }
    ensures here { result < length starts.now → floor ≤ slice_index_or starts.now result 0 }
{
    let mut count = 0;
    while count < starts.len() && starts[count] < floor {
        count += 1;
    }
    count
}

impl Levels {
    /// The constraints of a problem, with no variable assigned.
    pub(crate) fn new(alloc: Global, problem: &Problem) -> Result<Levels, NoMemory>
        requires labels { length problem.now.labels ≤ 1000000000 }
        requires constraints { length problem.now.constraints ≤ 1000000000 }
        requires normal { All (λ c. IsNormalOver (length problem.now.labels) (at_least c)) problem.now.constraints }
        ensures holds { IfOk result LevelsHold }
        ensures constraints { IfOk result (λ levels. levels.trail.kept.constraints ≡ map at_least problem.now.constraints) }
        ensures values { IfOk result (λ levels. levels.trail.kept.values ≡ replicate (length problem.now.labels) None) }
        ensures entries { IfOk result (λ levels. levels.trail.entries.items ≡ []) }
        ensures starts { IfOk result (λ levels. levels.starts.items ≡ []) }
    {
        let trail = Trail::new(alloc, problem)?;
        let starts = Vec::new(alloc);
        Ok(Levels { trail, starts })
    }

    /// Where the last level begins, where there is a decision.
    pub(crate) fn last_start(&self) -> Option<usize>
        ensures { MatchOption result (self.now.starts.items ≡ [])
            (λ start. (0 < length self.now.starts.items) × (start ≡ last_of self.now.starts.items)) }
    {
        let count = self.starts.len();
        if count == 0 {
            return None;
        }
        Some(self.starts[count - 1])
    }

    /// Begins a level with an open literal, and makes true what is forced. The number of a constraint that is violated.
    pub(crate) fn decide<L: Ledger>(
        &mut self,
        lit: Lit,
        steps: &mut Steps<L>,
    ) -> Result<Option<u32>, NoMemory>
        requires holds { LevelsHold self.old }
        requires from_one { 0 < lit.variable }
        requires within { lit.variable ≤ length self.old.trail.kept.values }
        requires is_open { IsTrue (is_open self.old.trail.kept.values lit) }
        requires rest { IsSettled self.old.trail None }
        ensures holds { OnOk result (LevelsHold self.new) }
        ensures grows { OnOk result (IsDecided self.old.trail self.new.trail lit) }
        ensures found { IfOk result (IsSettled self.new.trail) }
        ensures steps { OnOk result (Counted self.old.trail self.new.trail steps.old steps.new) }
        ensures err { OnErr result (steps.new ≡ steps.old) }
    {
        self.starts.push(self.trail.entries.len())?;
        let found = self.trail.decide(lit, steps);
        Ok(found)
    }

    /// Goes back to the lowest level at which all entries below the floor still stand.
    pub(crate) fn go_back<L: Ledger>(&mut self, floor: usize, steps: &mut Steps<L>)
        requires holds { LevelsHold self.old }
        requires some { 0 < length self.old.starts.items }
        requires floor { floor ≤ last_of self.old.starts.items }
        ensures holds { LevelsHold self.new }
        ensures back { IsBack self.old self.new floor }
        ensures steps { steps.new + weight self.old.trail.kept.constraints self.new.trail.entries.items ≡ steps.old + weight self.old.trail.kept.constraints self.old.trail.entries.items }
    {
        let kept = levels_below(self.starts.as_slice(), floor);
        let count = self.starts[kept];
        self.starts.truncate(kept);
        self.trail.take_back(count, steps);
    }

    /// Adds a clause that rests at the start of each level. An `Err` changes nothing.
    pub(crate) fn add(&mut self, lits: &List<Lit>) -> Result<(), NoMemory>
        requires holds { LevelsHold self.old }
        requires literals { HasLiterals (length self.old.trail.kept.values) lits.now }
        requires few { length self.old.trail.kept.constraints < 2000000000 }
        requires rests { RestsAtLevels self.old.trail self.old.starts.items (clause lits.now) }
        ensures holds { OnOk result (LevelsHold self.new) }
        ensures constraints { OnOk result (self.new.trail.kept.constraints ≡ self.old.trail.kept.constraints ++ clause lits.now ∷ []) }
        ensures values { self.new.trail.kept.values ≡ self.old.trail.kept.values }
        ensures entries { self.new.trail.entries.items ≡ self.old.trail.entries.items }
        ensures starts { self.new.starts.items ≡ self.old.starts.items }
    {
        self.trail.add(lits)?;
        Ok(())
    }

    /// Makes true what the constraints from a number on force, and then all that is forced. The number of a constraint
    /// that is violated.
    pub(crate) fn settle<L: Ledger>(&mut self, from: u32, steps: &mut Steps<L>) -> Option<u32>
        requires holds { LevelsHold self.old }
        requires from_one { 0 < from }
        requires rest { RestBefore self.old.trail from }
        ensures holds { LevelsHold self.new }
        ensures grows { Grows self.old.trail self.new.trail }
        ensures found { IsSettled self.new.trail result }
        ensures starts { self.new.starts.items ≡ self.old.starts.items }
        ensures steps { Counted self.old.trail self.new.trail steps.old steps.new }
    {
        let found = self.trail.settle(from, steps);
        found
    }
}
