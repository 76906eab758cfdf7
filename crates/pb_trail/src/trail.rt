ghost use Rattle.std.specs.Prelude.{◌≡◌, ◌<◌, ◌≤◌, ◌+◌, ◌-◌, ◌++◌, [], ◌∷◌, None, All, AllPairs, IfOk, OnOk, OnErr, length, map, replicate, take, ◌≢◌};
ghost use Rattle.pb_core.specs.AtLeast.{at_least, clause};
ghost use Rattle.pb_core.specs.Normal.{IsNormalOver};
ghost use Rattle.pb_core.specs.Values.{make_true};
ghost use Rattle.pb_trail.specs.Along.{weight};
ghost use Rattle.pb_trail.specs.Trail.{IsStep, IsTrail, Counted};
ghost use Rattle.pb_trail.specs.Growth.{Extends};

use osgi_version::{List, NoMemory};
use pb_core::{Kept, Lit, Problem, Steps};
use std::alloc::Global;
use std::sync::ledger::Ledger;

/// A literal that was made true, and the number of the constraint that forced it, or 0 where it was chosen.
#[derive(Clone, Copy, Debug, PartialEq, Eq)]
pub struct Entry {
    pub lit: Lit,
    pub reason: u32,
}

/// Constraints with kept slacks, and the literals that were made true, in their order.
#[derive(Drop)]
pub struct Trail {
    pub kept: Kept,
    pub entries: Vec<Entry>,
}

impl Trail {
    /// The constraints of a problem, with all variables open.
    pub fn new(alloc: Global, problem: &Problem) -> Result<Trail, NoMemory>
        requires labels { length problem.now.labels ≤ 1000000000 }
        requires constraints { length problem.now.constraints ≤ 1000000000 }
        requires normal { All (λ c. IsNormalOver (length problem.now.labels) (at_least c)) problem.now.constraints }
        ensures good { IfOk result IsTrail }
        ensures constraints { IfOk result (λ trail. trail.kept.constraints ≡ map at_least problem.now.constraints) }
        ensures values { IfOk result (λ trail. trail.kept.values ≡ replicate (length problem.now.labels) None) }
        ensures entries { IfOk result (λ trail. trail.entries.items ≡ []) }
    {
        let entries = Vec::with_capacity(alloc, problem.labels.len() + 1)?;
        let kept = Kept::new(alloc, problem)?;
        Ok(Trail { kept, entries })
    }

    /// Adds the constraint that a literal of the clause is true. An `Err` changes nothing.
    pub fn add(&mut self, lits: &List<Lit>) -> Result<(), NoMemory>
        requires good { IsTrail self.old }
        requires among { All (λ l. (0 < l.variable) × (l.variable ≤ length self.old.kept.values)) lits.now }
        requires distinct { AllPairs (λ a b. a.variable ≢ b.variable) lits.now }
        requires few { length self.old.kept.constraints < 2000000000 }
        ensures good { IsTrail self.new }
        ensures constraints { OnOk result (self.new.kept.constraints ≡ self.old.kept.constraints ++ clause lits.now ∷ []) }
        ensures values { self.new.kept.values ≡ self.old.kept.values }
        ensures entries { self.new.entries.items ≡ self.old.entries.items }
        ensures err { OnErr result (self.new ≡ self.old) }
    {
        self.kept.add(lits)?;
        Ok(())
    }

    /// Makes an open literal true.
    pub(crate) fn make_true<L: Ledger>(&mut self, entry: Entry, steps: &mut Steps<L>)
        requires good { IsTrail self.old }
        requires step { IsStep self.old.kept.constraints self.old.kept.values entry }
        ensures good { IsTrail self.new }
        ensures extends { Extends self.old self.new }
        ensures constraints { self.new.kept.constraints ≡ self.old.kept.constraints }
        ensures values { self.new.kept.values ≡ make_true self.old.kept.values entry.lit }
        ensures entries { self.new.entries.items ≡ self.old.entries.items ++ entry ∷ [] }
        ensures steps { Counted self.old self.new steps.old steps.new }
    {
        self.kept.assign(entry.lit, steps);
        self.entries.push_reserved(entry);
    }

    /// Takes the last entry back.
    fn take_last_back<L: Ledger>(&mut self, steps: &mut Steps<L>)
        requires good { IsTrail self.old }
        requires some { 0 < length self.old.entries.items }
        ensures good { IsTrail self.new }
        ensures constraints { self.new.kept.constraints ≡ self.old.kept.constraints }
        ensures variables { length self.new.kept.values ≡ length self.old.kept.values }
        ensures entries { self.new.entries.items ≡ take (length self.old.entries.items - 1) self.old.entries.items }
        ensures steps { steps.new + weight self.old.kept.constraints self.new.entries.items ≡ steps.old + weight self.old.kept.constraints self.old.entries.items }
    {
        let Some(entry) = self.entries.pop() else {
            return;
        };
        self.kept.clear(entry.lit.variable, steps);
    }

    /// Takes back all entries but the first `count`. Costs the constraints whose slacks change.
    pub fn take_back<L: Ledger>(&mut self, count: usize, steps: &mut Steps<L>)
        requires good { IsTrail self.old }
        requires within { count ≤ length self.old.entries.items }
        ensures good { IsTrail self.new }
        ensures constraints { self.new.kept.constraints ≡ self.old.kept.constraints }
        ensures variables { length self.new.kept.values ≡ length self.old.kept.values }
        ensures entries { self.new.entries.items ≡ take count self.old.entries.items }
        ensures steps { steps.new + weight self.old.kept.constraints self.new.entries.items ≡ steps.old + weight self.old.kept.constraints self.old.entries.items }
    {
        while self.entries.len() > count {
            self.take_last_back(steps);
        }
    }
}
