ghost use Rattle.std.specs.Prelude.{◌≡◌, ◌<◌, ◌≤◌, ◌+◌, ◌-◌, ◌++◌, ◌∷◌, [], ℕ, All, IfOk, OnOk, OnErr, IsTrue, None, Some, length, map, slice_index_or};
ghost use Rattle.pb_core.specs.AtLeast.{at_least};
ghost use Rattle.pb_core.specs.Fresh.{Fresh};
ghost use Rattle.pb_core.specs.Normal.{IsNormalOver};
ghost use Rattle.pb_core.specs.Satisfied.{SatisfiesAll};
ghost use Rattle.deriv_check.specs.LineRule.{Checks};
ghost use Rattle.pb_trail.specs.Rest.{IsSettled, RestBefore};
ghost use Rattle.clause_learning.specs.Asserting.{IsAsserting};
ghost use Rattle.pb_solver.specs.Levels.{last_of};
ghost use Rattle.pb_solver.specs.SearchHolds.{SearchHolds, IsSettledSearch, IsSameSearch, problem_of, variables_of, wish_of};
ghost use Rattle.pb_solver.specs.Spending.{spent, most_spent};
ghost use Rattle.pb_solver.specs.Values.{IsUnassigned};
ghost use Rattle.pb_solver.specs.Wanted.{is_wanted};

use crate::agenda::{Agenda, marks};
use crate::levels::Levels;
use clause_learning::Learned;
use deriv_check::Line;
use osgi_version::{List, NoMemory};
use pb_core::{Lit, Problem, Steps};
use std::alloc::Global;
use std::sync::ledger::Ledger;

/// A search for an assignment.
#[derive(Drop)]
pub(crate) struct Search {
    pub(crate) levels: Levels,
    /// What was learned.
    pub(crate) lines: List<Line>,
    /// The number of a constraint that is violated.
    pub(crate) found: Option<u32>,
    /// Which variables are tried as true, by variables from 0.
    pub(crate) wanted: Vec<bool>,
    pub(crate) agenda: Agenda,
    /// How many clauses may be learned.
    pub(crate) budget: u32,
}

/// How a search ends.
#[derive(Clone, Copy)]
pub(crate) enum Ending {
    Model,
    /// This constraint is violated though nothing was decided.
    Refuted(u32),
    Spent,
}

impl Search {
    /// The search before its first turn.
    pub(crate) fn new(
        alloc: Global,
        problem: &Problem,
        budget: u32,
        order: &List<u32>,
    ) -> Result<Search, NoMemory>
        requires budget { budget ≤ 50000 }
        requires labels { length problem.now.labels ≤ 1000000000 }
        requires constraints { length problem.now.constraints ≤ 1000000000 }
        requires normal { All (λ c. IsNormalOver (length problem.now.labels) (at_least c)) problem.now.constraints }
        requires order { All (λ v. (0 < v) × (v ≤ length problem.now.labels)) order.now }
        ensures holds { IfOk result SearchHolds }
        ensures problem { IfOk result (λ search. problem_of search ≡ map at_least problem.now.constraints) }
        ensures variables { IfOk result (λ search. variables_of search ≡ length problem.now.labels) }
        ensures wishes { IfOk result (λ search. (v : ℕ) → wish_of search v ≡ is_wanted order.now v) }
        ensures budget { IfOk result (λ search. search.budget ≡ budget) }
        ensures spent { IfOk result (λ search. spent search ≡ 0) }
    {
        let variables = problem.labels.len() as u32;
        let wanted = marks(alloc, order.items(), variables)?;
        let agenda = Agenda::new(alloc, order.items(), variables)?;
        let levels = Levels::new(alloc, problem)?;
        let lines = List::new(alloc);
        let found = None;
        Ok(Search {
            levels,
            lines,
            found,
            wanted,
            agenda,
            budget,
        })
    }

    /// Makes true what the constraints from a number on force, and then all that is forced.
    pub(crate) fn settle<L: Ledger>(&mut self, from: u32, steps: &mut Steps<L>)
        requires holds { SearchHolds self.old }
        requires from_one { 0 < from }
        requires rest { RestBefore self.old.levels.trail from }
        ensures holds { IsSettledSearch self.new }
        ensures same { IsSameSearch self.old self.new }
        ensures lines { self.new.lines ≡ self.old.lines }
        ensures steps { steps.new + spent self.old ≤ steps.old + spent self.new }
    {
        self.found = self.levels.settle(from, steps);
    }

    /// The value that a variable is tried with: the one that is wanted until a clause is learned, then its last one.
    fn first_value(&self, variable: u32) -> bool
        requires { variable < length self.now.wanted.items }
        ensures { self.now.lines ≡ [] → result ≡ wish_of self.now variable }
    {
        if self.lines.is_empty() {
            return self.wanted[variable as usize];
        }
        self.agenda.last_value(variable)
    }

    /// Gives an open variable a value, and then makes true what is forced.
    pub(crate) fn decide<L: Ledger>(
        &mut self,
        variable: u32,
        steps: &mut Steps<L>,
    ) -> Result<(), NoMemory>
        requires holds { SearchHolds self.old }
        requires rest { IsSettled self.old.levels.trail None }
        requires unassigned { IsUnassigned self.old.levels.trail.kept.values variable }
        ensures holds { OnOk result (IsSettledSearch self.new) }
        ensures same { OnOk result (IsSameSearch self.old self.new) }
        ensures lines { OnOk result (self.new.lines ≡ self.old.lines) }
        ensures grows { OnOk result (length self.old.levels.trail.entries.items < length self.new.levels.trail.entries.items) }
        ensures steps { OnOk result (steps.new + spent self.old ≤ steps.old + spent self.new) }
        ensures err { OnErr result (steps.new ≡ steps.old) }
    {
        let positive = self.first_value(variable);
        let found = self.levels.decide(Lit { variable, positive }, steps)?;
        self.found = found;
        Ok(())
    }

    /// Keeps a line that was learned: goes back to where its clause forces its first literal, or to no decision, and adds
    /// it.
    pub(crate) fn keep<L: Ledger>(
        &mut self,
        start: usize,
        learned: Learned,
        steps: &mut Steps<L>,
    ) -> Result<(), NoMemory>
        requires holds { SearchHolds self.old }
        requires room { length self.old.lines < self.old.budget }
        requires decided { 0 < length self.old.levels.starts.items }
        requires start { start ≡ last_of self.old.levels.starts.items }
        requires checks { Checks (variables_of self.old) self.old.levels.trail.kept.constraints learned.line }
        requires fresh { Fresh learned.line.clause self.old.levels.trail.kept.constraints }
        requires asserting { IsAsserting self.old.levels.trail start learned.floor learned.line.clause }
        requires not_wanted { ¬ (SatisfiesAll (wish_of self.old) (problem_of self.old)) }
        ensures holds { OnOk result (SearchHolds self.new) }
        ensures same { OnOk result (IsSameSearch self.old self.new) }
        ensures lines { OnOk result (length self.new.lines ≡ length self.old.lines + 1) }
        ensures rest { OnOk result (RestBefore self.new.levels.trail (length self.new.levels.trail.kept.constraints)) }
        ensures some { OnOk result (0 < length self.new.levels.trail.kept.constraints) }
        ensures steps { OnOk result (steps.new + spent self.old ≤ steps.old + spent self.new) }
        ensures err { OnErr result (steps.new + spent self.old ≤ steps.old + most_spent self.old) }
    {
        let Learned { line, floor, met } = learned;
        let entries = self.levels.trail.entries.as_slice();
        let floor = self.agenda.note_conflict(met.items(), entries, floor);
        self.levels.go_back(floor, steps);
        self.levels.add(&line.clause)?;
        self.lines.push(line)?;
        Ok(())
    }
}
