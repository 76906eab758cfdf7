ghost use Rattle.std.specs.Prelude.{◌≡◌, ◌<◌, ◌≤◌, ◌+◌, ◌-◌, ℕ, List as Items, IfOk, OnOk, OnErr, None, Some, length, map, slice_index_or};
ghost use Rattle.pb_core.specs.AtLeast.{at_least};
ghost use Rattle.pb_core.specs.Satisfied.{SatisfiesAll};
ghost use Rattle.pb_core.specs.declared.constraint.Constraint.{Constraint};
ghost use Rattle.pb_trail.specs.Rest.{IsSettled};
ghost use Rattle.pb_solver.specs.Answers.{IsAnswer, IsRefutation, IsWanted};
ghost use Rattle.pb_solver.specs.Ending.{EndsIn, EndsInRefutation, IsTurn, IsOver};
ghost use Rattle.pb_solver.specs.Levels.{last_of};
ghost use Rattle.pb_solver.specs.SearchHolds.{SearchHolds, IsSettledSearch, IsSameSearch, problem_of, variables_of, wish_of};
ghost use Rattle.pb_solver.specs.Spending.{spent, most_spent};

use crate::answer::Answer;
use crate::search::{Ending, Search};
use clause_learning::{learn, refute};
use deriv_check::Derivation;
use osgi_version::{NoMemory, Twin};
use pb_core::Steps;
use std::alloc::Global;
use std::sync::ledger::Ledger;

impl Search {
    /// Learns from a conflict behind a decision. After an `Err` the search may only be dropped.
    fn learn<L: Ledger>(
        &mut self,
        alloc: Global,
        start: usize,
        conflict: u32,
        steps: &mut Steps<L>,
    ) -> Result<(), NoMemory>
        requires holds { SearchHolds self.old }
        requires room { length self.old.lines < self.old.budget }
        requires decided { 0 < length self.old.levels.starts.items }
        requires start { start ≡ last_of self.old.levels.starts.items }
        requires conflict { IsSettled self.old.levels.trail (Some conflict) }
        ensures holds { OnOk result (IsSettledSearch self.new) }
        ensures same { OnOk result (IsSameSearch self.old self.new) }
        ensures lines { OnOk result (length self.new.lines ≡ length self.old.lines + 1) }
        ensures steps { OnOk result (steps.new + spent self.old ≤ steps.old + spent self.new) }
        ensures err { OnErr result (steps.new + spent self.old ≤ steps.old + most_spent self.old) }
    {
        let learned = learn(alloc, &self.levels.trail, start, conflict)?;
        self.keep(start, learned, steps)?;
        let number = self.levels.trail.kept.len() as u32;
        self.settle(number, steps);
        Ok(())
    }

    /// What follows from a conflict: a line, or the end. After an `Err` the search may only be dropped.
    fn take_conflict<L: Ledger>(
        &mut self,
        alloc: Global,
        conflict: u32,
        steps: &mut Steps<L>,
    ) -> Result<Option<Ending>, NoMemory>
        requires holds { SearchHolds self.old }
        requires conflict { IsSettled self.old.levels.trail (Some conflict) }
        ensures turn { IfOk result (IsTurn self.old self.new) }
        ensures steps { OnOk result (steps.new + spent self.old ≤ steps.old + spent self.new) }
        ensures err { OnErr result (steps.new + spent self.old ≤ steps.old + most_spent self.old) }
    {
        let Some(start) = self.levels.last_start() else {
            return Ok(Some(Ending::Refuted(conflict)));
        };
        if self.lines.len() >= self.budget as usize {
            return Ok(Some(Ending::Spent));
        }
        self.learn(alloc, start, conflict, steps)?;
        Ok(None)
    }

    /// What follows where all constraints rest: a decision, or the end. After an `Err` the search may only be dropped.
    fn take_decision<L: Ledger>(&mut self, steps: &mut Steps<L>) -> Result<Option<Ending>, NoMemory>
        requires holds { SearchHolds self.old }
        requires rest { IsSettled self.old.levels.trail None }
        ensures turn { IfOk result (IsTurn self.old self.new) }
        ensures steps { OnOk result (steps.new + spent self.old ≤ steps.old + spent self.new) }
        ensures err { OnErr result (steps.new ≡ steps.old) }
    {
        let values = self.levels.trail.kept.values();
        let Some(variable) = self.agenda.next_open(values) else {
            return Ok(Some(Ending::Model));
        };
        self.decide(variable, steps)?;
        Ok(None)
    }

    /// One turn. After an `Err` the search may only be dropped.
    fn turn<L: Ledger>(
        &mut self,
        alloc: Global,
        steps: &mut Steps<L>,
    ) -> Result<Option<Ending>, NoMemory>
        requires settled { IsSettledSearch self.old }
        ensures turn { IfOk result (IsTurn self.old self.new) }
        ensures steps { OnOk result (steps.new + spent self.old ≤ steps.old + spent self.new) }
        ensures err { OnErr result (steps.new + spent self.old ≤ steps.old + most_spent self.old) }
    {
        let ending = match self.found {
            Some(conflict) => self.take_conflict(alloc, conflict, steps)?,
            None => self.take_decision(steps)?,
        };
        Ok(ending)
    }

    /// Turns until the search is over. After an `Err` the search may only be dropped.
    pub(crate) fn run<L: Ledger>(
        &mut self,
        alloc: Global,
        steps: &mut Steps<L>,
    ) -> Result<Ending, NoMemory>
        requires settled { IsSettledSearch self.old }
        ensures over { IfOk result (IsOver self.old self.new) }
        ensures steps { OnOk result (steps.new + spent self.old ≤ steps.old + spent self.new) }
        ensures err { OnErr result (steps.new + spent self.old ≤ steps.old + most_spent self.old) }
    {
        loop {
            if let Some(ending) = self.turn(alloc, steps)? {
                return Ok(ending);
            }
        }
    }

    /// The lines, and behind them the empty clause.
    fn refuted(self, alloc: Global, conflict: u32) -> Result<Derivation, NoMemory>
        requires holds { SearchHolds self }
        requires ends { EndsInRefutation self conflict }
        ensures { (constraints : Items Constraint) → problem_of self ≡ map at_least constraints →
            IfOk result (λ derivation. IsRefutation (variables_of self) constraints self.budget derivation.lines) }
    {
        let line = refute(alloc, &self.levels.trail, conflict)?;
        let Search { lines, .. } = self;
        let mut lines = lines;
        lines.push(line)?;
        Ok(Derivation { lines })
    }

    /// What the search came to.
    pub(crate) fn finish(self, alloc: Global, ending: Ending) -> Result<Answer, NoMemory>
        requires holds { SearchHolds self }
        requires ends { EndsIn self ending }
        ensures answer { (constraints : Items Constraint) → problem_of self ≡ map at_least constraints →
            IfOk result (IsAnswer (variables_of self) constraints self.budget) }
        ensures wish { SatisfiesAll (wish_of self) (problem_of self) → IfOk result (IsWanted (wish_of self)) }
    {
        match ending {
            Ending::Model => Ok(Answer::Model(self.levels.trail.kept.values().copy()?)),
            Ending::Refuted(conflict) => Ok(Answer::Refuted(self.refuted(alloc, conflict)?)),
            Ending::Spent => {
                let Search { lines, .. } = self;
                Ok(Answer::Spent(Derivation { lines }))
            }
        }
    }
}
