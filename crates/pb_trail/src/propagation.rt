ghost use Rattle.std.specs.Prelude.{◌≡◌, ◌<◌, ◌≤◌, ◌+◌, ◌-◌, ℕ, MatchBool, MatchOption, IsTrue, length};
ghost use Rattle.pb_core.specs.ConstraintAt.{constraint_at};
ghost use Rattle.pb_core.specs.Slack.{IsViolated, reachable};
ghost use Rattle.pb_core.specs.Values.{is_open};
ghost use Rattle.pb_trail.specs.Trail.{IsTrail, Counted};
ghost use Rattle.pb_trail.specs.Growth.{Grows, IsDecided};
ghost use Rattle.pb_trail.specs.Rest.{Rests, RestBefore, RestOrTouched, IsSettled, AreTermsQuiet};

use crate::trail::{Entry, Trail};
use pb_core::{Lit, Steps};
use std::sync::ledger::Ledger;

impl Trail {
    /// Makes the literal of one term true, where the constraint forces it.
    fn force_term<L: Ledger>(&mut self, number: u32, place: usize, room: u64, steps: &mut Steps<L>)
        requires good { IsTrail self.old }
        requires from_one { 0 < number }
        requires within { number ≤ length self.old.kept.constraints }
        requires place { place < length (constraint_at self.old.kept.constraints number).terms }
        requires room { room + (constraint_at self.old.kept.constraints number).degree ≡ reachable self.old.kept.values (constraint_at self.old.kept.constraints number).terms }
        requires quiet { AreTermsQuiet self.old.kept.values (constraint_at self.old.kept.constraints number).terms room place }
        ensures good { IsTrail self.new }
        ensures grows { Grows self.old self.new }
        ensures room { room + (constraint_at self.new.kept.constraints number).degree ≡ reachable self.new.kept.values (constraint_at self.new.kept.constraints number).terms }
        ensures quiet { AreTermsQuiet self.new.kept.values (constraint_at self.new.kept.constraints number).terms room (place + 1) }
        ensures steps { Counted self.old self.new steps.old steps.new }
    {
        let term = self.kept.terms(number)[place];
        if term.coef <= room || !self.kept.values().is_open(term.lit) {
            return;
        }
        let lit = term.lit;
        let reason = number;
        self.make_true(Entry { lit, reason }, steps);
    }

    /// Makes each literal true that the constraint forces.
    fn force_terms<L: Ledger>(&mut self, number: u32, room: u64, steps: &mut Steps<L>)
        requires good { IsTrail self.old }
        requires from_one { 0 < number }
        requires within { number ≤ length self.old.kept.constraints }
        requires room { room + (constraint_at self.old.kept.constraints number).degree ≡ reachable self.old.kept.values (constraint_at self.old.kept.constraints number).terms }
        ensures good { IsTrail self.new }
        ensures grows { Grows self.old self.new }
        ensures rests { Rests self.new.kept.values (constraint_at self.new.kept.constraints number) }
        ensures steps { Counted self.old self.new steps.old steps.new }
    {
        for place in 0..self.kept.terms(number).len() {
            self.force_term(number, place, room, steps);
        }
    }

    /// Whether a constraint is violated. Else each literal that it forces is made true.
    fn visit<L: Ledger>(&mut self, number: u32, steps: &mut Steps<L>) -> bool
        requires good { IsTrail self.old }
        requires from_one { 0 < number }
        requires within { number ≤ length self.old.kept.constraints }
        ensures good { IsTrail self.new }
        ensures grows { Grows self.old self.new }
        ensures rests { MatchBool result
            (IsViolated self.new.kept.values (constraint_at self.new.kept.constraints number))
            (Rests self.new.kept.values (constraint_at self.new.kept.constraints number)) }
        ensures steps { Counted self.old self.new steps.old steps.new }
    {
        let slack = self.kept.slack(number);
        if slack < 0 {
            return true;
        }
        let room = slack as u64;
        if self.kept.greatest(number) <= room {
            return false;
        }
        self.force_terms(number, room, steps);
        false
    }

    /// Visits the constraints that hold the complement of the entry's literal. The number of one that is violated.
    fn pass<L: Ledger>(&mut self, place: usize, steps: &mut Steps<L>) -> Option<u32>
        requires good { IsTrail self.old }
        requires within { place < length self.old.entries.items }
        requires rest { RestOrTouched self.old place }
        ensures good { IsTrail self.new }
        ensures grows { Grows self.old self.new }
        ensures found { MatchOption result
            (RestOrTouched self.new (place + 1))
            (λ n. (0 < n) × (n ≤ length self.new.kept.constraints) × IsViolated self.new.kept.values (constraint_at self.new.kept.constraints n)) }
        ensures steps { Counted self.old self.new steps.old steps.new }
    {
        let denied = self.entries[place].lit.complement();
        for i in 0..self.kept.occurrences(denied).len() {
            let number = self.kept.occurrences(denied)[i].number;
            if self.visit(number, steps) {
                return Some(number);
            }
        }
        None
    }

    /// Visits what the entries from a place on touched, until no constraint forces a literal. The number of one that is
    /// violated.
    fn propagate<L: Ledger>(&mut self, first: usize, steps: &mut Steps<L>) -> Option<u32>
        requires good { IsTrail self.old }
        requires within { first ≤ length self.old.entries.items }
        requires rest { RestOrTouched self.old first }
        ensures good { IsTrail self.new }
        ensures grows { Grows self.old self.new }
        ensures found { IsSettled self.new result }
        ensures steps { Counted self.old self.new steps.old steps.new }
    {
        let mut next = first;
        while next < self.entries.len() {
            if let Some(number) = self.pass(next, steps) {
                return Some(number);
            }
            next += 1;
        }
        None
    }

    /// Visits the constraints from a number on, and then what was touched, until no constraint forces a literal. The
    /// number of one that is violated.
    pub fn settle<L: Ledger>(&mut self, from: u32, steps: &mut Steps<L>) -> Option<u32>
        requires good { IsTrail self.old }
        requires from_one { 0 < from }
        requires rest { RestBefore self.old from }
        ensures good { IsTrail self.new }
        ensures grows { Grows self.old self.new }
        ensures found { IsSettled self.new result }
        ensures steps { Counted self.old self.new steps.old steps.new }
    {
        let first = self.entries.len();
        for number in from..self.kept.len() as u32 + 1 {
            if self.visit(number, steps) {
                return Some(number);
            }
        }
        let found = self.propagate(first, steps);
        found
    }

    /// Makes an open literal true, and then what is forced. The number of a constraint that is violated.
    pub fn decide<L: Ledger>(&mut self, lit: Lit, steps: &mut Steps<L>) -> Option<u32>
        requires good { IsTrail self.old }
        requires from_one { 0 < lit.variable }
        requires within { lit.variable ≤ length self.old.kept.values }
        requires is_open { IsTrue (is_open self.old.kept.values lit) }
        requires rest { IsSettled self.old None }
        ensures good { IsTrail self.new }
        ensures grows { IsDecided self.old self.new lit }
        ensures found { IsSettled self.new result }
        ensures steps { Counted self.old self.new steps.old steps.new }
    {
        let first = self.entries.len();
        let reason = 0;
        self.make_true(Entry { lit, reason }, steps);
        let found = self.propagate(first, steps);
        found
    }
}
