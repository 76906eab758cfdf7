ghost use Rattle.std.specs.Prelude.{◌≡◌, ◌≤◌, ◌<◌, ◌+◌, ◌==◌, [], ◌∷◌, ◌++◌, None, Some, Bool, map, length, replicate, count_by, All, AllPairs, ◌≢◌, IfOk, OnOk, OnErr, IsTrue, IsSome, not};
ghost use Rattle.pb_core.specs.AtLeast.{at_least, clause};
ghost use Rattle.pb_core.specs.ConstraintAt.{constraint_at};
ghost use Rattle.pb_core.specs.KeptView.{KeptView, IsKeepable, place_of};
ghost use Rattle.pb_core.specs.Literal.{complement};
ghost use Rattle.pb_core.specs.Normal.{IsNormalOver};
ghost use Rattle.pb_core.specs.Occurrences.{occurrences_from, holds_literal};
ghost use Rattle.pb_core.specs.Slack.{slack_of, greatest_coef};
ghost use Rattle.pb_core.specs.Values.{value_of, set_value, make_true, is_open};

use crate::assignment::Assignment;
use crate::constraint::Problem;
use crate::literal::{Lit, Term};
use crate::occurrences::{Occurrence, empty_lists, enter, lower, place_of, raise, reserve};
use crate::rows::{Row, greatest_coef};
use crate::slacks::reachable;
use crate::steps::Steps;
use osgi_version::{List, NoMemory, Twin};
use std::alloc::Global;
use std::marker::Model;
use std::sync::ledger::Ledger;

/// Constraints, and values of their variables, with the slack of each constraint kept up to date. Constraints are
/// numbered from 1.
#[derive(Debug, Drop)]
pub struct Kept {
    values: Assignment,
    rows: Vec<Row>,
    slacks: Vec<i64>,
    lists: Vec<Vec<Occurrence>>,
}

impl Model for Kept {
    ghost use Rattle.std.specs.Prelude.{map};
    ghost use Rattle.pb_core.specs.KeptView.{KeptView, IsKept, row_seen, lists_seen};

    ghost Value = { KeptView };

    ghost view = { λ k. record { constraints = map row_seen k.rows.items; values = k.values } };

    ghost invariant = { λ k. IsKept k.rows.items k.slacks.items (lists_seen k.lists.items) k.values };
}

impl Kept {
    /// How many constraints there are.
    pub fn len(&self) -> usize
        ensures { result ≡ length self.now.constraints }
    {
        self.rows.len()
    }

    pub fn is_empty(&self) -> bool
        ensures { result ≡ (length self.now.constraints == 0) }
    {
        self.rows.is_empty()
    }

    /// The value of a variable, numbered from 1.
    pub fn value(&self, variable: u32) -> Option<bool>
        requires from_one { 0 < variable }
        requires within { variable ≤ length self.now.values }
        ensures { result ≡ value_of self.now.values variable }
    {
        self.values.value(variable)
    }

    /// The values of all variables.
    pub fn values(&self) -> &Assignment
        ensures { result.now ≡ self.now.values }
    {
        &self.values
    }

    /// The slack of a constraint under the values, in one step.
    pub fn slack(&self, number: u32) -> i64
        requires from_one { 0 < number }
        requires within { number ≤ length self.now.constraints }
        ensures { result ≡ slack_of self.now.values (constraint_at self.now.constraints number) }
    {
        self.slacks[number as usize - 1]
    }

    /// The terms of a constraint.
    pub fn terms(&self, number: u32) -> &[Term]
        requires from_one { 0 < number }
        requires within { number ≤ length self.now.constraints }
        ensures { result.now ≡ (constraint_at self.now.constraints number).terms }
    {
        self.rows[number as usize - 1].terms.items()
    }

    pub fn degree(&self, number: u32) -> u64
        requires from_one { 0 < number }
        requires within { number ≤ length self.now.constraints }
        ensures { result ≡ (constraint_at self.now.constraints number).degree }
    {
        self.rows[number as usize - 1].degree
    }

    /// The greatest coefficient of a constraint, or 0 where it has no term. A constraint whose slack is at least that
    /// is neither violated nor forces a literal.
    pub fn greatest(&self, number: u32) -> u64
        requires from_one { 0 < number }
        requires within { number ≤ length self.now.constraints }
        ensures { result ≡ greatest_coef (constraint_at self.now.constraints number).terms }
    {
        self.rows[number as usize - 1].greatest
    }

    /// The constraints that hold a literal, by rising numbers. Those that hold the complement of an assigned literal
    /// are the ones whose slack that assignment lowered.
    pub fn occurrences(&self, lit: Lit) -> &[Occurrence]
        requires from_one { 0 < lit.variable }
        requires within { lit.variable ≤ length self.now.values }
        ensures { result.now ≡ occurrences_from 1 lit self.now.constraints }
    {
        self.lists[place_of(lit)].as_slice()
    }

    /// Makes a literal true whose variable has no value. One step is one constraint whose slack changes.
    pub fn assign<L: Ledger>(&mut self, lit: Lit, steps: &mut Steps<L>)
        requires from_one { 0 < lit.variable }
        requires within { lit.variable ≤ length self.old.values }
        requires is_open { IsTrue (is_open self.old.values lit) }
        ensures constraints { self.new.constraints ≡ self.old.constraints }
        ensures values { self.new.values ≡ make_true self.old.values lit }
        ensures steps { steps.new ≡ steps.old + count_by (holds_literal (complement lit)) self.old.constraints }
    {
        let place = denied_place(lit);
        lower(&mut self.slacks, self.lists[place].as_slice(), steps);
        self.values.set(lit.variable, Some(lit.positive));
    }

    /// Takes the value of a variable away. One step is one constraint whose slack changes.
    pub fn clear<L: Ledger>(&mut self, variable: u32, steps: &mut Steps<L>)
        requires from_one { 0 < variable }
        requires within { variable ≤ length self.old.values }
        requires has_value { IsSome (value_of self.old.values variable) }
        ensures constraints { self.new.constraints ≡ self.old.constraints }
        ensures values { self.new.values ≡ set_value self.old.values variable None }
        ensures steps { (b : Bool) → value_of self.old.values variable ≡ Some b →
            steps.new ≡ steps.old + count_by (holds_literal (record { variable = variable; positive = not b })) self.old.constraints }
    {
        let positive = self.values.value(variable).unwrap();
        let place = freed_place(variable, positive);
        raise(&mut self.slacks, self.lists[place].as_slice(), steps);
        self.values.set(variable, None);
    }

    /// No constraint, and this many variables.
    fn empty(alloc: Global, variables: u32) -> Result<Kept, NoMemory>
        ensures constraints { IfOk result (λ kept. kept.constraints ≡ []) }
        ensures values { IfOk result (λ kept. kept.values ≡ replicate variables None) }
    {
        let values = Assignment::new(alloc, variables)?;
        let lists = empty_lists(alloc, 2 * variables as usize)?;
        Ok(Kept {
            values,
            rows: Vec::new(alloc),
            slacks: Vec::new(alloc),
            lists,
        })
    }

    /// Adds a constraint at the end. An `Err` changes nothing.
    fn append(&mut self, terms: List<Term>, degree: u64) -> Result<(), NoMemory>
        requires few { length self.old.constraints < 2000000000 }
        requires keepable { IsKeepable (length self.old.values) (record { terms = terms; degree = degree }) }
        ensures constraints { OnOk result (self.new.constraints ≡ self.old.constraints ++ record { terms = terms; degree = degree } ∷ []) }
        ensures values { self.new.values ≡ self.old.values }
        ensures err { OnErr result (self.new ≡ self.old) }
    {
        let number = self.rows.len() as u32 + 1;
        let slack = reachable(terms.items(), &self.values) as i64 - degree as i64;
        let greatest = greatest_coef(terms.items());
        reserve(
            &mut self.rows,
            &mut self.slacks,
            &mut self.lists,
            terms.items(),
        )?;
        enter(&mut self.lists, terms.items(), number);
        self.slacks.push_reserved(slack);
        self.rows.push_reserved(Row {
            terms,
            degree,
            greatest,
        });
        Ok(())
    }

    /// The constraints of a problem, with no variable assigned. Takes time and memory in line with the problem.
    pub fn new(alloc: Global, problem: &Problem) -> Result<Kept, NoMemory>
        requires labels { length problem.now.labels ≤ 1000000000 }
        requires constraints { length problem.now.constraints ≤ 1000000000 }
        requires normal { All (λ c. IsNormalOver (length problem.now.labels) (at_least c)) problem.now.constraints }
        ensures constraints { IfOk result (λ kept. kept.constraints ≡ map at_least problem.now.constraints) }
        ensures values { IfOk result (λ kept. kept.values ≡ replicate (length problem.now.labels) None) }
    {
        let mut kept = Kept::empty(alloc, problem.labels.len() as u32)?;
        let constraints = problem.constraints.items();
        for constraint in constraints {
            kept.append(constraint.terms.copy()?, constraint.degree)?;
        }
        Ok(kept)
    }

    /// Adds the constraint that a literal of the clause is true. An `Err` changes nothing.
    pub fn add(&mut self, lits: &List<Lit>) -> Result<(), NoMemory>
        requires among { All (λ l. (0 < l.variable) × (l.variable ≤ length self.old.values)) lits.now }
        requires distinct { AllPairs (λ a b. a.variable ≢ b.variable) lits.now }
        requires few { length self.old.constraints < 2000000000 }
        ensures constraints { OnOk result (self.new.constraints ≡ self.old.constraints ++ clause lits.now ∷ []) }
        ensures values { self.new.values ≡ self.old.values }
        ensures err { OnErr result (self.new ≡ self.old) }
    {
        let terms = clause_terms(*self.rows.allocator(), lits.items())?;
        self.append(terms, 1)
    }
}

/// Where the occurrences stand of the literal that is false once this one is true.
fn denied_place(lit: Lit) -> usize
    requires { 0 < lit.variable }
    ensures { result ≡ place_of (complement lit) }
{
    place_of(lit.complement())
}

/// Where the occurrences stand of the literal that is false while the variable has this value.
fn freed_place(variable: u32, positive: bool) -> usize
    requires { 0 < variable }
    ensures { result ≡ place_of (complement (record { variable = variable; positive = positive })) }
{
    denied_place(Lit { variable, positive })
}

/// The terms of a clause's constraint.
fn clause_terms(alloc: Global, lits: &[Lit]) -> Result<List<Term>, NoMemory>
    ensures { IfOk result (λ terms. terms ≡ (clause lits.now).terms) }
{
    let mut terms = List::new(alloc);
    for lit in lits {
        terms.push(Term { coef: 1, lit: *lit })?;
    }
    Ok(terms)
}
