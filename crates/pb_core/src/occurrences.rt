ghost use Rattle.std.specs.Prelude.{◌≡◌, ◌≢◌, ◌+◌, ◌-◌, ◌*◌, ◌^◌, ◌<◌, ◌≤◌, ℕ, pos, ◌+ℤ◌, ◌-ℤ◌, ◌≤ℤ◌, [], ◌++◌, length, All, AllPairs, OnOk, OnErr, IfOk, slice_index_or, replicate, vec_len, vec_capacity};
ghost use Rattle.pb_core.specs.KeptView.{place_of, lists_seen};
ghost use Rattle.pb_core.specs.Normal.{AreAmong};
ghost use Rattle.pb_core.specs.Occurrences.{own_occurrence};
ghost use Rattle.pb_core.specs.Shares.{share_at, HasRoom, HaveRoom, AreNumbered};
ghost use Rattle.pb_core.specs.declared.literal.Lit.{Lit as Literal};

use crate::literal::{Lit, Term};
use crate::rows::Row;
use crate::steps::Steps;
use osgi_version::{NoMemory, Twin};
use std::alloc::Global;
use std::sync::ledger::Ledger;

/// A constraint that holds a literal: its number, from 1, and the literal's coefficient there.
#[derive(Clone, Copy, Debug, PartialEq, Eq)]
pub struct Occurrence {
    pub number: u32,
    pub coef: u64,
}

impl Twin for Occurrence {
    fn copy(&self) -> Result<Occurrence, NoMemory> {
        Ok(*self)
    }
}

/// Where the occurrences of a literal stand.
pub(crate) fn place_of(lit: Lit) -> usize
    requires { 0 < lit.variable }
    ensures { result ≡ place_of lit }
{
    let sign = if lit.positive { 0 } else { 1 };
    2 * (lit.variable as usize - 1) + sign
}

/// Takes the coefficients from the slacks of the constraints. Each is a step.
pub(crate) fn lower<L: Ledger>(slacks: &mut [i64], occurrences: &[Occurrence], steps: &mut Steps<L>)
    requires numbered { AreNumbered (length slacks.old) occurrences.now }
    requires fit { (k : ℕ) → k < length slacks.old →
        (pos 0 ≤ℤ (slice_index_or slacks.old k (pos 0) +ℤ pos (2 ^ 62))) × (slice_index_or slacks.old k (pos 0) ≤ℤ pos (2 ^ 62)) × (share_at (k + 1) occurrences.now ≤ 2 ^ 61) }
    ensures slacks { (k : ℕ) → k < length slacks.old →
        slice_index_or slacks.new k (pos 0) ≡ slice_index_or slacks.old k (pos 0) -ℤ pos (share_at (k + 1) occurrences.now) }
    ensures steps { steps.new ≡ steps.old + length occurrences.now }
{
    for occurrence in occurrences {
        steps.tick();
        slacks[occurrence.number as usize - 1] -= occurrence.coef as i64;
    }
}

/// Gives the coefficients back to the slacks of the constraints. Each is a step.
pub(crate) fn raise<L: Ledger>(slacks: &mut [i64], occurrences: &[Occurrence], steps: &mut Steps<L>)
    requires numbered { AreNumbered (length slacks.old) occurrences.now }
    requires fit { (k : ℕ) → k < length slacks.old →
        (pos 0 ≤ℤ (slice_index_or slacks.old k (pos 0) +ℤ pos (2 ^ 62))) × (slice_index_or slacks.old k (pos 0) ≤ℤ pos (2 ^ 62)) × (share_at (k + 1) occurrences.now ≤ 2 ^ 61) }
    ensures slacks { (k : ℕ) → k < length slacks.old →
        slice_index_or slacks.new k (pos 0) ≡ slice_index_or slacks.old k (pos 0) +ℤ pos (share_at (k + 1) occurrences.now) }
    ensures steps { steps.new ≡ steps.old + length occurrences.now }
{
    for occurrence in occurrences {
        steps.tick();
        slacks[occurrence.number as usize - 1] += occurrence.coef as i64;
    }
}

/// Room for one more occurrence of each literal. The occurrences stay, whatever the result.
pub(crate) fn make_room(lists: &mut [Vec<Occurrence>], terms: &[Term]) -> Result<(), NoMemory>
    requires { All (λ t. (0 < t.lit.variable) × (place_of t.lit < length lists.old)) terms.now }
    ensures same { lists_seen lists.new ≡ lists_seen lists.old }
    ensures room { OnOk result (HaveRoom lists.new terms.now 0) }
{
    for term in terms {
        lists[place_of(term.lit)].reserve(1)?;
    }
    Ok(())
}

/// Enters a constraint into the occurrences of its literals.
pub(crate) fn enter(lists: &mut [Vec<Occurrence>], terms: &[Term], number: u32)
    requires places { All (λ t. (0 < t.lit.variable) × (place_of t.lit < length lists.old)) terms.now }
    requires coefs { All (λ t. 0 < t.coef) terms.now }
    requires distinct { AllPairs (λ t u. t.lit.variable ≢ u.lit.variable) terms.now }
    requires room { HaveRoom lists.old terms.now 0 }
    ensures { (lit : Literal) → 0 < lit.variable → place_of lit < length lists.old →
        slice_index_or (lists_seen lists.new) (place_of lit) []
        ≡ slice_index_or (lists_seen lists.old) (place_of lit) [] ++ own_occurrence number lit terms.now }
{
    for term in terms {
        let coef = term.coef;
        lists[place_of(term.lit)].push_reserved(Occurrence { number, coef });
    }
}

/// Room for one more constraint. All stays, whatever the result.
pub(crate) fn reserve(
    rows: &mut Vec<Row>,
    slacks: &mut Vec<i64>,
    lists: &mut Vec<Vec<Occurrence>>,
    terms: &[Term],
) -> Result<(), NoMemory>
    requires { All (λ t. (0 < t.lit.variable) × (place_of t.lit < vec_len lists.old)) terms.now }
    ensures rows { rows.new.items ≡ rows.old.items }
    ensures slacks { slacks.new.items ≡ slacks.old.items }
    ensures lists { lists_seen lists.new.items ≡ lists_seen lists.old.items }
    ensures rows_room { OnOk result (vec_len rows.new < vec_capacity rows.new) }
    ensures slacks_room { OnOk result (vec_len slacks.new < vec_capacity slacks.new) }
    ensures lists_room { OnOk result (HaveRoom lists.new.items terms.now 0) }
{
    rows.reserve(1)?;
    slacks.reserve(1)?;
    make_room(lists, terms)?;
    Ok(())
}

/// No occurrence of any literal.
pub(crate) fn empty_lists(alloc: Global, count: usize) -> Result<Vec<Vec<Occurrence>>, NoMemory>
    ensures { IfOk result (λ v. lists_seen v.items ≡ replicate count []) }
{
    let mut lists = Vec::new(alloc);
    for _place in 0..count {
        lists.push(Vec::new(alloc))?;
    }
    Ok(lists)
}
