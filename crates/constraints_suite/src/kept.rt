//! Slacks that are kept while literals become true and open again.
ghost use Rattle.std.specs.Prelude.{◌≡◌, ◌<◌, ◌≤◌, ◌↔◌, length, IsTrue};

use crate::desk::Desk;
use crate::printing::{occurrences_text, outside, sum_text, truth, unreadable};
use crate::weights::{MOST, sum_over};
use crate::words::{Weights, read_lit, read_lits};
use osgi_version::{List, NoMemory};
use pb_core::{Kept, Lit, SignedTerm, Steps, slack as walked};
use std::alloc::Global;
use std::marker::Brand;
use std::sync::ledger::{Blank, Ledger};

/// What changes values.
#[derive(Clone, Copy, Drop)]
enum Change {
    Assign(Lit),
    Clear(u32),
}

fn is_among(kept: &Kept, variable: u32) -> bool
    ensures { IsTrue result ↔ ((0 < variable) × (variable ≤ length kept.now.values)) }
{
    0 < variable && variable as usize <= kept.values().len()
}

fn has_row(kept: &Kept, number: u32) -> bool
    ensures { IsTrue result ↔ ((0 < number) × (number ≤ length kept.now.constraints)) }
{
    0 < number && number as usize <= kept.len()
}

/// Whether the literal's variable was open.
fn assign_open<L: Ledger>(kept: &mut Kept, lit: Lit, steps: &mut Steps<L>) -> bool {
    if lit.variable == 0 || lit.variable as usize > kept.values().len() {
        return false;
    }
    if !kept.values().is_open(lit) {
        return false;
    }
    kept.assign(lit, steps);
    true
}

/// Whether the variable had a value.
fn clear_valued<L: Ledger>(kept: &mut Kept, variable: u32, steps: &mut Steps<L>) -> bool {
    if variable == 0 || variable as usize > kept.values().len() {
        return false;
    }
    if kept.value(variable).is_none() {
        return false;
    }
    kept.clear(variable, steps);
    true
}

/// Whether the change could be made.
fn make_change<L: Ledger>(kept: &mut Kept, change: Change, blank: Blank) -> bool
    requires name { blank.name ≡ L.name }
    requires parts { blank.parts ≡ L.parts }
    requires some { blank.parts ≡ 1 }
{
    let mut steps = Steps::<L>::new(blank);
    match change {
        Change::Assign(lit) => assign_open(kept, lit, &mut steps),
        Change::Clear(variable) => clear_valued(kept, variable, &mut steps),
    }
}

fn apply(kept: &mut Kept, made: Change) -> bool {
    make_change::<Brand>(kept, made, Blank::new(1))
}

fn value_at(kept: &Kept, variable: u32) -> Option<bool> {
    if variable == 0 || variable as usize > kept.values().len() {
        return None;
    }
    kept.value(variable)
}

fn slack_at(kept: &Kept, number: u32) -> i64 {
    if number == 0 || number as usize > kept.len() {
        return 0;
    }
    kept.slack(number)
}

fn push_value(text: &mut String, kept: &Kept, variable: u32) -> Result<(), NoMemory> {
    match value_at(kept, variable) {
        Some(true) => write!(text, "{variable} ")?,
        Some(false) => write!(text, "-{variable} ")?,
        None => {}
    }
    Ok(())
}

fn number_of(length: usize) -> u32 {
    u32::try_from(length).unwrap_or(0)
}

/// The true literals, and behind `:` the slack of each constraint.
fn status(alloc: Global, kept: &Kept) -> Result<String, NoMemory> {
    let mut text = String::new(alloc);
    for place in 0..number_of(kept.values().len()) {
        push_value(&mut text, kept, place.saturating_add(1))?;
    }
    write!(text, ":")?;
    for place in 0..number_of(kept.len()) {
        write!(text, " {}", slack_at(kept, place.saturating_add(1)))?;
    }
    Ok(text)
}

/// Makes literals true.
pub fn assign(alloc: Global, desk: &mut Desk, words: &[&str]) -> Result<String, NoMemory> {
    for word in words {
        let Some(lit) = read_lit(word) else {
            return unreadable(alloc);
        };
        if !apply(&mut desk.kept, Change::Assign(lit)) {
            return Ok(format!(in alloc; "not open {word}")?);
        }
    }
    status(alloc, &desk.kept)
}

/// Takes values of variables away.
pub fn clear(alloc: Global, desk: &mut Desk, words: &[&str]) -> Result<String, NoMemory> {
    for word in words {
        let Ok(variable) = word.parse::<u32>() else {
            return unreadable(alloc);
        };
        if !apply(&mut desk.kept, Change::Clear(variable)) {
            return Ok(format!(in alloc; "no value {word}")?);
        }
    }
    status(alloc, &desk.kept)
}

fn add_none(alloc: Global, kept: &mut Kept) -> Result<bool, NoMemory> {
    if kept.len() > MOST {
        return Ok(false);
    }
    let lits = List::new(alloc);
    kept.add(&lits)?;
    Ok(true)
}

fn add_one(alloc: Global, kept: &mut Kept, lit: Lit) -> Result<bool, NoMemory> {
    if kept.len() > MOST || !is_among(kept, lit.variable) {
        return Ok(false);
    }
    let mut lits = List::new(alloc);
    lits.push(lit)?;
    kept.add(&lits)?;
    Ok(true)
}

fn add_two(alloc: Global, kept: &mut Kept, one: Lit, two: Lit) -> Result<bool, NoMemory> {
    if kept.len() > MOST || one.variable == two.variable {
        return Ok(false);
    }
    if !is_among(kept, one.variable) || !is_among(kept, two.variable) {
        return Ok(false);
    }
    let mut lits = List::new(alloc);
    lits.push(one)?;
    lits.push(two)?;
    kept.add(&lits)?;
    Ok(true)
}

fn add_lits(alloc: Global, kept: &mut Kept, lits: &[Lit]) -> Result<bool, NoMemory> {
    match lits {
        [] => add_none(alloc, kept),
        [one] => add_one(alloc, kept, *one),
        [one, two] => add_two(alloc, kept, *one, *two),
        _ => Ok(false),
    }
}

/// The sum that a clause stands for.
fn clause_sum(alloc: Global, lits: &[Lit]) -> Result<Weights, NoMemory> {
    let mut terms = List::new(alloc);
    for lit in lits {
        terms.push(SignedTerm { coef: 1, lit: *lit })?;
    }
    let degree = 1;
    Ok(Weights { terms, degree })
}

/// Adds a clause of at most two literals.
pub fn add(alloc: Global, desk: &mut Desk, words: &[&str]) -> Result<String, NoMemory> {
    let Some(lits) = read_lits(alloc, words)? else {
        return unreadable(alloc);
    };
    if !add_lits(alloc, &mut desk.kept, lits.items())? {
        return outside(alloc);
    }
    desk.sums.push(clause_sum(alloc, lits.items())?)?;
    status(alloc, &desk.kept)
}

fn read_number(words: &[&str]) -> Option<u32> {
    match words {
        [word] => word.parse::<u32>().ok(),
        _ => None,
    }
}

/// The slack of one constraint.
pub fn slack(alloc: Global, desk: &Desk, words: &[&str]) -> Result<String, NoMemory> {
    match read_number(words) {
        Some(number) if has_row(&desk.kept, number) => {
            Ok(format!(in alloc; "{}", desk.kept.slack(number))?)
        }
        Some(_) => outside(alloc),
        None => unreadable(alloc),
    }
}

/// The value of one variable.
pub fn value(alloc: Global, desk: &Desk, words: &[&str]) -> Result<String, NoMemory> {
    match read_number(words) {
        Some(variable) if is_among(&desk.kept, variable) => {
            Ok(truth(desk.kept.value(variable)).to_string(alloc)?)
        }
        Some(_) => outside(alloc),
        None => unreadable(alloc),
    }
}

fn row_text(alloc: Global, kept: &Kept, number: u32) -> Result<String, NoMemory>
    requires from_one { 0 < number }
    requires within { number ≤ length kept.now.constraints }
{
    let greatest = kept.greatest(number);
    let text = sum_text(alloc, kept.terms(number), kept.degree(number))?;
    Ok(format!(in alloc; "{text} greatest {greatest}")?)
}

/// One constraint, and its greatest coefficient.
pub fn row(alloc: Global, desk: &Desk, words: &[&str]) -> Result<String, NoMemory> {
    match read_number(words) {
        Some(number) if has_row(&desk.kept, number) => row_text(alloc, &desk.kept, number),
        Some(_) => outside(alloc),
        None => unreadable(alloc),
    }
}

fn read_one_lit(words: &[&str]) -> Option<Lit> {
    match words {
        [word] => read_lit(word),
        _ => None,
    }
}

/// The constraints that hold a literal, with its coefficient in each.
pub fn holders(alloc: Global, desk: &Desk, words: &[&str]) -> Result<String, NoMemory> {
    match read_one_lit(words) {
        Some(lit) if is_among(&desk.kept, lit.variable) => {
            occurrences_text(alloc, desk.kept.occurrences(lit))
        }
        Some(_) => outside(alloc),
        None => unreadable(alloc),
    }
}

/// How many variables and constraints there are, and whether there is none.
pub fn sizes(alloc: Global, desk: &Desk) -> Result<String, NoMemory> {
    let (variables, constraints) = (desk.kept.values(), desk.kept.len());
    let empty = (variables.is_empty(), desk.kept.is_empty());
    Ok(format!(in alloc; "{} {} {constraints} {}", variables.len(), empty.0, empty.1)?)
}

/// The slack of a sum's normal form, where it has one, by a walk over its terms.
fn slack_of(alloc: Global, kept: &Kept, weights: &Weights) -> Result<Option<i64>, NoMemory> {
    match sum_over(alloc, weights, kept.values().len())? {
        Some(sum) => Ok(Some(walked(&sum, kept.values()))),
        None => Ok(None),
    }
}

/// The first constraint whose kept slack isn't what a walk over its terms gives.
fn first_stale(alloc: Global, desk: &Desk) -> Result<Option<u32>, NoMemory> {
    let mut number: u32 = 0;
    let sums = desk.sums.as_slice();
    for weights in sums {
        if let Some(slack) = slack_of(alloc, &desk.kept, weights)? {
            number = number.saturating_add(1);
            if !has_row(&desk.kept, number) || slack_at(&desk.kept, number) != slack {
                return Ok(Some(number));
            }
        }
    }
    if number as usize == desk.kept.len() {
        Ok(None)
    } else {
        Ok(Some(number))
    }
}

/// Whether each kept slack is what a walk over the terms gives.
pub fn afresh(alloc: Global, desk: &Desk) -> Result<String, NoMemory> {
    match first_stale(alloc, desk)? {
        Some(number) => Ok(format!(in alloc; "stale {number}")?),
        None => Ok("all right".to_string(alloc)?),
    }
}

/// Makes the literal true, or its variable open where it has a value.
fn turn(kept: &mut Kept, lit: Lit) -> bool {
    if value_at(kept, lit.variable).is_some() {
        apply(kept, Change::Clear(lit.variable))
    } else {
        apply(kept, Change::Assign(lit))
    }
}

/// The literal of a number drawn, over six variables.
fn drawn(seed: u32) -> Lit {
    Lit {
        variable: 1 + seed % 6,
        positive: seed / 6 % 2 == 0,
    }
}

/// Turns literals as they are drawn, so many times, and compares all slacks after each.
pub fn turns(alloc: Global, desk: &mut Desk, words: &[&str]) -> Result<String, NoMemory> {
    let Some(count) = read_number(words) else {
        return unreadable(alloc);
    };
    // A generator of Lehmer's kind, whose values run through all below its modulus.
    let mut seed: u32 = 1;
    for done in 0..count {
        seed = seed.wrapping_mul(75) % 65_537;
        if !turn(&mut desk.kept, drawn(seed)) {
            return outside(alloc);
        }
        if let Some(number) = first_stale(alloc, desk)? {
            return Ok(format!(in alloc; "stale {number} after {done}")?);
        }
    }
    Ok(format!(in alloc; "{count} turns")?)
}

/// Makes literals true in the problem of an evidence, and says the slacks.
pub fn status_of(alloc: Global, kept: Kept, words: &[&str]) -> Result<String, NoMemory> {
    let mut kept = kept;
    for word in words {
        let Some(lit) = read_lit(word) else {
            return unreadable(alloc);
        };
        if !apply(&mut kept, Change::Assign(lit)) {
            return outside(alloc);
        }
    }
    status(alloc, &kept)
}
