//! Problems that are built constraint by constraint.
ghost use Rattle.std.specs.Prelude.{◌≤◌, ◌↔◌, length, All, IfOk, IfSome, IsTrue};
ghost use Rattle.pb_core.specs.AtLeast.{at_least};
ghost use Rattle.pb_core.specs.Normal.{AreAmong, IsNormalOver};
ghost use Rattle.pb_core.specs.Normalised.{IsModerate};

use osgi_version::{List, NoMemory, Text};
use pb_core::{Constraint, Lit, Origin, Problem, SignedTerm, Term, normalise};
use std::alloc::Global;

/// The greatest coefficient or degree here.
const GREATEST: i64 = 1 << 40;

/// The most variables, terms of a sum, or sums here.
const MOST: usize = 8_000;

/// A sum of coefficients that has to reach a degree, before it has a normal form.
#[derive(Drop)]
pub struct Sum {
    pub terms: List<SignedTerm>,
    pub degree: i64,
}

/// Sums over the variables from 1 to a number.
#[derive(Drop)]
pub struct Sums {
    pub variables: u32,
    pub sums: Vec<Sum>,
}

impl Sums {
    pub fn new(alloc: Global, variables: u32) -> Sums {
        let sums = Vec::new(alloc);
        Sums { variables, sums }
    }

    /// Adds the sum of so many literals with the coefficient 1.
    pub fn push_count(&mut self, alloc: Global, lits: &[Lit], degree: i64) -> Result<(), NoMemory> {
        let mut terms = List::new(alloc);
        for lit in lits {
            terms.push(SignedTerm { coef: 1, lit: *lit })?;
        }
        self.sums.push(Sum { terms, degree })?;
        Ok(())
    }
}

pub fn lit(variable: u32, positive: bool) -> Lit {
    Lit { variable, positive }
}

fn is_moderate(number: i64) -> bool
    ensures { IsTrue result ↔ IsModerate number }
{
    -GREATEST <= number && number <= GREATEST
}

fn are_moderate(terms: &[SignedTerm]) -> bool
    ensures { IsTrue result ↔ All (λ t. IsModerate t.coef) terms.now }
{
    terms.iter().all(|term| is_moderate(term.coef))
}

fn are_among(terms: &[Term], variables: usize) -> bool
    ensures { IsTrue result ↔ AreAmong variables terms.now }
{
    terms.iter().all(|term| 0 < term.lit.variable && term.lit.variable as usize <= variables)
}

fn origin() -> Origin {
    Origin::Need {
        variable: 1,
        row: 1,
    }
}

/// The normal form over variables from 1 to a number, if there is one.
fn normal_over(alloc: Global, sum: &Sum, variables: usize) -> Result<Option<Constraint>, NoMemory>
    ensures { IfOk result (λ found. IfSome found (λ c. IsNormalOver variables (at_least c))) }
{
    let terms = sum.terms.items();
    if terms.len() > MOST || !are_moderate(terms) || !is_moderate(sum.degree) {
        return Ok(None);
    }
    let Some(found) = normalise(alloc, &sum.terms, sum.degree, origin())? else {
        return Ok(None);
    };
    if are_among(found.terms.items(), variables) {
        Ok(Some(found))
    } else {
        Ok(None)
    }
}

/// Adds the sum's normal form, if there is one.
fn push_sum(constraints: &mut List<Constraint>, sum: &Sum, variables: usize) -> Result<(), NoMemory>
    requires { All (λ c. IsNormalOver variables (at_least c)) constraints.old }
    ensures { All (λ c. IsNormalOver variables (at_least c)) constraints.new }
{
    match normal_over(constraints.allocator(), sum, variables)? {
        Some(found) => constraints.push(found),
        None => Ok(()),
    }
}

/// The sums that have a normal form.
fn normal_sums(alloc: Global, sums: &[Sum], variables: usize) -> Result<List<Constraint>, NoMemory>
    ensures { IfOk result (λ found. All (λ c. IsNormalOver variables (at_least c)) found) }
{
    let mut constraints = List::new(alloc);
    for sum in sums {
        push_sum(&mut constraints, sum, variables)?;
    }
    Ok(constraints)
}

fn labels(alloc: Global, variables: u32) -> Result<List<Text>, NoMemory> {
    let mut labels = List::new(alloc);
    for _ in 0..variables {
        labels.push(Text::from_str(alloc, "x")?)?;
    }
    Ok(labels)
}

/// The problem of the sums. None where it is too large here.
pub fn problem(alloc: Global, sums: &Sums) -> Result<Option<Problem>, NoMemory>
    ensures labels { IfOk result (λ found. IfSome found (λ p. length p.labels ≤ 1000000000)) }
    ensures constraints { IfOk result (λ found. IfSome found (λ p. length p.constraints ≤ 1000000000)) }
    ensures normal { IfOk result (λ found. IfSome found (λ p. All (λ c. IsNormalOver (length p.labels) (at_least c)) p.constraints)) }
{
    let labels = labels(alloc, sums.variables)?;
    let constraints = normal_sums(alloc, sums.sums.as_slice(), labels.len())?;
    if labels.len() > MOST || constraints.len() > MOST {
        return Ok(None);
    }
    Ok(Some(Problem {
        labels,
        constraints,
    }))
}
