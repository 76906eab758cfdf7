//! Normal forms of weighted sums, and problems of several of them.
ghost use Rattle.std.specs.Prelude.{◌≡◌, ◌≤◌, ◌↔◌, length, All, IfOk, IfSome, IsTrue};
ghost use Rattle.pb_core.specs.AtLeast.{at_least};
ghost use Rattle.pb_core.specs.Normal.{AreAmong, IsNormalOver};
ghost use Rattle.pb_core.specs.Normalised.{IsModerate};

use crate::printing::{outside, sum_text, unreadable};
use crate::words::{Weights, read_weights};
use osgi_version::{List, NoMemory, Text};
use pb_core::{Constraint, Lit, Origin, Problem, SignedTerm, Term, normalise};
use std::alloc::Global;

/// The greatest coefficient or degree that may be asked for.
const GREATEST: i64 = 1 << 40;

/// The most terms.
const MOST_TERMS: usize = 8194;

/// The most variables, or weighted sums, of a problem here.
pub const MOST: usize = 10_000;

fn is_moderate(number: i64) -> bool
    ensures { IsTrue result ↔ IsModerate number }
{
    -GREATEST <= number && number <= GREATEST
}

fn are_moderate(terms: &[SignedTerm]) -> bool
    ensures { IsTrue result ↔ All (λ t. IsModerate t.coef) terms.now }
{
    terms.iter().all(|term| is_moderate(term.coef))
}

/// What the normal form of a weighted sum is.
#[derive(Drop)]
pub enum Form {
    /// It has numbers that are no normal form's.
    Outside,
    Always,
    Sum(Constraint),
}

fn origin() -> Origin {
    Origin::Need {
        variable: 1,
        row: 1,
    }
}

fn normal_form(alloc: Global, weights: &Weights) -> Result<Form, NoMemory> {
    let terms = weights.terms.items();
    if terms.len() > MOST_TERMS || !are_moderate(terms) || !is_moderate(weights.degree) {
        return Ok(Form::Outside);
    }
    match normalise(alloc, &weights.terms, weights.degree, origin())? {
        Some(sum) => Ok(Form::Sum(sum)),
        None => Ok(Form::Always),
    }
}

/// The normal form of one sum.
pub fn normal(alloc: Global, words: &[&str]) -> Result<String, NoMemory> {
    let Some(weights) = read_weights(alloc, words)? else {
        return unreadable(alloc);
    };
    match normal_form(alloc, &weights)? {
        Form::Outside => outside(alloc),
        Form::Always => Ok("always".to_string(alloc)?),
        Form::Sum(sum) => sum_text(alloc, sum.terms.items(), sum.degree),
    }
}

/// So many terms with this coefficient.
fn alike(alloc: Global, count: u32, coef: i64) -> Result<List<SignedTerm>, NoMemory> {
    let mut terms = List::new(alloc);
    for place in 0..count {
        let variable = place.saturating_add(1);
        let positive = true;
        terms.push(SignedTerm {
            coef,
            lit: Lit { variable, positive },
        })?;
    }
    Ok(terms)
}

/// The first and the last term of a sum, and the degree.
fn ends_text(alloc: Global, sum: &Constraint) -> Result<String, NoMemory> {
    let terms = sum.terms.items();
    let (first, last) = match terms {
        [first, .., last] => (*first, *last),
        _ => return Ok("few terms".to_string(alloc)?),
    };
    let count = terms.len();
    let ends = [first, last];
    let text = sum_text(alloc, ends.as_slice(), sum.degree)?;
    Ok(format!(in alloc; "{count} terms {text}")?)
}

/// The normal form of many alike terms: how many there are, their coefficient and the degree are given.
pub fn many(alloc: Global, words: &[&str]) -> Result<String, NoMemory> {
    let [count, coef, degree] = words else {
        return unreadable(alloc);
    };
    let (Ok(count), Ok(coef), Ok(degree)) = (
        count.parse::<u32>(),
        coef.parse::<i64>(),
        degree.parse::<i64>(),
    ) else {
        return unreadable(alloc);
    };
    let terms = alike(alloc, count, coef)?;
    let weights = Weights { terms, degree };
    match normal_form(alloc, &weights)? {
        Form::Outside => outside(alloc),
        Form::Always => Ok("always".to_string(alloc)?),
        Form::Sum(sum) => ends_text(alloc, &sum),
    }
}

fn are_among(terms: &[Term], variables: usize) -> bool
    ensures { IsTrue result ↔ AreAmong variables terms.now }
{
    terms.iter().all(|term| 0 < term.lit.variable && term.lit.variable as usize <= variables)
}

/// The normal form over variables from 1 to a number, if there is one.
pub fn sum_over(
    alloc: Global,
    weights: &Weights,
    variables: usize,
) -> Result<Option<Constraint>, NoMemory>
    ensures { IfOk result (λ found. IfSome found (λ c. IsNormalOver variables (at_least c))) }
{
    let terms = weights.terms.items();
    if terms.len() > MOST_TERMS || !are_moderate(terms) || !is_moderate(weights.degree) {
        return Ok(None);
    }
    let Some(found) = normalise(alloc, &weights.terms, weights.degree, origin())? else {
        return Ok(None);
    };
    if are_among(found.terms.items(), variables) {
        Ok(Some(found))
    } else {
        Ok(None)
    }
}

/// Adds the sum's normal form over variables from 1 to a number, if there is one.
fn push_sum(
    sums: &mut List<Constraint>,
    weights: &Weights,
    variables: usize,
) -> Result<(), NoMemory>
    requires { All (λ c. IsNormalOver variables (at_least c)) sums.old }
    ensures { All (λ c. IsNormalOver variables (at_least c)) sums.new }
{
    match sum_over(sums.allocator(), weights, variables)? {
        Some(sum) => sums.push(sum),
        None => Ok(()),
    }
}

/// The sums that have a normal form over so many variables.
fn sums_over(
    alloc: Global,
    weights: &[Weights],
    variables: usize,
) -> Result<List<Constraint>, NoMemory>
    ensures { IfOk result (λ found. All (λ c. IsNormalOver variables (at_least c)) found) }
{
    let mut sums = List::new(alloc);
    for one in weights {
        push_sum(&mut sums, one, variables)?;
    }
    Ok(sums)
}

fn labels(alloc: Global, variables: u32) -> Result<List<Text>, NoMemory>
    ensures { IfOk result (λ labels. length labels ≡ variables) }
{
    let mut labels = List::new(alloc);
    for _ in 0..variables {
        labels.push(Text::from_str(alloc, "x")?)?;
    }
    Ok(labels)
}

/// The problem of the sums that have a normal form over so many variables. None where it is too large here.
pub fn problem(
    alloc: Global,
    weights: &[Weights],
    variables: u32,
) -> Result<Option<Problem>, NoMemory>
    ensures labels { IfOk result (λ found. IfSome found (λ p. length p.labels ≤ 1000000000)) }
    ensures constraints { IfOk result (λ found. IfSome found (λ p. length p.constraints ≤ 1000000000)) }
    ensures normal { IfOk result (λ found. IfSome found (λ p. All (λ c. IsNormalOver (length p.labels) (at_least c)) p.constraints)) }
{
    let labels = labels(alloc, variables)?;
    let constraints = sums_over(alloc, weights, labels.len())?;
    if labels.len() > MOST || constraints.len() > MOST {
        return Ok(None);
    }
    Ok(Some(Problem {
        labels,
        constraints,
    }))
}
