//! Small problems that are made by a fixed rule, against all their assignments.
ghost use Rattle.std.specs.Prelude.{◌≤◌, ◌<◌, length, All, IfOk};
ghost use Rattle.pb_core.specs.AtLeast.{at_least};
ghost use Rattle.pb_core.specs.Normal.{IsNormalOver};

use crate::builder::{Sum, Sums, lit, problem};
use crate::judging::{Finding, solve_and_judge};
use osgi_version::{List, NoMemory};
use pb_core::{Constraint, Lit, Problem, SignedTerm};
use std::alloc::Global;

/// Numbers one after the other, by a linear rule.
#[derive(Drop)]
pub struct Dice {
    state: u64,
}

impl Dice {
    pub fn new(seed: u64) -> Dice {
        Dice { state: seed }
    }

    /// A number below the bound, or 0 where that is 0.
    fn roll(&mut self, bound: u64) -> u64 {
        self.state = self
            .state
            .wrapping_mul(6364136223846793005)
            .wrapping_add(1442695040888963407);
        (self.state >> 33).checked_rem(bound).unwrap_or(0)
    }

    /// The same, as a variable from 1 to the bound.
    fn variable(&mut self, bound: u32) -> u32 {
        u32::try_from(self.roll(u64::from(bound)))
            .unwrap_or(0)
            .saturating_add(1)
    }

    fn literal(&mut self, variables: u32) -> Lit {
        let variable = self.variable(variables);
        lit(variable, self.roll(2) == 0)
    }

    fn number(&mut self, bound: u64) -> i64 {
        i64::try_from(self.roll(bound))
            .unwrap_or(0)
            .saturating_add(1)
    }
}

/// A sum of one to four literals, which a half of the coefficients satisfies or less.
fn random_sum(alloc: Global, dice: &mut Dice, variables: u32) -> Result<Sum, NoMemory> {
    let mut terms = List::new(alloc);
    let mut most = 0i64;
    for _ in 0..dice.variable(4) {
        let coef = dice.number(3);
        let lit = dice.literal(variables);
        most = most.saturating_add(coef);
        terms.push(SignedTerm { coef, lit })?;
    }
    let degree = dice
        .number(u64::try_from(most).unwrap_or(1))
        .saturating_add(1)
        / 2;
    Ok(Sum { terms, degree })
}

fn random_sums(alloc: Global, dice: &mut Dice) -> Result<Sums, NoMemory> {
    let variables = dice.variable(14);
    let mut sums = Sums::new(alloc, variables);
    for _ in 0..dice.variable(variables.saturating_mul(4)) {
        let sum = random_sum(alloc, dice, variables)?;
        sums.sums.push(sum)?;
    }
    Ok(sums)
}

/// Whether the variable's bit is set.
fn has_bit(mask: u64, variable: u32) -> bool {
    mask.checked_shr(variable.saturating_sub(1)).unwrap_or(0) % 2 == 1
}

/// Whether a constraint is satisfied where exactly the variables of the mask are true.
fn satisfies(constraint: &Constraint, mask: u64) -> bool {
    let mut sum = 0u64;
    let terms = constraint.terms.items();
    for term in terms {
        if has_bit(mask, term.lit.variable) == term.lit.positive {
            sum = sum.saturating_add(term.coef);
        }
    }
    sum >= constraint.degree
}

fn satisfies_all(problem: &Problem, mask: u64) -> bool {
    let constraints = problem.constraints.items();
    for constraint in constraints {
        if !satisfies(constraint, mask) {
            return false;
        }
    }
    true
}

/// Whether some assignment of the variables satisfies the problem.
fn is_satisfiable(problem: &Problem) -> bool {
    let variables = problem.labels.len().min(14);
    for mask in 0..1u64 << variables {
        if satisfies_all(problem, mask) {
            return true;
        }
    }
    false
}

/// Adds the variable where it is among those.
pub fn push_among(order: &mut List<u32>, variable: u32, most: usize) -> Result<(), NoMemory>
    requires { All (λ v. (0 < v) × (v ≤ most)) order.old }
    ensures { All (λ v. (0 < v) × (v ≤ most)) order.new }
{
    if variable == 0 || variable as usize > most {
        return Ok(());
    }
    order.push(variable)?;
    Ok(())
}

/// The variables of a mask.
pub fn variables_of(alloc: Global, mask: u64, most: usize) -> Result<List<u32>, NoMemory>
    ensures { IfOk result (All (λ v. (0 < v) × (v ≤ most))) }
{
    let mut order = List::new(alloc);
    for variable in 1..64 {
        if has_bit(mask, variable) {
            push_among(&mut order, variable, most)?;
        }
    }
    Ok(order)
}

fn agrees(alloc: Global, problem: &Problem, mask: u64, budget: u32) -> Result<bool, NoMemory>
    requires some_budget { 0 < budget }
    requires small_budget { budget ≤ 50000 }
    requires labels { length problem.now.labels ≤ 1000000000 }
    requires constraints { length problem.now.constraints ≤ 1000000000 }
    requires normal { All (λ c. IsNormalOver (length problem.now.labels) (at_least c)) problem.now.constraints }
{
    let satisfiable = is_satisfiable(problem);
    let wished = satisfies_all(problem, mask);
    let order = variables_of(alloc, mask, problem.labels.len())?;
    let right = match solve_and_judge(alloc, problem, budget, &order)? {
        Finding::Model { wanted } => satisfiable && (wanted || !wished),
        Finding::Refuted => !satisfiable,
        Finding::Spent(count) => count == budget as usize && !wished,
        Finding::Wrong => false,
    };
    Ok(right)
}

/// The budget of a problem: mostly enough, else one to three.
fn budget(dice: &mut Dice) -> u32
    ensures some { 0 < result }
    ensures small { result ≤ 50000 }
{
    let roll = dice.roll(6);
    if roll == 0 || roll > 3 {
        return 50_000;
    }
    roll as u32
}

/// Whether the solver agrees with all assignments of the problem that a seed gives.
pub fn agrees_at(alloc: Global, seed: u64) -> Result<bool, NoMemory> {
    let mut dice = Dice::new(seed);
    let sums = random_sums(alloc, &mut dice)?;
    let budget = budget(&mut dice);
    let mask = dice.roll(1 << 14) % (1u64 << sums.variables.min(14));
    match problem(alloc, &sums)? {
        Some(problem) => agrees(alloc, &problem, mask, budget),
        None => Ok(false),
    }
}
