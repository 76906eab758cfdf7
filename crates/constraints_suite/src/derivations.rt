//! Derivations over the problem at hand.
ghost use Rattle.std.specs.Prelude.{◌≤◌, length, All};
ghost use Rattle.pb_core.specs.AtLeast.{at_least};
ghost use Rattle.pb_core.specs.Normal.{IsNormalOver};

use crate::desk::Desk;
use crate::printing::{fault_text, numbers_text, outside, unreadable, verdict_text};
use crate::weights::{MOST, problem};
use crate::words::read_derivation;
use deriv_check::{CheckFault, Derivation, check, used};
use osgi_version::{List, NoMemory};
use pb_core::Problem;
use std::alloc::Global;

/// What is answered for a derivation over a problem.
fn judged(alloc: Global, over: &Problem, words: &[&str]) -> Result<String, NoMemory>
    requires labels { length over.now.labels ≤ 1000000000 }
    requires constraints { length over.now.constraints ≤ 1000000000 }
    requires normal { All (λ c. IsNormalOver (length over.now.labels) (at_least c)) over.now.constraints }
{
    let Some(derivation) = read_derivation(alloc, words)? else {
        return unreadable(alloc);
    };
    if derivation.lines.len() > MOST {
        return outside(alloc);
    }
    verdict_text(alloc, check(alloc, over, &derivation))
}

/// Checks a derivation.
pub fn check_lines(alloc: Global, desk: &Desk, words: &[&str]) -> Result<String, NoMemory> {
    match problem(alloc, desk.sums.as_slice(), desk.variables)? {
        Some(problem) => judged(alloc, &problem, words),
        None => outside(alloc),
    }
}

/// The constraints that a derivation uses, where it checks and has a line.
pub fn numbers(
    alloc: Global,
    over: &Problem,
    derivation: &Derivation,
) -> Result<Option<List<u32>>, CheckFault>
    requires labels { length over.now.labels ≤ 1000000000 }
    requires constraints { length over.now.constraints ≤ 1000000000 }
    requires lines { length derivation.now.lines ≤ 1000000000 }
    requires normal { All (λ c. IsNormalOver (length over.now.labels) (at_least c)) over.now.constraints }
{
    if derivation.lines.is_empty() {
        return Ok(None);
    }
    match check(alloc, over, derivation) {
        Ok(_) => Ok(Some(used(alloc, over, derivation)?)),
        Err(fault) => Err(fault),
    }
}

pub fn used_text(
    alloc: Global,
    found: Result<Option<List<u32>>, CheckFault>,
) -> Result<String, NoMemory> {
    match found {
        Ok(Some(numbers)) => numbers_text(alloc, numbers.items()),
        Ok(None) => Ok("no line".to_string(alloc)?),
        Err(fault) => fault_text(alloc, fault),
    }
}

/// What a derivation over a problem uses.
fn named(alloc: Global, over: &Problem, words: &[&str]) -> Result<String, NoMemory>
    requires labels { length over.now.labels ≤ 1000000000 }
    requires constraints { length over.now.constraints ≤ 1000000000 }
    requires normal { All (λ c. IsNormalOver (length over.now.labels) (at_least c)) over.now.constraints }
{
    let Some(derivation) = read_derivation(alloc, words)? else {
        return unreadable(alloc);
    };
    if derivation.lines.len() > MOST {
        return outside(alloc);
    }
    used_text(alloc, numbers(alloc, over, &derivation))
}

/// The numbers of the constraints that a derivation uses.
pub fn used_by(alloc: Global, desk: &Desk, words: &[&str]) -> Result<String, NoMemory> {
    match problem(alloc, desk.sums.as_slice(), desk.variables)? {
        Some(problem) => named(alloc, &problem, words),
        None => outside(alloc),
    }
}
