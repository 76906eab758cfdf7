//! Values of the libraries, as answers spell them.

use deriv_check::{CheckFault, Verdict, Why};
use osgi_version::NoMemory;
use pb_core::{Lit, Occurrence, Term};
use std::alloc::Global;

/// What a row gets that can't be read.
pub fn unreadable(alloc: Global) -> Result<String, NoMemory> {
    Ok("unreadable".to_string(alloc)?)
}

/// What a row gets that no call may be asked.
pub fn outside(alloc: Global) -> Result<String, NoMemory> {
    Ok("outside".to_string(alloc)?)
}

fn sign(lit: Lit) -> &'static str {
    if lit.positive { "" } else { "-" }
}

/// Terms, and the degree that they have to reach.
pub fn sum_text(alloc: Global, terms: &[Term], degree: u64) -> Result<String, NoMemory> {
    let mut text = String::new(alloc);
    for term in terms {
        let (coef, variable) = (term.coef, term.lit.variable);
        write!(text, "{coef}:{}{variable} ", sign(term.lit))?;
    }
    write!(text, ">= {degree}")?;
    Ok(text)
}

pub fn numbers_text(alloc: Global, numbers: &[u32]) -> Result<String, NoMemory> {
    let mut text = "used".to_string(alloc)?;
    for number in numbers {
        write!(text, " {number}")?;
    }
    Ok(text)
}

pub fn occurrences_text(alloc: Global, found: &[Occurrence]) -> Result<String, NoMemory> {
    let mut text = "in".to_string(alloc)?;
    for occurrence in found {
        write!(text, " {}:{}", occurrence.number, occurrence.coef)?;
    }
    Ok(text)
}

pub fn truth(value: Option<bool>) -> &'static str {
    match value {
        Some(true) => "true",
        Some(false) => "false",
        None => "open",
    }
}

fn why_text(why: Why) -> &'static str {
    match why {
        Why::Text => "Text",
        Why::Literal => "Literal",
        Why::Hint => "Hint",
        Why::NoConflict => "NoConflict",
    }
}

pub fn fault_text(alloc: Global, fault: CheckFault) -> Result<String, NoMemory> {
    match fault {
        CheckFault::Bad { line, why } => Ok(format!(in alloc; "bad {line} {}", why_text(why))?),
        CheckFault::NoMemory => Err(NoMemory),
    }
}

pub fn verdict_text(
    alloc: Global,
    answer: Result<Verdict, CheckFault>,
) -> Result<String, NoMemory> {
    match answer {
        Ok(Verdict::Refutes) => Ok("refutes".to_string(alloc)?),
        Ok(Verdict::Follows) => Ok("follows".to_string(alloc)?),
        Err(fault) => fault_text(alloc, fault),
    }
}
