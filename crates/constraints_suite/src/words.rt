//! Literals, weighted sums and lines of derivations, as rows spell them.

use deriv_check::{Derivation, Line};
use osgi_version::{List, NoMemory};
use pb_core::{Lit, SignedTerm};
use std::alloc::Global;

/// The sum of coefficients that has to reach a degree, before it has a normal form.
#[derive(Drop)]
pub struct Weights {
    pub terms: List<SignedTerm>,
    pub degree: i64,
}

/// Reads a variable's number, with `-` before it where the literal is its complement.
pub fn read_lit(word: &str) -> Option<Lit> {
    let (digits, positive) = match word.strip_prefix('-') {
        Some(digits) => (digits, false),
        None => (word, true),
    };
    match digits.parse::<u32>() {
        Ok(variable) => Some(Lit { variable, positive }),
        Err(_) => None,
    }
}

pub fn read_lits(alloc: Global, words: &[&str]) -> Result<Option<List<Lit>>, NoMemory> {
    let mut lits = List::new(alloc);
    for word in words {
        match read_lit(word) {
            Some(lit) => lits.push(lit)?,
            None => return Ok(None),
        }
    }
    Ok(Some(lits))
}

/// Reads a coefficient and a literal with `:` between them.
fn read_term(word: &str) -> Option<SignedTerm> {
    let (coef, lit) = word.split_once(':')?;
    let lit = read_lit(lit)?;
    match coef.parse::<i64>() {
        Ok(coef) => Some(SignedTerm { coef, lit }),
        Err(_) => None,
    }
}

fn read_terms(alloc: Global, words: &[&str]) -> Result<Option<List<SignedTerm>>, NoMemory> {
    let mut terms = List::new(alloc);
    for word in words {
        match read_term(word) {
            Some(term) => terms.push(term)?,
            None => return Ok(None),
        }
    }
    Ok(Some(terms))
}

/// Reads terms, `>=` and the degree.
pub fn read_weights(alloc: Global, words: &[&str]) -> Result<Option<Weights>, NoMemory> {
    let [front @ .., sign, degree] = words else {
        return Ok(None);
    };
    let Ok(degree) = degree.parse::<i64>() else {
        return Ok(None);
    };
    if *sign != ">=" {
        return Ok(None);
    }
    match read_terms(alloc, front)? {
        Some(terms) => Ok(Some(Weights { terms, degree })),
        None => Ok(None),
    }
}

/// Reads weighted sums, each behind a `;`.
pub fn read_sums(alloc: Global, words: &[&str]) -> Result<Option<Vec<Weights>>, NoMemory> {
    let mut sums = Vec::new(alloc);
    for front in words.split(|word| *word == ";") {
        if !front.is_empty() {
            match read_weights(alloc, front)? {
                Some(weights) => sums.push(weights)?,
                None => return Ok(None),
            }
        }
    }
    Ok(Some(sums))
}

fn read_hints(alloc: Global, words: &[&str]) -> Result<Option<List<u32>>, NoMemory> {
    let mut hints = List::new(alloc);
    for word in words {
        match word.parse::<u32>() {
            Ok(hint) => hints.push(hint)?,
            Err(_) => return Ok(None),
        }
    }
    Ok(Some(hints))
}

/// Reads literals, `:` and hints.
fn read_line(alloc: Global, words: &[&str]) -> Result<Option<Line>, NoMemory> {
    let Some(at) = words.iter().position(|word| *word == ":") else {
        return Ok(None);
    };
    let Some(clause) = read_lits(alloc, &words[..at])? else {
        return Ok(None);
    };
    match read_hints(alloc, &words[at + 1..])? {
        Some(hints) => Ok(Some(Line { clause, hints })),
        None => Ok(None),
    }
}

/// Reads lines with `/` between them. Without a word there is no line.
pub fn read_derivation(alloc: Global, words: &[&str]) -> Result<Option<Derivation>, NoMemory> {
    let mut lines = List::new(alloc);
    if words.is_empty() {
        return Ok(Some(Derivation { lines }));
    }
    for front in words.split(|word| *word == "/") {
        match read_line(alloc, front)? {
            Some(line) => lines.push(line)?,
            None => return Ok(None),
        }
    }
    Ok(Some(Derivation { lines }))
}
