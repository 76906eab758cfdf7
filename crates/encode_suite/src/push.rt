//! Parts of an answer.

use osgi_version::{NoMemory, Text, push_field, push_number};
use pb_core::{Constraint, Origin, Problem, Term};

pub(crate) fn push_word(line: &mut Vec<u8>, word: &str) -> Result<(), NoMemory> {
    line.extend_from_slice(word.as_bytes())?;
    Ok(())
}

/// The word, and the text as a field.
fn push_named(line: &mut Vec<u8>, word: &str, text: &Text) -> Result<(), NoMemory> {
    push_word(line, word)?;
    push_field(line, text.bytes())
}

/// The word, and two numbers behind colons.
fn push_place(line: &mut Vec<u8>, word: &str, variable: u32, row: u32) -> Result<(), NoMemory> {
    push_word(line, word)?;
    push_number(line, variable)?;
    line.push(b':')?;
    push_number(line, row)
}

/// `root`, with the label where there is no term, `need:VARIABLE:ROW`, `most:VARIABLE:ROW` or `one:ID`.
fn push_origin(line: &mut Vec<u8>, constraint: &Constraint) -> Result<(), NoMemory> {
    match &constraint.origin {
        Origin::Root(label) if constraint.terms.is_empty() => push_named(line, "root:", label),
        Origin::Root(_) => push_word(line, "root"),
        Origin::Need { variable, row } => push_place(line, "need:", *variable, *row),
        Origin::Most { variable, row } => push_place(line, "most:", *variable, *row),
        Origin::One(id) => push_named(line, "one:", id),
    }
}

/// A number of 64 bits.
fn push_wide(line: &mut Vec<u8>, number: u64) -> Result<(), NoMemory> {
    match u32::try_from(number) {
        Ok(number) => push_number(line, number),
        Err(_) => push_word(line, "wide"),
    }
}

/// A blank, the coefficient, and the variable, with `-` before it where it is to be false.
fn push_term(line: &mut Vec<u8>, term: &Term) -> Result<(), NoMemory> {
    line.push(b' ')?;
    push_wide(line, term.coef)?;
    push_word(line, if term.lit.positive { ":" } else { ":-" })?;
    push_number(line, term.lit.variable)
}

/// `c ORIGIN DEGREE TERMS`
fn push_constraint(line: &mut Vec<u8>, constraint: &Constraint) -> Result<(), NoMemory> {
    push_word(line, " | c ")?;
    push_origin(line, constraint)?;
    line.push(b' ')?;
    push_wide(line, constraint.degree)?;
    for term in constraint.terms.items() {
        push_term(line, term)?;
    }
    Ok(())
}

fn push_labels(line: &mut Vec<u8>, labels: &[Text]) -> Result<(), NoMemory> {
    for label in labels {
        push_named(line, " | v ", label)?;
    }
    Ok(())
}

fn push_constraints(line: &mut Vec<u8>, constraints: &[Constraint]) -> Result<(), NoMemory> {
    for constraint in constraints {
        push_constraint(line, constraint)?;
    }
    Ok(())
}

/// `problem`, the labels, and the constraints.
pub(crate) fn push_parts(line: &mut Vec<u8>, problem: &Problem) -> Result<(), NoMemory> {
    push_word(line, "problem")?;
    push_labels(line, problem.labels.items())?;
    push_constraints(line, problem.constraints.items())
}
