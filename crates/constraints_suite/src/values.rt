//! Assignments: values that are given, taken back and asked for.

use crate::printing::{outside, truth, unreadable};
use crate::words::{read_lit, read_lits};
use osgi_version::{NoMemory, Twin};
use pb_core::{Assignment, Lit};
use std::alloc::Global;

/// Makes the literal true, where its variable is one of these.
fn make_true(values: &mut Assignment, lit: Lit) {
    if 0 < lit.variable && lit.variable as usize <= values.len() {
        values.set(lit.variable, Some(lit.positive));
    }
}

fn make_open(values: &mut Assignment, variable: u32) {
    if 0 < variable && variable as usize <= values.len() {
        values.set(variable, None);
    }
}

/// What holds of a literal, and the value of its variable.
fn seen(values: &Assignment, lit: Lit) -> Option<(&'static str, &'static str)> {
    if lit.variable == 0 || lit.variable as usize > values.len() {
        return None;
    }
    let value = truth(values.value(lit.variable));
    let kinds = (
        values.is_true(lit),
        values.is_false(lit),
        values.is_open(lit),
    );
    match kinds {
        (true, false, false) => Some(("true", value)),
        (false, true, false) => Some(("false", value)),
        (false, false, true) => Some(("open", value)),
        _ => Some(("more than one", value)),
    }
}

fn push_seen(text: &mut String, values: &Assignment, lit: Lit) -> Result<(), NoMemory> {
    match seen(values, lit) {
        Some((kind, value)) => write!(text, " {kind}/{value}")?,
        None => write!(text, " none")?,
    }
    Ok(())
}

/// Sets literals true, or opens the variables that stand behind `open:`.
fn set_all(values: &mut Assignment, words: &[&str]) -> bool {
    for word in words {
        match word.strip_prefix("open:") {
            Some(digits) => match read_lit(digits) {
                Some(lit) => make_open(values, lit.variable),
                None => return false,
            },
            None => match read_lit(word) {
                Some(lit) => make_true(values, lit),
                None => return false,
            },
        }
    }
    true
}

/// How many variables there are, changes, `?` and the literals that are asked for.
pub fn values(alloc: Global, words: &[&str]) -> Result<String, NoMemory> {
    let Some(at) = words.iter().position(|word| *word == "?") else {
        return unreadable(alloc);
    };
    let Some(asked) = read_lits(alloc, &words[at + 1..])? else {
        return unreadable(alloc);
    };
    let Some(values) = made(alloc, &words[..at])? else {
        return unreadable(alloc);
    };
    let mut text = format!(in alloc; "{}", values.len())?;
    let lits = asked.items();
    for lit in lits {
        push_seen(&mut text, &values, *lit)?;
    }
    Ok(text)
}

/// The values after changes.
fn made(alloc: Global, words: &[&str]) -> Result<Option<Assignment>, NoMemory> {
    let Some((count, changes)) = words.split_first() else {
        return Ok(None);
    };
    let Ok(count) = count.parse::<u32>() else {
        return Ok(None);
    };
    let mut values = Assignment::new(alloc, count)?;
    if set_all(&mut values, changes) {
        Ok(Some(values))
    } else {
        Ok(None)
    }
}

fn equality(one: &Assignment, other: &Assignment) -> &'static str {
    if one == other { "equal" } else { "unequal" }
}

/// Whether a copy is equal before a further change, which stands last, and after it.
pub fn copies(alloc: Global, words: &[&str]) -> Result<String, NoMemory> {
    let Some((last, front)) = words.split_last() else {
        return unreadable(alloc);
    };
    let Some(lit) = read_lit(last) else {
        return unreadable(alloc);
    };
    let Some(values) = made(alloc, front)? else {
        return outside(alloc);
    };
    let mut copied = values.copy()?;
    let before = equality(&values, &copied);
    make_true(&mut copied, lit);
    let empty = if values.is_empty() { "empty" } else { "some" };
    Ok(format!(in alloc; "{before} {} {empty}", equality(&values, &copied))?)
}
