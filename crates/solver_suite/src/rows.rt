//! What the rows ask.
ghost use Rattle.std.specs.Prelude.{◌≤◌, ◌<◌, length, All, IfOk, IfSome};

use crate::builder::{Sum, Sums, lit, problem};
use crate::families::{alternatives, pigeons, slots};
use crate::judging::{Finding, solve_and_judge};
use crate::random::{agrees_at, push_among};
use osgi_version::{List, NoMemory};
use pb_core::{Lit, SignedTerm};
use std::alloc::Global;
use suite_row::Row;

fn number(word: &str) -> u32 {
    word.parse::<u32>().unwrap_or(0)
}

fn text_of(alloc: Global, finding: Finding) -> Result<String, NoMemory> {
    let text = match finding {
        Finding::Model { wanted: true } => "model as wanted".to_string(alloc)?,
        Finding::Model { wanted: false } => "model".to_string(alloc)?,
        Finding::Refuted => "refuted".to_string(alloc)?,
        Finding::Spent(count) => format!(in alloc; "spent {count}")?,
        Finding::Wrong => "wrong".to_string(alloc)?,
    };
    Ok(text)
}

/// A variable's number, with `-` before it where the literal is its complement.
fn read_lit(word: &str) -> Lit {
    match word.strip_prefix('-') {
        Some(digits) => lit(number(digits), false),
        None => lit(number(word), true),
    }
}

/// A coefficient and a literal with `:` between them.
fn read_term(word: &str) -> Option<SignedTerm> {
    let (coef, lit) = word.split_once(':')?;
    let lit = read_lit(lit);
    match coef.parse::<i64>() {
        Ok(coef) => Some(SignedTerm { coef, lit }),
        Err(_) => None,
    }
}

/// Terms, `>=` and the degree.
fn read_sum(alloc: Global, words: &[&str]) -> Result<Option<Sum>, NoMemory> {
    let [front @ .., _, degree] = words else {
        return Ok(None);
    };
    let Ok(degree) = degree.parse::<i64>() else {
        return Ok(None);
    };
    let mut terms = List::new(alloc);
    for word in front {
        match read_term(word) {
            Some(term) => terms.push(term)?,
            None => return Ok(None),
        }
    }
    Ok(Some(Sum { terms, degree }))
}

/// Sums, each behind a `;`. What isn't one is left out.
fn read_sums(alloc: Global, variables: u32, words: &[&str]) -> Result<Sums, NoMemory> {
    let mut sums = Sums::new(alloc, variables);
    for front in words.split(|word| *word == ";") {
        if let Some(sum) = read_sum(alloc, front)? {
            sums.sums.push(sum)?;
        }
    }
    Ok(sums)
}

/// The variables of the words that are among those from 1 to a number.
fn read_order(alloc: Global, words: &[&str], most: usize) -> Result<List<u32>, NoMemory>
    ensures { IfOk result (All (λ v. (0 < v) × (v ≤ most))) }
{
    let mut order = List::new(alloc);
    for word in words {
        push_among(&mut order, number(word), most)?;
    }
    Ok(order)
}

fn judge(alloc: Global, sums: &Sums, budget: u32, order: &[&str]) -> Result<Finding, NoMemory> {
    if budget == 0 || budget > 50_000 {
        return Ok(Finding::Wrong);
    }
    let Some(problem) = problem(alloc, sums)? else {
        return Ok(Finding::Wrong);
    };
    let order = read_order(alloc, order, problem.labels.len())?;
    solve_and_judge(alloc, &problem, budget, &order)
}

fn ask(alloc: Global, sums: &Sums, budget: &str) -> Result<String, NoMemory> {
    let finding = judge(alloc, sums, number(budget), &[])?;
    text_of(alloc, finding)
}

/// `solve BUDGET VARIABLES WANTED.. ; SUM ; SUM ..`
fn solve_row(alloc: Global, words: &[&str]) -> Result<String, NoMemory> {
    let [_, budget, variables, rest @ ..] = words else {
        return Ok("no row".to_string(alloc)?);
    };
    let cut = rest
        .iter()
        .position(|word| *word == ";")
        .unwrap_or(rest.len());
    let sums = read_sums(alloc, number(variables), &rest[cut..])?;
    let finding = judge(alloc, &sums, number(budget), &rest[..cut])?;
    text_of(alloc, finding)
}

/// `random FROM COUNT`
fn random_row(alloc: Global, from: &str, count: &str) -> Result<String, NoMemory> {
    let from = u64::from(number(from));
    let mut agree = 0u32;
    for place in 0..u64::from(number(count)) {
        if agrees_at(alloc, from.saturating_add(place))? {
            agree = agree.saturating_add(1);
        }
    }
    Ok(format!(in alloc; "{agree} agree")?)
}

fn row(alloc: Global, words: &[&str]) -> Result<String, NoMemory> {
    match words {
        ["pigeons", holes, budget] => ask(alloc, &pigeons(alloc, number(holes))?, budget),
        ["slots", roots, ids, budget] => {
            ask(alloc, &slots(alloc, number(roots), number(ids))?, budget)
        }
        ["alternatives", count, budget] => {
            ask(alloc, &alternatives(alloc, number(count))?, budget)
        }
        ["random", from, count] => random_row(alloc, from, count),
        ["solve", ..] => solve_row(alloc, words),
        _ => Ok("no such row".to_string(alloc)?),
    }
}

fn words_of(alloc: Global, row: &Row) -> Result<Vec<&str>, NoMemory> {
    let mut words = Vec::new(alloc);
    for place in 0..row.len() {
        words.push(row.word(place))?;
    }
    Ok(words)
}

pub fn answer(alloc: Global, line: &str) -> Result<String, NoMemory> {
    if line.is_empty() || line.starts_with('#') {
        return Ok(line.to_string(alloc)?);
    }
    let Some(read) = Row::read(alloc, line.as_bytes())? else {
        return Ok("no row".to_string(alloc)?);
    };
    let words = words_of(alloc, &read)?;
    row(alloc, &words)
}
