//! The problem at hand, with values of its variables.

use crate::printing::{outside, unreadable};
use crate::weights::problem;
use crate::words::{Weights, read_sums};
use osgi_version::NoMemory;
use pb_core::Kept;
use std::alloc::Global;

/// Weighted sums over variables from 1 to a number, and the slacks of their normal forms as they are kept.
#[derive(Drop)]
pub struct Desk {
    pub sums: Vec<Weights>,
    pub variables: u32,
    pub kept: Kept,
}

/// The kept slacks of the sums' problem.
fn new_kept(alloc: Global, sums: &[Weights], variables: u32) -> Result<Option<Kept>, NoMemory> {
    match problem(alloc, sums, variables)? {
        Some(problem) => Ok(Some(Kept::new(alloc, &problem)?)),
        None => Ok(None),
    }
}

fn new_desk(alloc: Global, sums: Vec<Weights>, variables: u32) -> Result<Option<Desk>, NoMemory> {
    match new_kept(alloc, sums.as_slice(), variables)? {
        Some(kept) => Ok(Some(Desk {
            sums,
            variables,
            kept,
        })),
        None => Ok(None),
    }
}

/// Begins with another problem: how many variables there are, and sums, each behind a `;`. How many of them have a
/// normal form that isn't satisfied always.
pub fn set_up(alloc: Global, desk: &mut Option<Desk>, words: &[&str]) -> Result<String, NoMemory> {
    let Some((count, words)) = words.split_first() else {
        return unreadable(alloc);
    };
    let Ok(variables) = count.parse::<u32>() else {
        return unreadable(alloc);
    };
    let Some(sums) = read_sums(alloc, words)? else {
        return unreadable(alloc);
    };
    *desk = new_desk(alloc, sums, variables)?;
    match desk {
        Some(desk) => Ok(format!(in alloc; "{} constraints", desk.kept.len())?),
        None => outside(alloc),
    }
}
