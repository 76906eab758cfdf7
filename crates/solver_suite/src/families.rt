//! Families of problems that are made by a rule.

use crate::builder::{Sums, lit};
use osgi_version::NoMemory;
use pb_core::Lit;
use std::alloc::Global;

/// The literals of a table's variables in one row or column: `count` of them, from `first` on, `step` apart.
fn line(
    alloc: Global,
    first: u32,
    step: u32,
    count: u32,
    positive: bool,
) -> Result<Vec<Lit>, NoMemory> {
    let mut lits = Vec::new(alloc);
    for place in 0..count {
        lits.push(lit(first.saturating_add(place.saturating_mul(step)), positive))?;
    }
    Ok(lits)
}

/// One pigeon more than there are holes, each in some hole, and no two in one.
pub fn pigeons(alloc: Global, holes: u32) -> Result<Sums, NoMemory> {
    let birds = holes.saturating_add(1);
    let mut sums = Sums::new(alloc, birds.saturating_mul(holes));
    for bird in 0..birds {
        let first = bird.saturating_mul(holes).saturating_add(1);
        let lits = line(alloc, first, 1, holes, true)?;
        sums.push_count(alloc, &lits, 1)?;
    }
    for hole in 0..holes {
        let lits = line(alloc, hole.saturating_add(1), holes, birds, false)?;
        sums.push_count(alloc, &lits, i64::from(holes))?;
    }
    Ok(sums)
}

/// Adds roots that each want one slot, and ids with a singleton for each slot: from a variable on first the versions of
/// each id, then the roots.
fn push_slots(
    sums: &mut Sums,
    alloc: Global,
    before: u32,
    roots: u32,
    ids: u32,
) -> Result<(), NoMemory> {
    let behind = before.saturating_add(ids.saturating_mul(roots));
    for root in 1..roots.saturating_add(1) {
        let own = behind.saturating_add(root);
        sums.push_count(alloc, &[lit(own, true)], 1)?;
        let mut lits = line(alloc, before.saturating_add(root), roots, ids, true)?;
        lits.push(lit(own, false))?;
        sums.push_count(alloc, &lits, 1)?;
    }
    for id in 0..ids {
        let first = before
            .saturating_add(id.saturating_mul(roots))
            .saturating_add(1);
        let lits = line(alloc, first, 1, roots, false)?;
        sums.push_count(alloc, &lits, i64::from(roots).saturating_sub(1))?;
    }
    Ok(())
}

pub fn slots(alloc: Global, roots: u32, ids: u32) -> Result<Sums, NoMemory> {
    let variables = ids.saturating_add(1).saturating_mul(roots);
    let mut sums = Sums::new(alloc, variables);
    push_slots(&mut sums, alloc, 0, roots, ids)?;
    Ok(sums)
}

/// Adds units that are wanted and need one of the two behind each.
fn push_choices(sums: &mut Sums, alloc: Global, before: u32, count: u32) -> Result<(), NoMemory> {
    for choice in 0..count {
        let own = before
            .saturating_add(choice.saturating_mul(3))
            .saturating_add(1);
        sums.push_count(alloc, &[lit(own, true)], 1)?;
        let one = lit(own.saturating_add(1), true);
        let other = lit(own.saturating_add(2), true);
        sums.push_count(alloc, &[lit(own, false), one, other], 1)?;
    }
    Ok(())
}

/// Three slots of two ids, which can't be filled, between choices on either side that have nothing to do with them.
pub fn alternatives(alloc: Global, count: u32) -> Result<Sums, NoMemory> {
    let side = count.saturating_mul(3);
    let behind = side.saturating_add(9);
    let mut sums = Sums::new(alloc, behind.saturating_add(side));
    push_choices(&mut sums, alloc, 0, count)?;
    push_slots(&mut sums, alloc, side, 3, 2)?;
    push_choices(&mut sums, alloc, behind, count)?;
    Ok(sums)
}
