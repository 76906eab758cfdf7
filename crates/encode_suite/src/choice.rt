//! One subset of members.

use osgi_version::NoMemory;
use pb_core::{Constraint, Lit};
use std::alloc::Global;
use unit_catalog::Catalog;
use unit_model::Unit;

/// Those members whose marks are true.
#[derive(Clone, Copy)]
pub(crate) struct Choice<'a> {
    pub(crate) catalog: &'a Catalog,
    pub(crate) members: &'a [u32],
    pub(crate) marks: &'a [bool],
}

impl Choice<'_> {
    pub(crate) fn len(&self) -> usize {
        self.members.len()
    }

    fn is_marked(&self, place: usize) -> bool {
        self.marks.get(place).copied().unwrap_or(false)
    }

    /// The member at this place, where it is chosen.
    pub(crate) fn unit(&self, place: usize) -> Option<&Unit> {
        if !self.is_marked(place) {
            return None;
        }
        let number = self.members.get(place).copied().unwrap_or(u32::MAX);
        self.catalog.unit(number)
    }

    fn is_true(&self, literal: Lit) -> bool {
        let place = (literal.variable as usize).wrapping_sub(1);
        self.is_marked(place) == literal.positive
    }

    /// Whether the coefficients of the true literals reach the degree.
    pub(crate) fn satisfies(&self, constraint: &Constraint) -> bool {
        let mut sum = 0u64;
        for term in constraint.terms.items() {
            if self.is_true(term.lit) {
                sum = sum.saturating_add(term.coef);
            }
        }
        sum >= constraint.degree
    }
}

/// How many subsets there are of so many members.
pub(crate) fn subsets(members: usize) -> u32 {
    let mut subsets = 1u32;
    for _ in 0..members {
        subsets = subsets.saturating_mul(2);
    }
    subsets
}

/// The marks of one subset: the digits of its number in binary, the last one first.
pub(crate) fn marks_of(alloc: Global, number: u32, members: usize) -> Result<Vec<bool>, NoMemory> {
    let mut marks = Vec::new(alloc);
    let mut rest = number;
    for _ in 0..members {
        marks.push(rest % 2 == 1)?;
        rest /= 2;
    }
    Ok(marks)
}
