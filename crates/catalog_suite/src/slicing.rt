//! What roots lead to.

use crate::looking::name;
use crate::push::{push_found, push_numbers, push_word};
use crate::scene::Scene;
use osgi_version::{List, NoMemory};
use std::alloc::Global;
use suite_row::Row;
use unit_model::UnitName;
use unit_slicer::{SliceFault, slice};

/// The names that a row gives behind its word, an id and a version each. A version that is none gives no name.
fn roots(alloc: Global, row: &Row) -> Result<List<UnitName>, NoMemory> {
    let mut roots = List::new(alloc);
    for place in (1..row.len()).step_by(2) {
        if let Some(root) = name(alloc, row.field(place), row.field(place + 1))? {
            roots.push(root)?;
        }
    }
    Ok(roots)
}

/// `slice ID VERSION ..`: the numbers of the units in the slice of these roots.
pub(crate) fn push_slice(
    line: &mut Vec<u8>,
    alloc: Global,
    scene: &Scene,
    row: &Row,
) -> Result<(), NoMemory> {
    let roots = roots(alloc, row)?;
    match slice(&scene.catalog, &roots, &scene.env) {
        Ok(numbers) => push_members(line, &numbers),
        Err(SliceFault::TooLarge) => push_word(line, "too large"),
        Err(SliceFault::NoMemory) => Err(NoMemory),
    }
}

fn push_members(line: &mut Vec<u8>, numbers: &List<u32>) -> Result<(), NoMemory> {
    push_word(line, "slice")?;
    push_numbers(line, numbers.items())
}

/// `size ID VERSION ..`: how many units are in the slice of these roots.
pub(crate) fn push_size(
    line: &mut Vec<u8>,
    alloc: Global,
    scene: &Scene,
    row: &Row,
) -> Result<(), NoMemory> {
    let roots = roots(alloc, row)?;
    match slice(&scene.catalog, &roots, &scene.env) {
        Ok(numbers) => push_found(line, Some(numbers.len() as u32)),
        Err(SliceFault::TooLarge) => push_word(line, "too large"),
        Err(SliceFault::NoMemory) => Err(NoMemory),
    }
}
