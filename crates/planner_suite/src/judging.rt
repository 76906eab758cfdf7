//! Whether a selection holds what it is to hold.

use crate::push::push_word;
use crate::question::Question;
use crate::scene::Scene;
use osgi_version::{List, NoMemory, Twin};
use p2_planner::LeftOut;
use unit_catalog::Catalog;
use unit_judge::{are_in_order, judge};
use unit_model::{Judgement, Unit, UnitName};
use unit_slicer::{SliceFault, slice};

/// The units of these numbers.
fn units_of(catalog: &Catalog, members: &List<u32>) -> Result<List<Unit>, NoMemory> {
    let mut units = List::new(members.allocator());
    for member in members.items() {
        if let Some(unit) = catalog.unit(*member) {
            units.push(unit.copy()?)?;
        }
    }
    Ok(units)
}

fn is_left(left: &[LeftOut], root: &UnitName) -> bool {
    for out in left {
        if out.root == *root {
            return true;
        }
    }
    false
}

/// The strict roots, and behind them the optional ones that aren't left out.
fn kept(question: &Question, left: &[LeftOut]) -> Result<List<UnitName>, NoMemory> {
    let mut kept = question.roots.copy()?;
    for root in question.optional.items() {
        if !is_left(left, root) {
            kept.push(root.copy()?)?;
        }
    }
    Ok(kept)
}

fn is_good(scene: &Scene, members: &List<u32>, roots: &List<UnitName>) -> Result<bool, NoMemory> {
    let units = units_of(&scene.catalog, members)?;
    if !are_in_order(units.items()) {
        return Ok(false);
    }
    let none = List::new(units.allocator());
    let judgement = judge(&units, roots, &none, &scene.env)?;
    Ok(matches!(judgement, Judgement::Good))
}

fn contains(numbers: &[u32], number: u32) -> bool {
    for other in numbers {
        if *other == number {
            return true;
        }
    }
    false
}

fn are_among(members: &[u32], slice: &[u32]) -> bool {
    for member in members {
        if !contains(slice, *member) {
            return false;
        }
    }
    true
}

/// All roots, strict or optional.
fn all_roots(question: &Question) -> Result<List<UnitName>, NoMemory> {
    kept(question, &[])
}

fn is_of_slice(scene: &Scene, question: &Question, members: &List<u32>) -> Result<bool, NoMemory> {
    let roots = all_roots(question)?;
    match slice(&scene.catalog, &roots, &scene.env) {
        Ok(slice) => Ok(are_among(members.items(), slice.items())),
        Err(SliceFault::TooLarge) => Ok(false),
        Err(SliceFault::NoMemory) => Err(NoMemory),
    }
}

/// `good`, or what is wrong.
pub(crate) fn push_judged(
    line: &mut Vec<u8>,
    scene: &Scene,
    question: &Question,
    members: &List<u32>,
    left: &List<LeftOut>,
) -> Result<(), NoMemory> {
    let kept = kept(question, left.items())?;
    if !is_of_slice(scene, question, members)? {
        return push_word(line, "outside the slice");
    }
    if is_good(scene, members, &kept)? {
        push_word(line, "good")
    } else {
        push_word(line, "bad")
    }
}
