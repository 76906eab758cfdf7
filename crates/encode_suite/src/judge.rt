//! The definition of what may be installed together, computed slowly for one choice of members.

use crate::choice::Choice;
use ldap_filter::Env;
use unit_model::{Required, Unit, UnitName, applies, matches};

/// How many chosen members match.
fn count(choice: &Choice<'_>, required: &Required) -> u32 {
    let mut count = 0u32;
    for place in 0..choice.len() {
        if let Some(unit) = choice.unit(place) {
            if matches(required, unit) {
                count = count.saturating_add(1);
            }
        }
    }
    count
}

fn asks(required: &Required, env: &Env) -> bool {
    match &required.filter {
        Some(filter) => filter.truth(env),
        None => true,
    }
}

fn is_met(choice: &Choice<'_>, required: &Required, env: &Env) -> bool {
    let count = count(choice, required);
    !asks(required, env) || (required.min <= count && count <= required.max)
}

fn has_all_met(choice: &Choice<'_>, unit: &Unit, env: &Env) -> bool {
    for required in unit.required.items() {
        if !is_met(choice, required, env) {
            return false;
        }
    }
    true
}

/// Whether another chosen member has the id of this one, and one of the two is a singleton.
fn collides(choice: &Choice<'_>, place: usize, unit: &Unit) -> bool {
    for other in 0..choice.len() {
        if let Some(beside) = choice.unit(other) {
            if other != place
                && beside.name.id == unit.name.id
                && (beside.singleton || unit.singleton)
            {
                return true;
            }
        }
    }
    false
}

/// Whether nothing is wrong with the member at this place.
fn is_good(choice: &Choice<'_>, place: usize, env: &Env) -> bool {
    match choice.unit(place) {
        Some(unit) => {
            applies(unit, env) && has_all_met(choice, unit, env) && !collides(choice, place, unit)
        }
        None => true,
    }
}

fn is_named(choice: &Choice<'_>, name: &UnitName) -> bool {
    for place in 0..choice.len() {
        if let Some(unit) = choice.unit(place) {
            if unit.name == *name {
                return true;
            }
        }
    }
    false
}

fn has_roots(choice: &Choice<'_>, roots: &[UnitName]) -> bool {
    for root in roots {
        if !is_named(choice, root) {
            return false;
        }
    }
    true
}

/// Whether the chosen members are valid together for these roots.
pub(crate) fn is_valid(choice: &Choice<'_>, roots: &[UnitName], env: &Env) -> bool {
    for place in 0..choice.len() {
        if !is_good(choice, place, env) {
            return false;
        }
    }
    has_roots(choice, roots)
}
