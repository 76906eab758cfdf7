//! The rows of the members' requirements.

ghost use Rattle.std.specs.Prelude.{◌≡◌, ◌+◌, ◌≤◌, ◌++◌, length, OnOk, IfErr, IfOk};
ghost use Rattle.unit_model.specs.Applies.{filter_true};
ghost use Rattle.pb_rows.specs.Normalising.{Adds, AreTooMany};
ghost use Rattle.pb_rows.specs.Rows.{need_rows, most_rows, required_rows, unit_rows, requirement_rows};
ghost use Rattle.pb_rows.specs.declared.fault.EncodeFault.TheVariants as faults;
ghost use Rattle.pb_encode.specs.UnitsOf.{units_of};
ghost use Rattle.pb_encode.specs.Asking.{asked_rows};

use crate::members::Members;
use ldap_filter::Env;
use osgi_version::NoMemory;
use pb_rows::{Constraints, EncodeFault, add_most, add_need};
use unit_model::{Required, Unit};

/// A requirement of the unit with this variable, by its row from 1.
#[derive(Clone, Copy)]
struct Asked<'a> {
    variable: u32,
    row: u32,
    required: &'a Required,
}

/// Adds what the members require. Where a row is refused, those before it may have been added.
pub(crate) fn add_requirements(
    constraints: &mut Constraints,
    members: &Members<'_>,
    env: &Env,
) -> Result<(), EncodeFault>
    ensures added { OnOk result (Adds (requirement_rows (units_of members.now) env.now) constraints.old constraints.new) }
    ensures too_large { IfErr result (λ e. e ≡ faults.TooLarge →
        AreTooMany (requirement_rows (units_of members.now) env.now) constraints.old) }
{
    for place in 0..members.len() {
        add_unit(
            constraints,
            members,
            env,
            place as u32 + 1,
            members.unit(place),
        )?;
    }
    Ok(())
}

fn add_unit(
    constraints: &mut Constraints,
    members: &Members<'_>,
    env: &Env,
    variable: u32,
    unit: &Unit,
) -> Result<(), EncodeFault>
    ensures added { OnOk result
        (Adds (unit_rows (units_of members.now) env.now (variable, unit.now)) constraints.old constraints.new) }
    ensures too_large { IfErr result (λ e. e ≡ faults.TooLarge →
        AreTooMany (unit_rows (units_of members.now) env.now (variable, unit.now)) constraints.old) }
{
    for (place, required) in unit.required.items().iter().enumerate() {
        let row = row_of(place)?;
        add_asked(
            constraints,
            members,
            env,
            &Asked {
                variable,
                row,
                required,
            },
        )?;
    }
    Ok(())
}

/// The number of a row, from 1. Memory is wanting where it doesn't fit.
fn row_of(place: usize) -> Result<u32, NoMemory>
    ensures { IfOk result (λ row. row ≡ place + 1) }
{
    match u32::try_from(place) {
        Ok(before) if before < u32::MAX => Ok(before + 1),
        _ => Err(NoMemory),
    }
}

/// Adds what one requirement asks for. Where its filter is false, that is nothing.
fn add_asked(
    constraints: &mut Constraints,
    members: &Members<'_>,
    env: &Env,
    asked: &Asked<'_>,
) -> Result<(), EncodeFault>
    ensures added { OnOk result (Adds (asked_rows (units_of members.now) env.now asked.now) constraints.old constraints.new) }
    ensures too_large { IfErr result (λ e. e ≡ faults.TooLarge →
        AreTooMany (asked_rows (units_of members.now) env.now asked.now) constraints.old) }
{
    if !is_asked(asked.required, env) {
        return Ok(());
    }
    let matching = members.matching(asked.required)?;
    add_bounds(constraints, asked, &matching)
}

/// Whether the requirement's filter is true, or missing.
fn is_asked(required: &Required, env: &Env) -> bool
    ensures { result ≡ filter_true env.now required.now.filter }
{
    match &required.filter {
        Some(filter) => filter.truth(env),
        None => true,
    }
}

/// Adds that at least `min` and at most `max` of the matching variables are true where the unit's variable is.
fn add_bounds(
    constraints: &mut Constraints,
    asked: &Asked<'_>,
    matching: &[u32],
) -> Result<(), EncodeFault>
    requires { length matching.now ≤ 8192 }
    ensures added { OnOk result (Adds
        (need_rows asked.now.variable asked.now.row asked.now.required.now.min matching.now
        ++ most_rows asked.now.variable asked.now.row asked.now.required.now.max matching.now) constraints.old constraints.new) }
    ensures too_large { IfErr result (λ e. e ≡ faults.TooLarge → AreTooMany
        (need_rows asked.now.variable asked.now.row asked.now.required.now.min matching.now
        ++ most_rows asked.now.variable asked.now.row asked.now.required.now.max matching.now) constraints.old) }
{
    let Asked {
        variable,
        row,
        required,
    } = asked;
    add_need(constraints, *variable, *row, required.min, matching)?;
    add_most(constraints, *variable, *row, required.max, matching)
}
