//! The rows of ids.

ghost use Rattle.std.specs.Prelude.{◌≡◌, ◌↔◌, ◌<◌, ◌≤◌, length, IsTrue, OnOk, IfErr, IfOk, vec_len};
ghost use Rattle.pb_rows.specs.Members.{variables};
ghost use Rattle.pb_rows.specs.Normalising.{Adds, AreTooMany};
ghost use Rattle.pb_rows.specs.Rows.{id_rows, singleton_rows};
ghost use Rattle.pb_rows.specs.declared.fault.EncodeFault.TheVariants as faults;
ghost use Rattle.pb_encode.specs.Places.{IsRun, IsFirstOfId, id_at, of_id};
ghost use Rattle.pb_encode.specs.UnitsOf.{units_of};

use crate::members::Members;
use osgi_version::NoMemory;
use pb_rows::{Constraints, EncodeFault, add_apart};

/// Adds that no two members of one id are selected where one is a singleton. Where a row is refused, those before it
/// may have been added.
pub(crate) fn add_singletons(
    constraints: &mut Constraints,
    members: &Members<'_>,
) -> Result<(), EncodeFault>
    ensures added { OnOk result (Adds (singleton_rows (units_of members.now)) constraints.old constraints.new) }
    ensures too_large { IfErr result (λ e. e ≡ faults.TooLarge →
        AreTooMany (singleton_rows (units_of members.now)) constraints.old) }
{
    let mut from = 0;
    while from < members.len() {
        let to = end_of_id(members, from);
        add_id(constraints, members, from, to)?;
        from = to;
    }
    Ok(())
}

/// Where the members end that have the id of the one at this place.
fn end_of_id(members: &Members<'_>, from: usize) -> usize
    requires within { from < length (units_of members.now) }
    requires first { IsFirstOfId (units_of members.now) from }
    ensures run { IsRun (units_of members.now) from result }
    ensures next { IsFirstOfId (units_of members.now) result }
{
    for to in from + 1..members.len() {
        if !has_same_id(members, from, to) {
            return to;
        }
    }
    members.len()
}

/// Whether the members at these places have one id.
fn has_same_id(members: &Members<'_>, place: usize, other: usize) -> bool
    requires place { place < length (units_of members.now) }
    requires other { other < length (units_of members.now) }
    ensures { IsTrue result ↔ (id_at (units_of members.now) place ≡ id_at (units_of members.now) other) }
{
    members.unit(place).name.id == members.unit(other).name.id
}

/// Adds the rows of the id that the members from one place up to another have.
fn add_id(
    constraints: &mut Constraints,
    members: &Members<'_>,
    from: usize,
    to: usize,
) -> Result<(), EncodeFault>
    requires { IsRun (units_of members.now) from to }
    ensures added { OnOk result
        (Adds (id_rows (units_of members.now) (id_at (units_of members.now) from)) constraints.old constraints.new) }
    ensures too_large { IfErr result (λ e. e ≡ faults.TooLarge →
        AreTooMany (id_rows (units_of members.now) (id_at (units_of members.now) from)) constraints.old) }
{
    let singles = variables_of_id(members, from, to, true)?;
    let others = variables_of_id(members, from, to, false)?;
    add_apart(constraints, &members.unit(from).name.id, &singles, &others)
}

/// The variables of the members from one place up to another that are singletons, or of those that are none.
fn variables_of_id(
    members: &Members<'_>,
    from: usize,
    to: usize,
    singleton: bool,
) -> Result<Vec<u32>, NoMemory>
    requires { IsRun (units_of members.now) from to }
    ensures value { IfOk result (λ found. found.items ≡
        variables (of_id (id_at (units_of members.now) from) singleton) (units_of members.now)) }
    ensures few { IfOk result (λ found. vec_len found ≤ 8192) }
{
    let mut found = Vec::new(members.allocator());
    for place in from..to {
        if members.unit(place).singleton == singleton {
            found.push(place as u32 + 1)?;
        }
    }
    Ok(found)
}
