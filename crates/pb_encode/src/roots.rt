//! The rows of the roots.

ghost use Rattle.std.specs.Prelude.{◌≡◌, ◌∷◌, [], OnOk, IfErr};
ghost use Rattle.pb_rows.specs.Normalising.{Adds, AreTooMany};
ghost use Rattle.pb_rows.specs.Rows.{root_row, root_rows};
ghost use Rattle.pb_rows.specs.declared.fault.EncodeFault.TheVariants as faults;
ghost use Rattle.pb_encode.specs.UnitsOf.{units_of};

use crate::members::Members;
use pb_rows::{Constraints, EncodeFault, add_root};
use unit_model::UnitName;

/// Adds that each root is selected. Where a row is refused, those before it may have been added.
pub(crate) fn add_roots(
    constraints: &mut Constraints,
    members: &Members<'_>,
    roots: &[UnitName],
) -> Result<(), EncodeFault>
    ensures added { OnOk result (Adds (root_rows (units_of members.now) roots.now) constraints.old constraints.new) }
    ensures too_large { IfErr result (λ e. e ≡ faults.TooLarge →
        AreTooMany (root_rows (units_of members.now) roots.now) constraints.old) }
{
    for root in roots {
        add_root_of(constraints, members, root)?;
    }
    Ok(())
}

fn add_root_of(
    constraints: &mut Constraints,
    members: &Members<'_>,
    root: &UnitName,
) -> Result<(), EncodeFault>
    ensures added { OnOk result (Adds (root_row (units_of members.now) root.now ∷ []) constraints.old constraints.new) }
    ensures too_large { IfErr result (λ e. e ≡ faults.TooLarge →
        AreTooMany (root_row (units_of members.now) root.now ∷ []) constraints.old) }
{
    match members.named(root) {
        Some(variable) => add_root(constraints, root, &[variable]),
        None => add_root(constraints, root, &[]),
    }
}
