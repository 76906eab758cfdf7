//! Rows for each kind of thing that is asked.

ghost use Rattle.std.specs.Prelude.{◌≡◌, ◌≤◌, ◌++◌, ◌∷◌, [], true, false, length, map, OnOk, OnErr, IfOk, IfErr};
ghost use Rattle.pb_rows.specs.Normalising.{Adds, AreTooMany};
ghost use Rattle.pb_rows.specs.Rows.{term, root_row_of, need_rows, most_rows, apart_rows, beside};
ghost use Rattle.pb_rows.specs.declared.fault.EncodeFault.TheVariants as faults;

use crate::constraints::Constraints;
use crate::fault::EncodeFault;
use crate::label::label_of;
use osgi_version::{List, NoMemory, Text, Twin};
use pb_core::{Lit, Origin, SignedTerm};
use std::alloc::Global;
use unit_model::UnitName;

/// The literal that the variable is true, or that it is false, with a coefficient.
pub fn signed(coef: u32, positive: bool, variable: u32) -> SignedTerm
    ensures { result ≡ term coef positive variable }
{
    SignedTerm {
        coef: i64::from(coef),
        lit: Lit { variable, positive },
    }
}

/// Appends a literal of each variable, with the coefficient 1.
fn append(terms: &mut Vec<SignedTerm>, variables: &[u32], positive: bool) -> Result<(), NoMemory>
    ensures { OnOk result (terms.new.items ≡ terms.old.items ++ map (term 1 positive) variables.now) }
{
    for variable in variables {
        terms.push(signed(1, positive, *variable))?;
    }
    Ok(())
}

/// A literal that a variable is false, and then one of each of the others.
fn weighed(
    alloc: Global,
    coef: u32,
    variable: u32,
    others: &[u32],
    positive: bool,
) -> Result<List<SignedTerm>, NoMemory>
    ensures { IfOk result (λ terms. terms ≡ term coef false variable ∷ map (term 1 positive) others.now) }
{
    let mut terms = Vec::new(alloc);
    terms.push(signed(coef, false, variable))?;
    append(&mut terms, others, positive)?;
    Ok(List::from_vec(terms))
}

/// A literal that each of the singletons is false, and one that the other unit's variable is.
fn all_false(alloc: Global, singles: &[u32], other: u32) -> Result<List<SignedTerm>, NoMemory>
    ensures { IfOk result (λ terms. terms ≡ map (term 1 false) singles.now ++ term 1 false other ∷ []) }
{
    let mut terms = Vec::new(alloc);
    append(&mut terms, singles, false)?;
    terms.push(signed(1, false, other))?;
    Ok(List::from_vec(terms))
}

/// A literal of each variable.
fn literals(alloc: Global, variables: &[u32], positive: bool) -> Result<List<SignedTerm>, NoMemory>
    ensures { IfOk result (λ terms. terms ≡ map (term 1 positive) variables.now) }
{
    let mut terms = Vec::new(alloc);
    append(&mut terms, variables, positive)?;
    Ok(List::from_vec(terms))
}

/// Adds the row of a root: a variable of a member of its name is true. Without such a member the constraint has no
/// term, and nothing satisfies it. Nothing is added where the row is refused.
pub fn add_root(
    constraints: &mut Constraints,
    root: &UnitName,
    named: &[u32],
) -> Result<(), EncodeFault>
    requires { length named.now ≤ 8192 }
    ensures added { OnOk result (Adds (root_row_of root.now named.now ∷ []) constraints.old constraints.new) }
    ensures too_large { IfErr result (λ e. e ≡ faults.TooLarge →
        AreTooMany (root_row_of root.now named.now ∷ []) constraints.old) }
    ensures refused { OnErr result (constraints.new ≡ constraints.old) }
{
    let alloc = constraints.allocator();
    let terms = literals(alloc, named, true)?;
    let label = label_of(alloc, root)?;
    constraints.push(&terms, 1, Origin::Root(label))
}

/// Adds that at least `min` of the matching variables are true where the variable is. Nothing is added where the row
/// is refused.
pub fn add_need(
    constraints: &mut Constraints,
    variable: u32,
    row: u32,
    min: u32,
    matching: &[u32],
) -> Result<(), EncodeFault>
    requires { length matching.now ≤ 8192 }
    ensures added { OnOk result (Adds (need_rows variable row min matching.now) constraints.old constraints.new) }
    ensures too_large { IfErr result (λ e. e ≡ faults.TooLarge →
        AreTooMany (need_rows variable row min matching.now) constraints.old) }
    ensures refused { OnErr result (constraints.new ≡ constraints.old) }
{
    if min == 0 {
        return Ok(());
    }
    let terms = weighed(constraints.allocator(), min, variable, matching, true)?;
    constraints.push(&terms, i64::from(min), Origin::Need { variable, row })
}

/// Adds that at most `max` of the matching variables are true where the variable is. Nothing is added where the row is
/// refused.
pub fn add_most(
    constraints: &mut Constraints,
    variable: u32,
    row: u32,
    max: u32,
    matching: &[u32],
) -> Result<(), EncodeFault>
    requires { length matching.now ≤ 8192 }
    ensures added { OnOk result (Adds (most_rows variable row max matching.now) constraints.old constraints.new) }
    ensures too_large { IfErr result (λ e. e ≡ faults.TooLarge →
        AreTooMany (most_rows variable row max matching.now) constraints.old) }
    ensures refused { OnErr result (constraints.new ≡ constraints.old) }
{
    let count = matching.len() as u32;
    if count <= max {
        return Ok(());
    }
    let excess = count - max;
    let terms = weighed(constraints.allocator(), excess, variable, matching, false)?;
    constraints.push(&terms, i64::from(excess), Origin::Most { variable, row })
}

/// Adds that at most one of the singletons of an id is true, and none beside another unit of the id. Where a row is
/// refused, those before it may have been added.
pub fn add_apart(
    constraints: &mut Constraints,
    id: &Text,
    singles: &[u32],
    others: &[u32],
) -> Result<(), EncodeFault>
    requires { length singles.now ≤ 8192 }
    ensures added { OnOk result (Adds (apart_rows id.now singles.now others.now) constraints.old constraints.new) }
    ensures too_large { IfErr result (λ e. e ≡ faults.TooLarge →
        AreTooMany (apart_rows id.now singles.now others.now) constraints.old) }
{
    if singles.is_empty() {
        return Ok(());
    }
    if others.is_empty() {
        return add_alone(constraints, id, singles);
    }
    for other in others {
        add_beside(constraints, id, singles, *other)?;
    }
    Ok(())
}

fn add_alone(constraints: &mut Constraints, id: &Text, singles: &[u32]) -> Result<(), EncodeFault>
    requires { length singles.now ≤ 8192 }
    ensures added { OnOk result (Adds (apart_rows id.now singles.now []) constraints.old constraints.new) }
    ensures too_large { IfErr result (λ e. e ≡ faults.TooLarge →
        AreTooMany (apart_rows id.now singles.now []) constraints.old) }
{
    if singles.len() < 2 {
        return Ok(());
    }
    let terms = literals(constraints.allocator(), singles, false)?;
    constraints.push(&terms, singles.len() as i64 - 1, Origin::One(id.copy()?))
}

fn add_beside(
    constraints: &mut Constraints,
    id: &Text,
    singles: &[u32],
    other: u32,
) -> Result<(), EncodeFault>
    requires { length singles.now ≤ 8192 }
    ensures added { OnOk result (Adds (beside id.now singles.now other ∷ []) constraints.old constraints.new) }
    ensures too_large { IfErr result (λ e. e ≡ faults.TooLarge →
        AreTooMany (beside id.now singles.now other ∷ []) constraints.old) }
{
    let terms = all_false(constraints.allocator(), singles, other)?;
    constraints.push(&terms, singles.len() as i64, Origin::One(id.copy()?))
}
