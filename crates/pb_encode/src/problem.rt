ghost use Rattle.std.specs.Prelude.{◌≡◌, ◌↔◌, ◌≤◌, ℕ, Bool, IsTrue, length, map, All, OnOk, IfOk, IfErr};
ghost use Rattle.pb_core.specs.AtLeast.{at_least};
ghost use Rattle.pb_core.specs.Normal.{IsNormalOver};
ghost use Rattle.pb_core.specs.Satisfied.{SatisfiesAll};
ghost use Rattle.unit_model.specs.Applies.{filter_true};
ghost use Rattle.unit_model.specs.Valid.{IsValid};
ghost use Rattle.pb_rows.specs.Members.{selected};
ghost use Rattle.pb_rows.specs.Normalising.{Adds, AreTooMany, AreNormalised, HasMoreTerms, term_count};
ghost use Rattle.pb_rows.specs.Rows.{label, rows};
ghost use Rattle.pb_rows.specs.declared.fault.EncodeFault.TheVariants as faults;
ghost use Rattle.unit_catalog.specs.Order.{AreMembers, units_at};
ghost use Rattle.pb_encode.specs.IsProblem.{IsProblem};
ghost use Rattle.pb_encode.specs.UnitsOf.{units_of};

use crate::members::Members;
use crate::requirements::add_requirements;
use crate::roots::add_roots;
use crate::singletons::add_singletons;
use ldap_filter::Env;
use osgi_version::{List, NoMemory, Text};
use pb_core::Problem;
use pb_rows::{Constraints, EncodeFault, label_of};
use unit_catalog::Catalog;
use unit_model::UnitName;

/// The problem to select members of a catalog, given by their numbers, for roots in an environment. Takes as much time
/// and memory as the catalog has units and the problem terms, and time for the look-ups of what is required.
pub fn encode(
    catalog: &Catalog,
    members: &List<u32>,
    roots: &List<UnitName>,
    env: &Env,
) -> Result<Problem, EncodeFault>
    requires { AreMembers catalog.now members.now }
    ensures problem { IfOk result (IsProblem (units_at catalog.now members.now) roots.now env.now) }
    ensures few { IfOk result (λ problem. term_count problem.constraints ≤ 4000000) }
    ensures normal { IfOk result (λ problem. All (λ c. IsNormalOver (length members.now) (at_least c)) problem.constraints) }

    // A set of members that apply is valid exactly where the assignment that selects it satisfies the problem.
    ensures valid { IfOk result (λ problem. (full : ℕ → Bool) →
        All (λ u. IsTrue (filter_true env.now u.filter)) (units_at catalog.now members.now) →
        SatisfiesAll full (map at_least problem.constraints)
        ↔ IsValid (selected full (units_at catalog.now members.now)) roots.now env.now) }
    ensures too_large { IfErr result (λ e. e ≡ faults.TooLarge →
        HasMoreTerms 4000000 (rows (units_at catalog.now members.now) roots.now env.now)) }
    ensures not_too_large { IfOk result (λ problem.
        ¬ (HasMoreTerms 4000000 (rows (units_at catalog.now members.now) roots.now env.now))) }
{
    let members = Members::new(catalog, members)?;
    let labels = labels_of(&members)?;
    let constraints = constraints_of(&members, roots, env)?;
    Ok(Problem {
        labels,
        constraints: constraints.into_list(),
    })
}

/// The labels of the members' variables.
pub fn labels_of(members: &Members<'_>) -> Result<List<Text>, NoMemory>
    ensures { IfOk result (λ labels. labels ≡ map (λ u. label u.name) (units_of members.now)) }
{
    let mut labels = List::new(members.allocator());
    for place in 0..members.len() {
        labels.push(label_of(members.allocator(), &members.unit(place).name)?)?;
    }
    Ok(labels)
}

/// The constraints of the problem. Others may be added behind them.
pub fn constraints_of(
    members: &Members<'_>,
    roots: &List<UnitName>,
    env: &Env,
) -> Result<Constraints, EncodeFault>
    ensures ok { IfOk result (λ constraints. AreNormalised (rows (units_of members.now) roots.now env.now) constraints) }
    ensures too_large { IfErr result (λ e. e ≡ faults.TooLarge →
        HasMoreTerms 4000000 (rows (units_of members.now) roots.now env.now)) }
{
    let mut constraints = Constraints::new(members.allocator());
    add_rows(&mut constraints, members, roots.items(), env)?;
    Ok(constraints)
}

fn add_rows(
    constraints: &mut Constraints,
    members: &Members<'_>,
    roots: &[UnitName],
    env: &Env,
) -> Result<(), EncodeFault>
    ensures added { OnOk result (Adds (rows (units_of members.now) roots.now env.now) constraints.old constraints.new) }
    ensures too_large { IfErr result (λ e. e ≡ faults.TooLarge →
        AreTooMany (rows (units_of members.now) roots.now env.now) constraints.old) }
{
    add_roots(constraints, members, roots)?;
    add_requirements(constraints, members, env)?;
    add_singletons(constraints, members)
}
