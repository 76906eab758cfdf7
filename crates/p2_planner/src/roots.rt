//! Lists of roots.

ghost use Rattle.std.specs.Prelude.{◌≡◌, ◌++◌, IfOk, OnOk};
ghost use Rattle.unit_catalog.specs.Order.{by_id};
ghost use Rattle.p2_planner.specs.Roots.{above, below, with_name};

use osgi_version::{List, NoMemory, Twin};
use std::cmp::Ordering;
use unit_model::UnitName;

/// All strict and optional roots.
pub(crate) fn all_roots(
    strict: &List<UnitName>,
    optional: &List<UnitName>,
) -> Result<List<UnitName>, NoMemory>
    ensures { IfOk result (λ roots. roots ≡ strict.now ++ optional.now) }
{
    let mut roots = strict.copy()?;
    for root in optional.items() {
        roots.push(root.copy()?)?;
    }
    Ok(roots)
}

/// Rising names with this one in its place, where it stands once.
pub(crate) fn with_name(names: &List<UnitName>, name: &UnitName) -> Result<List<UnitName>, NoMemory>
    ensures { IfOk result (λ joined. joined ≡ with_name name.now names.now) }
{
    let mut joined = List::new(names.allocator());
    push_below(&mut joined, names, name)?;
    joined.push(name.copy()?)?;
    push_above(&mut joined, names, name)?;
    Ok(joined)
}

/// Those that come before the name go behind the list.
fn push_below(
    joined: &mut List<UnitName>,
    names: &List<UnitName>,
    name: &UnitName,
) -> Result<(), NoMemory>
    ensures { OnOk result (joined.new ≡ joined.old ++ below name.now names.now) }
{
    for other in names.items() {
        if by_id(other, name).is_lt() {
            joined.push(other.copy()?)?;
        }
    }
    Ok(())
}

/// Those that come behind the name go behind the list.
fn push_above(
    joined: &mut List<UnitName>,
    names: &List<UnitName>,
    name: &UnitName,
) -> Result<(), NoMemory>
    ensures { OnOk result (joined.new ≡ joined.old ++ above name.now names.now) }
{
    for other in names.items() {
        if by_id(other, name).is_gt() {
            joined.push(other.copy()?)?;
        }
    }
    Ok(())
}

fn by_id(name: &UnitName, other: &UnitName) -> Ordering
    ensures { result ≡ by_id name.now other.now }
{
    name.id
        .bytes()
        .cmp(other.id.bytes())
        .then(name.version.order(&other.version))
}
