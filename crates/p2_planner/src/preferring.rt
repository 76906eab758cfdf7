ghost use Rattle.std.specs.Prelude.{IfOk};
ghost use Rattle.unit_catalog.specs.Order.{AreMembers};
ghost use Rattle.pb_encode.specs.UnitsOf.{numbers_of};
ghost use Rattle.p2_planner.specs.Preferring.{ArePreferred};

use osgi_version::{List, NoMemory};
use pb_encode::Members;
use unit_catalog::Catalog;

/// The variables of those of the slice's units that are installed.
pub(crate) fn preferred(
    catalog: &Catalog,
    slice: &List<u32>,
    installed: &List<u32>,
) -> Result<List<u32>, NoMemory>
    requires { AreMembers catalog.now slice.now }
    ensures { IfOk result (ArePreferred slice.now installed.now) }
{
    let members = Members::new(catalog, slice)?;
    let preferred = variables_of(&members, installed)?;
    Ok(preferred)
}

fn variables_of(members: &Members<'_>, installed: &List<u32>) -> Result<List<u32>, NoMemory>
    ensures { IfOk result (ArePreferred (numbers_of members.now) installed.now) }
{
    let mut found = List::new(members.allocator());
    for number in installed.items() {
        if let Some(variable) = members.variable(*number) {
            found.push(variable)?;
        }
    }
    Ok(found)
}
