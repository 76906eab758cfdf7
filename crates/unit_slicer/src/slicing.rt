ghost use Rattle.std.specs.Prelude.{◌≡◌, Err, IfOk, IsErr};
ghost use Rattle.unit_catalog.specs.Order.{AreMembers};
ghost use Rattle.unit_slicer.specs.Members.{AreOfSlice, HasMoreThan};
ghost use Rattle.unit_slicer.specs.WholeCatalog.{HasParts, NeedsGreedily, KeepsValid};
ghost use Rattle.unit_slicer.specs.declared.fault.SliceFault.TheVariants as faults;

use crate::fault::SliceFault;
use crate::name_order::sort_by_name;
use crate::searching::find_all;
use crate::way::{Links, Way};
use ldap_filter::Env;
use osgi_version::List;
use unit_catalog::Catalog;
use unit_model::UnitName;

/// The numbers of the units in the slice, by id and then by version: the units that a selection for these roots may be
/// made of, which are the roots themselves and what greedy requirements lead to from them, where they apply. A root
/// that isn't in the catalog adds nothing. It takes as long as the requirements of the slice have providers, and then
/// sorts once.
pub fn slice(catalog: &Catalog, roots: &List<UnitName>, env: &Env) -> Result<List<u32>, SliceFault>
    ensures members { IfOk result (AreMembers catalog.now) }
    ensures slice { IfOk result (AreOfSlice catalog.now roots.now env.now) }

    // `TooLarge` comes exactly where there are over 8,192 of them.
    ensures large { result ≡ Err faults.TooLarge → HasMoreThan 8192 catalog.now roots.now env.now }
    ensures refused { HasMoreThan 8192 catalog.now roots.now env.now → IsErr result }

    // Where all needs are greedy, what is valid in the whole catalog has a valid part here.
    ensures parts { IfOk result (λ numbers. HasParts catalog.now roots.now env.now) }
    ensures whole_catalog { NeedsGreedily catalog.now roots.now env.now → KeepsValid catalog.now roots.now env.now }
{
    let way = Way {
        catalog,
        env,
        links: Links::Greedy,
        among: None,
    };
    let found = find_all(&way, roots)?;
    let mut numbers = found.into_numbers();
    sort_by_name(catalog, &mut numbers);
    Ok(List::from_vec(numbers))
}
