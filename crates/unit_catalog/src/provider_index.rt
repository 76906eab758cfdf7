ghost use Rattle.std.specs.Prelude.{◌≡◌, IfOk};
ghost use Rattle.unit_catalog.specs.Led.{AreLedTo};
ghost use Rattle.unit_catalog.specs.Providers.{AreProviders};

use crate::index::Index;
use crate::indexes::enter_provided;
use crate::lookups::providers_of;
use osgi_version::{List, NoMemory};
use std::alloc::Global;
use std::marker::Model;
use unit_model::{Required, Unit};

/// Units that stay where they are, with an index of what they provide. A unit's number is its place, from 0. As in a
/// catalog, a look-up takes about as long as there are units that provide what it asks for.
#[derive(Drop)]
pub struct ProviderIndex<'a> {
    units: &'a [Unit],
    provided: Index,
}

impl<'a> Model for ProviderIndex<'a> {
    ghost use Rattle.std.specs.Prelude.{List as Items};
    ghost use Rattle.unit_model.specs.declared.unit.Unit.{Unit as Package};
    ghost use Rattle.unit_catalog.specs.Led.{AreLedTo};
    ghost use Rattle.std.specs.Coded.{coded_list};
    ghost use Rattle.unit_model.specs.contracts.unit.Unit.{the_row as unit_row};

    ghost Value = { Items Package };

    ghost coded = { coded_list unit_row.coded };

    ghost view = { λ a. a.units.now };

    ghost invariant = { λ a. AreLedTo a.units.now a.provided };
}

impl<'a> ProviderIndex<'a> {
    /// Four billion units and more are want of memory.
    pub fn new(alloc: Global, units: &'a [Unit]) -> Result<ProviderIndex<'a>, NoMemory>
        ensures { IfOk result (λ index. index ≡ units.now) }
    {
        let provided = provided_by(alloc, units)?;
        Ok(ProviderIndex { units, provided })
    }

    pub fn units(&self) -> &'a [Unit]
        ensures { result.now ≡ self.now }
    {
        self.units
    }

    /// The numbers of all units that match the requirement, rising.
    pub fn providers(&self, alloc: Global, required: &Required) -> Result<List<u32>, NoMemory>
        ensures { IfOk result (AreProviders self.now required.now) }
    {
        let found = providers_of(alloc, self.units, &self.provided, required)?;
        Ok(List::from_vec(found))
    }
}

fn provided_by(alloc: Global, units: &[Unit]) -> Result<Index, NoMemory>
    ensures { IfOk result (AreLedTo units.now) }
{
    if units.len() > u32::MAX as usize {
        return Err(NoMemory);
    }
    let mut index = Index::new(alloc);
    for (place, unit) in units.iter().enumerate() {
        enter_provided(alloc, &mut index, unit.provided.items(), place as u32)?;
    }
    Ok(index)
}
