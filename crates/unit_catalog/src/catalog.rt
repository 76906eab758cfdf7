ghost use Rattle.std.specs.Prelude.{◌≡◌, ◌⊎◌, ◌<◌, ◌≤◌, ◌++◌, [], ◌∷◌, true, false, length, if◌then◌else◌, Ok, Err, IfOk, OnErr, Contains, slice_get};
ghost use Rattle.std.specs.Option.{option_copied};
ghost use Rattle.std.specs.Result.{IsOkAnd};
ghost use Rattle.unit_model.specs.Valid.{names};
ghost use Rattle.unit_catalog.specs.Greatest.{IsGreatest, IsOfId, Updates};
ghost use Rattle.unit_catalog.specs.Named.{IsNew, HasDistinctNames, IsNumberOf};
ghost use Rattle.unit_catalog.specs.Providers.{AreProviders};
ghost use Rattle.unit_catalog.specs.declared.fault.CatalogFault.TheVariants as faults;

use crate::fault::CatalogFault;
use crate::indexes::{Indexes, append};
use crate::lookups::{greatest_of, number_of, providers_of, updater_of};
use ldap_filter::Env;
use osgi_version::{List, NoMemory};
use std::alloc::Global;
use std::marker::Model;
use unit_model::{Required, Unit, UnitName};

const MOST_UNITS: usize = 65_536;

/// At most 65,536 units with distinct names, in the order in which they were added. A unit's number is its place, from
/// 0. A look-up takes about as long as there are units at what it asks for: versions of an id, updates of an id,
/// providers of a capability. It goes by a hash with a fixed seed, so names that were chosen to have one hash make it
/// look at all units that have it, 65,536 at most.
#[derive(Drop)]
pub struct Catalog {
    units: Vec<Unit>,
    indexes: Indexes,
}

impl Model for Catalog {
    ghost use Rattle.std.specs.Prelude.{List as Items};
    ghost use Rattle.unit_model.specs.declared.unit.Unit.{Unit as Package};
    ghost use Rattle.unit_catalog.specs.Indexed.{IsSound};
    ghost use Rattle.std.specs.Coded.{coded_list};
    ghost use Rattle.unit_model.specs.contracts.unit.Unit.{the_row as unit_row};

    ghost Value = { Items Package };

    ghost coded = { coded_list unit_row.coded };

    ghost view = { λ a. a.units.items };

    ghost invariant = { λ a. IsSound a.units.items a.indexes };
}

impl Catalog {
    /// A catalog without units.
    pub fn new(alloc: Global) -> Result<Catalog, NoMemory>
        ensures { IsOkAnd result (λ catalog. catalog ≡ []) }
    {
        Ok(Catalog {
            units: Vec::new(alloc),
            indexes: Indexes::new(alloc),
        })
    }

    /// How many units there are.
    pub fn len(&self) -> u32
        ensures value { result ≡ length self.now }
        ensures few { result ≤ 65536 }
        ensures distinct { HasDistinctNames self.now }
    {
        self.units.len() as u32
    }

    /// The unit of this number. None exactly where the units end before it.
    pub fn unit(&self, number: u32) -> Option<&Unit>
        ensures { option_copied result ≡ slice_get self.now number }
    {
        self.units.get(number as usize)
    }

    /// The number of the unit of this name. None exactly where no unit has it.
    pub fn find(&self, name: &UnitName) -> Option<u32>
        ensures found { IsNumberOf self.now name.now result }
        ensures distinct { HasDistinctNames self.now }
    {
        number_of(self.units.as_slice(), &self.indexes, name)
    }

    /// Adds the unit behind the others. False where a unit has its name already; then nothing changes, and nothing
    /// does where the unit is refused.
    pub fn add(&mut self, unit: Unit) -> Result<bool, CatalogFault>
        ensures new { IfOk result (λ new. self.new ≡ (if new then self.old ++ unit ∷ [] else self.old)) }
        ensures refused { OnErr result (self.new ≡ self.old) }

        // The first of a name wins, and this needs no memory.
        ensures named { Contains (names self.old) unit.name → result ≡ Ok false }
        ensures full { IsNew self.old unit.name → length self.old ≡ 65536 → result ≡ Err faults.Full }
        ensures room { IsNew self.old unit.name → length self.old < 65536 →
            (result ≡ Ok true) ⊎ (result ≡ Err faults.NoMemory) }
    {
        if self.find(&unit.name).is_some() {
            drop(unit);
            return Ok(false);
        }
        if self.units.len() == MOST_UNITS {
            drop(unit);
            return Err(CatalogFault::Full);
        }
        append(&mut self.units, &mut self.indexes, unit)?;
        Ok(true)
    }

    /// The unit of this id that applies and has the greatest version. None exactly where no unit of it applies.
    pub fn greatest(&self, id: &[u8], env: &Env) -> Option<u32>
        ensures { IsGreatest self.now (IsOfId id.now env.now) result }
    {
        greatest_of(self.units.as_slice(), &self.indexes, id, env)
    }

    /// The unit that updates the one of this name: of those that apply, update its id and its version and have a
    /// greater one, the greatest by version and then by id. None exactly where there is none.
    pub fn updater(&self, of: &UnitName, env: &Env) -> Option<u32>
        ensures { IsGreatest self.now (Updates of.now env.now) result }
    {
        updater_of(self.units.as_slice(), &self.indexes, of, env)
    }

    /// The numbers of all units that match the requirement, rising.
    pub fn providers(&self, required: &Required) -> Result<List<u32>, NoMemory>
        ensures { IfOk result (AreProviders self.now required.now) }
    {
        let alloc = *self.units.allocator();
        let found = providers_of(
            alloc,
            self.units.as_slice(),
            &self.indexes.provided,
            required,
        )?;
        Ok(List::from_vec(found))
    }
}
