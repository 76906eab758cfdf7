//! The indexes of a catalog.

ghost use Rattle.std.specs.Prelude.{◌≡◌, ◌+◌, ◌≤◌, ◌++◌, [], ◌∷◌, length, OnOk, OnErr};
ghost use Rattle.unit_catalog.specs.Indexed.{AllRise, LeadTo, AllKeep, AllKeepBelow, AreIndexed};
ghost use Rattle.unit_catalog.specs.Listed.{AreRising, Keeps, KeepsBelow};
ghost use Rattle.unit_catalog.specs.Entered.{AreEntered};

use crate::index::Index;
use crate::keys::{name_key, pair_key, text_key};
use osgi_version::NoMemory;
use std::alloc::Global;
use unit_model::{Provided, Unit};

/// The numbers of units by their names, their ids, the ids that they update and the capabilities that they provide.
#[derive(Drop)]
pub(crate) struct Indexes {
    pub(crate) names: Index,
    pub(crate) ids: Index,
    pub(crate) updates: Index,
    pub(crate) provided: Index,
}

impl Indexes {
    pub(crate) fn new(alloc: Global) -> Indexes
        ensures { AreIndexed [] result }
    {
        let names = Index::new(alloc);
        let ids = Index::new(alloc);
        let updates = Index::new(alloc);
        let provided = Index::new(alloc);
        Indexes {
            names,
            ids,
            updates,
            provided,
        }
    }

    /// Lets all that the unit is looked up by lead to the number.
    pub(crate) fn enter(&mut self, alloc: Global, unit: &Unit, number: u32) -> Result<(), NoMemory>
        requires { AllRise (number + 1) self.old }
        ensures lead { OnOk result (LeadTo self.new unit.now number) }
        ensures rise { AllRise (number + 1) self.new }
        ensures kept { AllKeep self.old self.new }
    {
        self.names.put(alloc, name_key(&unit.name), number)?;
        self.ids.put(alloc, text_key(unit.name.id.bytes()), number)?;
        self.updates
            .put(alloc, text_key(unit.update.id.bytes()), number)?;
        enter_provided(alloc, &mut self.provided, unit.provided.items(), number)?;
        Ok(())
    }

    /// Takes out what leads from the unit to the number.
    pub(crate) fn take_out(&mut self, unit: &Unit, number: u32)
        requires { AllRise (number + 1) self.old }
        ensures rise { AllRise (number + 1) self.new }
        ensures kept { AllKeepBelow number self.old self.new }
    {
        self.names.take_out(name_key(&unit.name), number);
        self.ids.take_out(text_key(unit.name.id.bytes()), number);
        self.updates
            .take_out(text_key(unit.update.id.bytes()), number);
        take_out_provided(&mut self.provided, unit.provided.items(), number);
    }
}

/// Lets each of the capabilities lead to the number.
pub(crate) fn enter_provided(
    alloc: Global,
    index: &mut Index,
    provided: &[Provided],
    number: u32,
) -> Result<(), NoMemory>
    requires { AreRising (number + 1) index.old }
    ensures has { OnOk result (AreEntered index.new provided.now number) }
    ensures rising { AreRising (number + 1) index.new }
    ensures kept { Keeps index.old index.new }
{
    for capability in provided {
        let key = pair_key(capability.namespace.bytes(), capability.name.bytes());
        index.put(alloc, key, number)?;
    }
    Ok(())
}

fn take_out_provided(index: &mut Index, provided: &[Provided], number: u32)
    requires { AreRising (number + 1) index.old }
    ensures rising { AreRising (number + 1) index.new }
    ensures kept { KeepsBelow number index.old index.new }
{
    for capability in provided {
        let key = pair_key(capability.namespace.bytes(), capability.name.bytes());
        index.take_out(key, number);
    }
}

/// Appends the unit. An `Err` changes no unit, and takes out of the indexes what it entered.
pub(crate) fn append(
    units: &mut Vec<Unit>,
    indexes: &mut Indexes,
    unit: Unit,
) -> Result<(), NoMemory>
    requires indexed { AreIndexed units.old.items indexes.old }
    requires few { length units.old.items ≤ 65535 }
    ensures ok { OnOk result (units.new.items ≡ units.old.items ++ unit ∷ []) }
    ensures err { OnErr result (units.new.items ≡ units.old.items) }
    ensures indexed { AreIndexed units.new.items indexes.new }
{
    let alloc = *units.allocator();
    let Ok(()) = units.reserve(1) else {
        drop(unit);
        return Err(NoMemory);
    };
    let number = units.len() as u32;
    if indexes.enter(alloc, &unit, number).is_err() {
        indexes.take_out(&unit, number);
        drop(unit);
        return Err(NoMemory);
    }
    units.push_reserved(unit);
    Ok(())
}
