//! Look-ups by an index.

ghost use Rattle.std.specs.Prelude.{IfOk};
ghost use Rattle.unit_catalog.specs.Greatest.{IsGreatest, IsOfId, Updates};
ghost use Rattle.unit_catalog.specs.Indexed.{AreIndexed};
ghost use Rattle.unit_catalog.specs.Led.{AreLedTo};
ghost use Rattle.unit_catalog.specs.Named.{IsNumberOf};
ghost use Rattle.unit_catalog.specs.Providers.{AreProviders};

use crate::index::Index;
use crate::indexes::Indexes;
use crate::keys::{name_key, pair_key, text_key};
use crate::looking::{greatest, matching, named};
use crate::wanted::Wanted;
use ldap_filter::Env;
use std::alloc::{AllocError, Global};
use unit_model::{Required, Unit, UnitName};

pub(crate) fn number_of(units: &[Unit], indexes: &Indexes, name: &UnitName) -> Option<u32>
    requires { AreIndexed units.now indexes.now }
    ensures { IsNumberOf units.now name.now result }
{
    let numbers = indexes.names.numbers(name_key(name));
    named(units, numbers, name)
}

pub(crate) fn greatest_of(units: &[Unit], indexes: &Indexes, id: &[u8], env: &Env) -> Option<u32>
    requires { AreIndexed units.now indexes.now }
    ensures { IsGreatest units.now (IsOfId id.now env.now) result }
{
    let numbers = indexes.ids.numbers(text_key(id));
    greatest(units, numbers, &Wanted::OfId(id), env)
}

pub(crate) fn updater_of(
    units: &[Unit],
    indexes: &Indexes,
    name: &UnitName,
    env: &Env,
) -> Option<u32>
    requires { AreIndexed units.now indexes.now }
    ensures { IsGreatest units.now (Updates name.now env.now) result }
{
    let numbers = indexes.updates.numbers(text_key(name.id.bytes()));
    greatest(units, numbers, &Wanted::UpdaterOf(name), env)
}

pub(crate) fn providers_of(
    alloc: Global,
    units: &[Unit],
    provided: &Index,
    required: &Required,
) -> Result<Vec<u32>, AllocError>
    requires { AreLedTo units.now provided.now }
    ensures { IfOk result (λ found. AreProviders units.now required.now found.items) }
{
    let key = pair_key(required.namespace.bytes(), required.name.bytes());
    let numbers = provided.numbers(key);
    let found = matching(alloc, units, numbers, required)?;
    Ok(found)
}
