//! What is asked of a unit.

ghost use Rattle.std.specs.Prelude.{◌≡◌, ◌↔◌, IsTrue};
ghost use Rattle.unit_catalog.specs.Greatest.{IsOfId, Updates};
ghost use Rattle.unit_catalog.specs.Looking.{IsWanted};

use ldap_filter::Env;
use std::cmp::Ordering;
use unit_model::{Unit, UnitName, applies};

/// What is asked of a unit that applies.
#[derive(Clone, Copy)]
pub(crate) enum Wanted<'a> {
    /// To have this id.
    OfId(&'a [u8]),
    /// To update the unit of this name, and to be of a greater version.
    UpdaterOf(&'a UnitName),
}

impl Wanted<'_> {
    pub(crate) fn is(&self, unit: &Unit, env: &Env) -> bool
        ensures { IsTrue result ↔ IsWanted self.now env.now unit.now }
    {
        match self {
            Wanted::OfId(id) => is_of_id(unit, id, env),
            Wanted::UpdaterOf(name) => updates(unit, name, env),
        }
    }
}

fn is_of_id(unit: &Unit, id: &[u8], env: &Env) -> bool
    ensures { IsTrue result ↔ IsOfId id.now env.now unit.now }
{
    unit.name.id.bytes() == id && applies(unit, env)
}

fn updates(unit: &Unit, name: &UnitName, env: &Env) -> bool
    ensures { IsTrue result ↔ Updates name.now env.now unit.now }
{
    unit.update.id == name.id
        && unit.update.range.holds(&name.version)
        && name.version.order(&unit.name.version) == Ordering::Less
        && applies(unit, env)
}
