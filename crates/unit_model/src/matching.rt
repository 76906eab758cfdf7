//! Looking at one unit, without memory.

ghost use Rattle.std.specs.Prelude.{◌≡◌, ◌↔◌, IsTrue};
ghost use Rattle.unit_model.specs.Applies.{filter_true};
ghost use Rattle.unit_model.specs.Matches.{Answers, Matches};

use crate::provided::Provided;
use crate::required::Required;
use crate::unit::Unit;
use ldap_filter::Env;

/// Whether some capability that the unit provides has the namespace and the name that the requirement asks for, and a
/// version in its range.
pub fn matches(required: &Required, unit: &Unit) -> bool
    ensures { IsTrue result ↔ Matches required.now unit.now }
{
    for provided in unit.provided.items() {
        if answers(required, provided) {
            return true;
        }
    }
    false
}

fn answers(required: &Required, provided: &Provided) -> bool
    ensures { IsTrue result ↔ Answers required.now provided.now }
{
    provided.namespace == required.namespace
        && provided.name == required.name
        && required.range.holds(&provided.version)
}

/// Whether the unit's filter is true in the environment, or missing.
pub fn applies(unit: &Unit, env: &Env) -> bool
    ensures { result ≡ filter_true env.now unit.now.filter }
{
    match &unit.filter {
        Some(filter) => filter.truth(env),
        None => true,
    }
}
