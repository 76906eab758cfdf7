ghost use Rattle.std.specs.Prelude.{◌↔◌, IsTrue};
ghost use Rattle.director_core.specs.Built.{IsBuilt};

use unit_model::Unit;

/// Whether the unit has no part beyond its name, its update and its provided capabilities.
pub(crate) fn is_built(unit: &Unit) -> bool
    ensures { IsTrue result ↔ IsBuilt unit.now }
{
    !unit.singleton
        && unit.filter.is_none()
        && unit.touchpoint.is_none()
        && unit.properties.is_empty()
        && unit.required.is_empty()
        && unit.artifacts.is_empty()
        && unit.phases.is_empty()
}
