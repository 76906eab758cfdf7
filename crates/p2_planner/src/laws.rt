//! Laws of plans. Each is the contract of a function that does nothing.

ghost use Rattle.std.specs.Prelude.{ℕ, List};
ghost use Rattle.ldap_filter.specs.EnvPairs.{EnvPair};
ghost use Rattle.unit_model.specs.declared.name.UnitName.{UnitName};
ghost use Rattle.unit_model.specs.declared.unit.Unit.{Unit as Package};
ghost use Rattle.p2_planner.specs.Roots.{AreRising, with_name};
ghost use Rattle.p2_planner.specs.Settling.{AreSettled};
ghost use Rattle.p2_planner.specs.declared.planned.LeftOut.{LeftOut};

/// Where the strict roots rise, so do those of each problem: the strict ones, the optional ones that are kept, and the
/// one that is tried with them.
pub fn roots_rise()
    ensures { (members : List Package) (env : List EnvPair) (budget : ℕ) (strict optional roots : List UnitName) (left : List LeftOut) (root : UnitName) →
        AreRising strict → AreSettled members env budget strict optional roots left → AreRising (with_name root roots) }
{}
