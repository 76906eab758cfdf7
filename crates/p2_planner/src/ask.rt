ghost use Rattle.std.specs.Prelude.{◌<◌, ◌≤◌, All, length};
ghost use Rattle.unit_catalog.specs.Order.{AreMembers, units_at};
ghost use Rattle.p2_planner.specs.Selecting.{AllApply};

use ldap_filter::Env;
use osgi_version::List;
use unit_catalog::Catalog;

/// What a selection is made of.
#[derive(Clone, Copy)]
pub(crate) struct Ask<'c, 'e, 's, 'p> {
    pub(crate) catalog: &'c Catalog,
    pub(crate) env: &'e Env,
    /// The units that may be selected, by their numbers. The n-th has the variable n.
    pub(crate) slice: &'s List<u32>,
    /// The variables of the units that are tried first.
    pub(crate) preferred: &'p List<u32>,
    /// How many clauses a search may learn.
    pub(crate) budget: u32,
    ghost members: { AreMembers catalog.now slice.now },
    ghost apply: { AllApply env.now (units_at catalog.now slice.now) },
    ghost variables: { All (λ v. (0 < v) × (v ≤ length slice.now)) preferred.now },
    ghost some: { 0 < budget },
    ghost small: { budget ≤ 50000 },
}
