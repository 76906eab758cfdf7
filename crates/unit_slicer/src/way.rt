//! Where a search for units may go.

ghost use Rattle.std.specs.Prelude.{◌↔◌, IsTrue};
ghost use Rattle.unit_slicer.specs.Way.{IsAmong, MayLead};

use crate::found::Found;
use ldap_filter::Env;
use unit_catalog::Catalog;
use unit_model::Required;

/// The requirements that lead on from a unit.
#[derive(Clone, Copy)]
pub(crate) enum Links {
    Greedy,
    All,
}

/// Where a search goes: to units of a catalog that apply in an environment, by links of a kind.
#[derive(Clone, Copy)]
pub(crate) struct Way<'c, 'e, 'f> {
    pub(crate) catalog: &'c Catalog,
    pub(crate) env: &'e Env,
    pub(crate) links: Links,
    /// The units among which it goes. None for all of the catalog.
    pub(crate) among: Option<&'f Found>,
}

impl Way<'_, '_, '_> {
    /// Whether the unit of this number is one of those among which the search goes.
    pub(crate) fn is_among(&self, number: u32) -> bool
        ensures { IsTrue result ↔ IsAmong self.now.among number }
    {
        match self.among {
            Some(among) => among.has(number),
            None => true,
        }
    }
}

impl Links {
    /// Whether the requirement is of this kind.
    pub(crate) fn may_lead(self, required: &Required) -> bool
        ensures { IsTrue result ↔ MayLead self required.now }
    {
        match self {
            Links::Greedy => required.greedy,
            Links::All => true,
        }
    }
}
