use deriv_check::Evidence;
use osgi_version::List;
use unit_model::UnitName;

/// An optional root that no selection may have, with the evidence.
#[derive(Debug, Drop)]
pub struct LeftOut {
    pub root: UnitName,
    /// A derivation that refutes the problem of the root beside the strict roots and the optional ones kept before it.
    pub evidence: Evidence,
}

/// What comes of planning.
#[derive(Debug, Drop)]
pub enum Planned {
    /// The numbers of the units to be installed, by id and then by version, and the optional roots that are none of
    /// them, rising.
    Selection {
        members: List<u32>,
        left: List<LeftOut>,
    },
    /// No selection is valid for the strict roots, and the derivation refutes their problem.
    NoSelection(Evidence),
    /// The derivation has as many lines as the budget allows, and the problem isn't decided.
    Spent(Evidence),
}
