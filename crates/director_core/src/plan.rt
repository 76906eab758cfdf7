use osgi_version::{List, Text};
use unit_model::Unit;

/// What an install is to do: the unit is to come to the profile, whose first state has this text.
#[derive(Debug, Drop)]
pub(crate) struct Plan {
    pub profile: Text,
    pub unit: Unit,
    pub state: List<u8>,
}
