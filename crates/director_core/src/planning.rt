ghost use Rattle.std.specs.Prelude.{◌≡◌, IfOk, IfErr};
ghost use Rattle.unit_model.specs.Profile.{IsProfile};
ghost use Rattle.inf_reader.specs.InForm.{IsUnitInForm};
ghost use Rattle.director_words.specs.Status.{CanPrint};
ghost use Rattle.director_core.specs.Built.{IsBuilt};
ghost use Rattle.director_core.specs.Planned.{IsReady, IsUnplanned};
ghost use Rattle.director_core.specs.Stops.{Stops};

use crate::built::is_built;
use crate::plan::Plan;
use crate::state_lines::first_state_text;
use director_words::{LimitName, Status};
use osgi_version::Text;
use std::alloc::Global;
use unit_model::Unit;

/// How many bytes a file may have.
const LONGEST_FILE: u64 = 67_108_864;

/// The plan for the unit. One with a part that isn't built is `NotBuilt`, and `Limit` means that the text of the state
/// is longer than a file may be.
pub(crate) fn plan_for(alloc: Global, profile: Text, unit: Unit) -> Result<Plan, Status>
    requires profile { IsProfile profile }
    requires form { IsUnitInForm unit }
    ensures ready { IfOk result IsReady }
    ensures same { IfOk result (λ plan. (plan.profile ≡ profile) × (plan.unit ≡ unit)) }
    ensures is_built { IfOk result (λ plan. IsBuilt unit) }
    ensures refused { IfErr result (Stops ⊥ ⊥ ⊥ (IsUnplanned profile unit)) }
    ensures printable { IfErr result CanPrint }
{
    if !is_built(&unit) {
        return Err(Status::NotBuilt);
    }
    let state = first_state_text(alloc, profile.bytes(), &unit)?;
    if state.len() as u64 > LONGEST_FILE {
        return Err(Status::Limit {
            what: LimitName::FileBytes,
            most: LONGEST_FILE,
        });
    }
    Ok(Plan {
        profile,
        unit,
        state,
    })
}
