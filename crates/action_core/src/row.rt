ghost use Rattle.std.specs.Prelude.{◌≡◌, ◌≢◌, ℕ, IfOk, IfErr};
ghost use Rattle.folder_core.specs.Folder.{Map, IsFormed};
ghost use Rattle.instr_parser.specs.Given.{IsCall};
ghost use Rattle.action_core.specs.Effect.{HasEffect, StandsFor};
ghost use Rattle.action_core.specs.Standing.{IsShape, site_of};
ghost use Rattle.action_core.specs.Steps.{CanPerform};

use crate::fault::ActionFault;
use crate::shape::Shape;
use crate::step::Step;
use instr_parser::Call;
use osgi_version::List;

/// A row of the table of actions: what calls of one kind do.
pub trait Row {
    ghost KIND: { ℕ };

    /// The code of the kind.
    const KIND: u16;

    /// The steps of a call, in order, or its refusal.
    fn steps(call: &Call, shape: &Shape) -> Result<List<Step>, ActionFault>
        requires kind { call.now.kind.0 ≡ KIND }
        requires call { IsCall call.now }
        requires shape { IsShape shape.now }
        ensures steps { IfOk result (λ steps. (m : Map) → StandsFor shape.now call.now m → HasEffect (site_of shape.now) call.now m shape.now.noted (Ok steps)) }
        ensures refused { IfErr result (λ fault. fault ≢ ActionFault.NoMemory → (m : Map) → StandsFor shape.now call.now m → HasEffect (site_of shape.now) call.now m shape.now.noted (Err fault)) }
        ensures settable { IfOk result (λ steps. (m : Map) → StandsFor shape.now call.now m → IsFormed m → CanPerform shape.now.install m steps) };
}
