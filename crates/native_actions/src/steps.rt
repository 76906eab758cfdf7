ghost use Rattle.std.specs.Prelude.{◌≡◌, [], ◌∷◌, IfOk};

use action_core::Step;
use osgi_version::{List, NoMemory};
use std::alloc::Global;

/// A list of one step.
pub(crate) fn one_step(alloc: Global, step: Step) -> Result<List<Step>, NoMemory>
    ensures { IfOk result (λ steps. steps ≡ step ∷ []) }
{
    let mut steps = List::new(alloc);
    steps.push(step)?;
    Ok(steps)
}
