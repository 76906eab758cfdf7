ghost use Rattle.std.specs.Prelude.{◌≡◌, IfOk};
ghost use Rattle.director_plan.specs.EvidenceLines.{CanShow, Refutes, IsUnsatisfiableText, spent_text};

use crate::causes::push_causes;
use deriv_check::{Evidence, used, write_evidence};
use osgi_version::{List, NoMemory, push_number};
use std::alloc::Global;

/// `unsatisfiable`, the evidence, and a line for each constraint that its last line goes back to: `because root
/// ID/VERSION` for a root, `because need ID/VERSION ROW` for a requirement that wants some of what matches it, `because
/// most ID/VERSION ROW` for one that allows few, `because one ID` for the singletons of an id. No selection meets all of
/// these.
pub fn unsatisfiable_lines(alloc: Global, evidence: &Evidence) -> Result<List<u8>, NoMemory>
    requires shown { CanShow evidence.now }
    requires refutes { Refutes evidence.now }
    ensures { IfOk result (IsUnsatisfiableText evidence.now) }
{
    let numbers = used(alloc, &evidence.problem, &evidence.derivation)?;
    let text = write_evidence(alloc, evidence)?;
    let mut lines = Vec::from_slice(alloc, b"unsatisfiable\n")?;
    lines.extend_from_slice(text.bytes())?;
    push_causes(&mut lines, &evidence.problem, numbers.items())?;
    Ok(List::from_vec(lines))
}

/// `budget-spent BUDGET`, and the evidence.
pub fn budget_spent_lines(
    alloc: Global,
    budget: u32,
    evidence: &Evidence,
) -> Result<List<u8>, NoMemory>
    requires shown { CanShow evidence.now }
    ensures { IfOk result (λ lines. lines ≡ spent_text budget evidence.now) }
{
    let text = write_evidence(alloc, evidence)?;
    let mut lines = Vec::from_slice(alloc, b"budget-spent ")?;
    push_number(&mut lines, budget)?;
    lines.push(b'\n')?;
    lines.extend_from_slice(text.bytes())?;
    Ok(List::from_vec(lines))
}
