ghost use Rattle.std.specs.Prelude.{◌≡◌, ◌<◌, ◌≤◌, ◌+◌, [], All, reverse, IfOk, length};
ghost use Rattle.pb_core.specs.ConstraintAt.{constraint_at};
ghost use Rattle.pb_core.specs.Fresh.{Fresh};
ghost use Rattle.pb_core.specs.Propagates.{IsAtRest};
ghost use Rattle.pb_core.specs.Slack.{IsViolated};
ghost use Rattle.deriv_check.specs.LineRule.{Checks};
ghost use Rattle.pb_trail.specs.Along.{values_before};
ghost use Rattle.pb_trail.specs.Trail.{IsTrail};
ghost use Rattle.clause_learning.specs.Marks.{place_in};
ghost use Rattle.clause_learning.specs.Reasons.{ReasonsFrom};
ghost use Rattle.clause_learning.specs.Asserting.{IsAsserting};
ghost use Rattle.clause_learning.specs.Collected.{floor_of};

use crate::cut::Cut;
use deriv_check::Line;
use osgi_version::{List, NoMemory};
use pb_core::Lit;
use pb_trail::Trail;
use std::alloc::Global;

/// A line whose clause forces its first literal once the trail is taken back.
#[derive(Debug, Drop)]
pub struct Learned {
    pub line: Line,
    /// One above the last entry that the clause's other literals are the complements of, or 0 where there are none.
    pub floor: usize,
    /// The variables that the conflict rests on, those of the clause and those that were resolved: a hint which ones
    /// matter.
    pub met: List<u32>,
}

/// The hints in the order in which the checker takes them.
fn turned(hints: Vec<u32>) -> List<u32>
    ensures { result ≡ reverse hints.items }
{
    let mut hints = hints;
    hints.reverse();
    List::from_vec(hints)
}

/// Puts the variables of literals behind those that were met.
fn add_variables(met: &mut List<u32>, lits: &[Lit]) -> Result<(), NoMemory> {
    for lit in lits {
        met.push(lit.variable)?;
    }
    Ok(())
}

/// One above the place of the second literal, or 0 where there is none.
fn floor_of(places: &[usize], lits: &[Lit]) -> usize
    requires within { All (λ l. l.variable < length places.now) lits.now }
    requires small { All (λ l. place_in places.now l.variable ≤ 1000000000) lits.now }
    ensures { result ≡ floor_of places.now lits.now }
{
    if lits.len() < 2 {
        return 0;
    }
    places[lits[1].variable as usize] + 1
}

/// What a conflict behind a decision teaches. The clause's first literal is the complement of the first unique
/// implication point of the entries from `start` on; its others were false before. Literals that follow from the rest by their
/// reasons are left out, which only makes the clause shorter. Costs the entries, and the terms of the constraints that
/// are taken up and of the reasons of the literals that a cut alone would leave.
pub fn learn(alloc: Global, trail: &Trail, start: usize, conflict: u32) -> Result<Learned, NoMemory>
    requires good { IsTrail trail.now }
    requires from_one { 0 < conflict }
    requires within { conflict ≤ length trail.now.kept.constraints }
    requires violated { IsViolated trail.now.kept.values (constraint_at trail.now.kept.constraints conflict) }
    requires start { start < length trail.now.entries.items }
    requires rest { IsAtRest trail.now.kept.constraints (values_before (length trail.now.kept.values) trail.now.entries.items start) }
    requires reasons { ReasonsFrom trail.now (start + 1) }
    ensures checks { IfOk result (λ learned. Checks (length trail.now.kept.values) trail.now.kept.constraints learned.line) }
    ensures fresh { IfOk result (λ learned. Fresh learned.line.clause trail.now.kept.constraints) }
    ensures asserting { IfOk result (λ learned. IsAsserting trail.now start learned.floor learned.line.clause) }
{
    let mut met = List::new(alloc);
    let mut cut = Cut::of(
        alloc,
        trail,
        conflict,
        start + 1,
        trail.entries.len(),
        &mut met,
    )?;
    cut.shorten(trail, start)?;
    let clause = cut.clause(alloc, trail)?;
    let floor = floor_of(cut.places.as_slice(), clause.items());
    add_variables(&mut met, clause.items())?;
    let hints = turned(cut.hints);
    let line = Line { clause, hints };
    Ok(Learned { line, floor, met })
}

/// The empty clause, from a conflict where each entry was forced.
pub fn refute(alloc: Global, trail: &Trail, conflict: u32) -> Result<Line, NoMemory>
    requires good { IsTrail trail.now }
    requires from_one { 0 < conflict }
    requires within { conflict ≤ length trail.now.kept.constraints }
    requires violated { IsViolated trail.now.kept.values (constraint_at trail.now.kept.constraints conflict) }
    requires reasons { ReasonsFrom trail.now 0 }
    ensures checks { IfOk result (λ line. Checks (length trail.now.kept.values) trail.now.kept.constraints line) }
    ensures empty { IfOk result (λ line. line.clause ≡ []) }
{
    let mut met = List::new(alloc);
    let cut = Cut::of(alloc, trail, conflict, 0, 0, &mut met)?;
    let clause = List::new(alloc);
    let hints = turned(cut.hints);
    Ok(Line { clause, hints })
}
