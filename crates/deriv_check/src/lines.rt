ghost use Rattle.std.specs.Prelude.{◌≡◌, ◌≢◌, ◌+◌, ◌<◌, ◌≤◌, ◌^◌, length, replicate, None, All, AllPairs, IfOk, MatchBool};
ghost use Rattle.pb_core.specs.AtLeast.{at_least, clause};
ghost use Rattle.pb_core.specs.Normal.{IsNormalOver};
ghost use Rattle.deriv_check.specs.Database.{database};
ghost use Rattle.pb_core.specs.ConstraintAt.{constraint_at};
ghost use Rattle.deriv_check.specs.HintRule.{all_false, conflicts, Took};
ghost use Rattle.deriv_check.specs.LineRule.{HasLiterals, HasHints, hinted};

use crate::derivation::Line;
use crate::hints::take;
use crate::scratch::Scratch;
use osgi_version::{List, NoMemory};
use pb_core::{Constraint, Lit, Origin, Term};
use std::alloc::Global;

/// Makes all literals of a clause false: whether each variable is one of the problem's, and none stands twice.
pub(crate) fn deny(scratch: &mut Scratch, lits: &[Lit]) -> Result<bool, NoMemory>
    requires { scratch.old ≡ replicate (length scratch.old) None }
    ensures found { IfOk result (λ yes. MatchBool yes
        (HasLiterals (length scratch.old) lits.now × (scratch.new ≡ all_false (length scratch.old) lits.now))
        (¬ (HasLiterals (length scratch.old) lits.now))) }
    ensures size { length scratch.new ≡ length scratch.old }
{
    for lit in lits {
        if lit.variable == 0 || lit.variable as usize > scratch.values().len() {
            return Ok(false);
        }
        if !scratch.values().is_open(*lit) {
            return Ok(false);
        }
        scratch.make_true(lit.complement())?;
    }
    Ok(true)
}

/// The constraint of a clause.
fn clause_constraint(alloc: Global, lits: &[Lit]) -> Result<Constraint, NoMemory>
    ensures { IfOk result (λ c. at_least c ≡ clause lits.now) }
{
    let mut terms = List::new(alloc);
    for lit in lits {
        terms.push(Term { coef: 1, lit: *lit })?;
    }
    Ok(Constraint {
        terms,
        degree: 1,
        origin: Origin::Need {
            variable: 0,
            row: 0,
        },
    })
}

/// Takes the hint with this number: whether its constraint is violated. Else what it forces is made true.
fn take_numbered(
    alloc: Global,
    scratch: &mut Scratch,
    constraints: &[Constraint],
    lines: &[Line],
    number: u32,
) -> Result<bool, NoMemory>
    requires few { length scratch.old < 2 ^ 32 }
    requires normal { All (λ c. IsNormalOver (length scratch.old) (at_least c)) constraints.now }
    requires literals { All (λ l. HasLiterals (length scratch.old) l.clause) lines.now }
    requires from_one { 0 < number }
    requires within { number ≤ length constraints.now + length lines.now }
    ensures found { IfOk result (Took scratch.old scratch.new (constraint_at (database constraints.now lines.now) number)) }
    ensures size { length scratch.new ≡ length scratch.old }
{
    let place = number as usize - 1;
    if place < constraints.len() {
        return take(scratch, &constraints[place]);
    }
    let line = &lines[place - constraints.len()];
    let constraint = clause_constraint(alloc, line.clause.items())?;
    take(scratch, &constraint)
}

/// Whether a constraint is violated when the hints are taken in order.
pub(crate) fn conflict(
    alloc: Global,
    scratch: &mut Scratch,
    constraints: &[Constraint],
    lines: &[Line],
    hints: &[u32],
) -> Result<bool, NoMemory>
    requires few { length scratch.old < 2 ^ 32 }
    requires normal { All (λ c. IsNormalOver (length scratch.old) (at_least c)) constraints.now }
    requires literals { All (λ l. HasLiterals (length scratch.old) l.clause) lines.now }
    requires within { All (λ h. (0 < h) × (h ≤ length constraints.now + length lines.now)) hints.now }
    ensures found { IfOk result (λ found. found ≡ conflicts scratch.old (hinted (database constraints.now lines.now) hints.now)) }
    ensures size { length scratch.new ≡ length scratch.old }
{
    for hint in hints {
        if take_numbered(alloc, scratch, constraints, lines, *hint)? {
            return Ok(true);
        }
    }
    Ok(false)
}
