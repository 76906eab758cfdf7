ghost use Rattle.std.specs.Prelude.{◌≡◌, ◌≢◌, ◌<◌, ◌≤◌, ◌^◌, ◌↔◌, length, All, AllPairs, IfOk, IsTrue, ◌&&◌, nat_lt};
ghost use Rattle.pb_core.specs.AtLeast.{at_least};
ghost use Rattle.pb_core.specs.Normal.{AreAmong};
ghost use Rattle.pb_core.specs.Slack.{coef_sum};
ghost use Rattle.pb_core.specs.Values.{is_open};
ghost use Rattle.deriv_check.specs.HintRule.{Took};

use crate::scratch::Scratch;
use osgi_version::NoMemory;
use pb_core::{Assignment, Constraint, Term, slack};

/// Whether each hint is the number of a constraint or of an earlier line.
pub(crate) fn are_within(hints: &[u32], count: usize) -> bool
    ensures { IsTrue result ↔ All (λ h. (0 < h) × (h ≤ count)) hints.now }
{
    hints
        .iter()
        .all(|hint| 0 < *hint && *hint as usize <= count)
}

/// Whether the literal is open and its coefficient above the slack.
fn is_forced(values: &Assignment, term: &Term, slack: u64) -> bool
    requires from_one { 0 < term.now.lit.variable }
    requires within { term.now.lit.variable ≤ length values.now }
    ensures { result ≡ (is_open values.now term.now.lit && nat_lt slack term.now.coef) }
{
    values.is_open(term.lit) && slack < term.coef
}

/// Takes one hint: whether its constraint is violated. Else what it forces is made true.
pub(crate) fn take(scratch: &mut Scratch, constraint: &Constraint) -> Result<bool, NoMemory>
    requires degree { constraint.now.degree ≤ 2 ^ 54 }
    requires sum { coef_sum constraint.now.terms ≤ 2 ^ 54 }
    requires among { AreAmong (length scratch.old) constraint.now.terms }
    requires distinct { AllPairs (λ t u. t.lit.variable ≢ u.lit.variable) constraint.now.terms }
    ensures found { IfOk result (Took scratch.old scratch.new (at_least constraint.now)) }
    ensures size { length scratch.new ≡ length scratch.old }
{
    let slack = slack(constraint, scratch.values());
    if slack < 0 {
        return Ok(true);
    }
    let room = slack as u64;
    for term in constraint.terms.items() {
        if is_forced(scratch.values(), term, room) {
            scratch.make_true(term.lit)?;
        }
    }
    Ok(false)
}
