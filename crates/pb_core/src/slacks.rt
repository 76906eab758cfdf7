ghost use Rattle.std.specs.Prelude.{◌≡◌, ◌≤◌, ◌^◌, length};
ghost use Rattle.pb_core.specs.AtLeast.{at_least};
ghost use Rattle.pb_core.specs.Normal.{AreAmong};
ghost use Rattle.pb_core.specs.Slack.{coef_sum, reachable, slack_of};

use crate::assignment::Assignment;
use crate::constraint::Constraint;
use crate::literal::Term;

/// The sum of the coefficients of the literals that aren't false.
pub(crate) fn reachable(terms: &[Term], values: &Assignment) -> u64
    requires small { coef_sum terms.now ≤ 2 ^ 60 }
    requires among { AreAmong (length values.now) terms.now }
    ensures value { result ≡ reachable values.now terms.now }
    ensures small { result ≤ 2 ^ 60 }
{
    let mut sum: u64 = 0;
    for term in terms {
        if !values.is_false(term.lit) {
            sum += term.coef;
        }
    }
    sum
}

/// The sum of the coefficients of the literals that aren't false, less the degree. Below 0 the constraint is violated,
/// and an open literal whose coefficient is above it is forced. Walks over the terms.
pub fn slack(constraint: &Constraint, values: &Assignment) -> i64
    requires degree { constraint.now.degree ≤ 2 ^ 54 }
    requires sum { coef_sum constraint.now.terms ≤ 2 ^ 54 }
    requires among { AreAmong (length values.now) constraint.now.terms }
    ensures { result ≡ slack_of values.now (at_least constraint.now) }
{
    reachable(constraint.terms.items(), values) as i64 - constraint.degree as i64
}
