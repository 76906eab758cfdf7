ghost use Rattle.std.specs.Prelude.{◌≡◌, ◌≤◌, ◌<◌, ◌^◌, ◌↔◌, map, length, All, IsTrue};
ghost use Rattle.std.specs.List.Sorted.{IsStrictlyIncreasing};
ghost use Rattle.pb_core.specs.Normal.{IsNormalOver};
ghost use Rattle.pb_core.specs.Slack.{coef_sum};
ghost use Rattle.deriv_check.specs.Terms.{IsTermOver, constraint_of};

use pb_core::Term;

/// The greatest degree, and the greatest sum of coefficients.
const GREATEST: u64 = 1 << 54;

/// Whether a constraint is normal over variables from 1 to a number.
#[tactic(auto, using(crate::proofs::NormalityLaws::normal_over, crate::proofs::NormalityLaws::over_normal))]
pub(crate) fn is_normal(terms: &[Term], degree: u64, variables: usize) -> bool
    ensures { IsTrue result ↔ IsNormalOver variables (constraint_of terms.now degree) }
{
    0 < degree
        && degree <= GREATEST
        && are_rising(terms)
        && are_over(terms, degree, variables)
        && has_small_sum(terms)
}

fn are_rising(terms: &[Term]) -> bool
    ensures { IsTrue result ↔ IsStrictlyIncreasing (map (λ t. t.lit.variable) terms.now) }
{
    for place in 1..terms.len() {
        if terms[place - 1].lit.variable >= terms[place].lit.variable {
            return false;
        }
    }
    true
}

/// Whether coefficients are from 1 to the degree, and variables from 1 to a number.
fn are_over(terms: &[Term], degree: u64, variables: usize) -> bool
    ensures { IsTrue result ↔ All (IsTermOver variables degree) terms.now }
{
    terms.iter().all(|term| 0 < term.coef
        && term.coef <= degree
        && 0 < term.lit.variable
        && term.lit.variable as usize <= variables)
}

/// Whether the coefficients sum to what a slack can hold.
fn has_small_sum(terms: &[Term]) -> bool
    ensures { IsTrue result ↔ (coef_sum terms.now ≤ 2 ^ 54) }
{
    let mut left = GREATEST;
    for term in terms {
        if term.coef > left {
            return false;
        }
        left -= term.coef;
    }
    true
}
