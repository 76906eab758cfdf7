ghost use Rattle.std.specs.Prelude.{◌≡◌, ◌≤◌, ◌<◌, ◌+◌, ◌*◌, ◌^◌, ◌↔◌, ◌≤ℤ◌, ◌+ℤ◌, ℕ, Bool, pos, map, length, sum_by, All, IfOk, IfSome, IfNone, IsPermutation};
ghost use Rattle.std.specs.List.Sorted.{IsNonDecreasingBy, IsStrictlyIncreasing};
ghost use Rattle.pb_core.specs.AtLeast.{at_least};
ghost use Rattle.pb_core.specs.Normal.{AreAmong, IsNormal};
ghost use Rattle.pb_core.specs.Normalised.{IsModerate, IsNormalised, IsSatisfiedSigned, AreSignedAmong, clipped, signed_sum};
ghost use Rattle.pb_core.specs.Satisfied.{IsSatisfied, true_sum};
ghost use Rattle.pb_core.specs.Slack.{coef_sum};
ghost use Rattle.pb_core.specs.Joined.{joined_sum, weight, size, signed_size, AreJoinedAmong, IsPrepared};

use crate::constraint::{Constraint, Origin};
use crate::literal::{Lit, SignedTerm, Term};
use osgi_version::{List, NoMemory};
use std::alloc::Global;

/// What a variable adds to a sum where it is true, and what where it is false.
#[derive(Clone, Copy, Drop)]
struct Joined {
    variable: u32,
    when_true: i64,
    when_false: i64,
}

/// The terms by rising variables.
fn sorted(alloc: Global, terms: &[SignedTerm]) -> Result<Vec<SignedTerm>, NoMemory>
    ensures same { IfOk result (λ v. IsPermutation terms.now v.items) }
    ensures rising { IfOk result (λ v. IsNonDecreasingBy (λ t. t.lit.variable) v.items) }
{
    let mut sorted = Vec::from_slice(alloc, terms)?;
    sorted.sort_unstable_by_key(|term| term.lit.variable);
    Ok(sorted)
}

impl Joined {
    ghost use Rattle.pb_core.specs.Joined.{joined_share, signed_share_of, true_share, joined_nothing};

    /// No term of the variable yet.
    fn none(variable: u32) -> Joined
        ensures { result ≡ joined_nothing variable }
    {
        Joined {
            variable,
            when_true: 0,
            when_false: 0,
        }
    }

    /// With one more term of the variable.
    fn with(self, term: &SignedTerm) -> Joined
        requires same { term.now.lit.variable ≡ self.variable }
        requires small { size self + signed_size term.now ≤ 2 ^ 60 }
        ensures variable { result.variable ≡ self.variable }
        ensures share { (full : ℕ → Bool) →
            joined_share full result ≡ joined_share full self +ℤ signed_share_of full term.now }
        ensures size { size result ≤ size self + signed_size term.now }
    {
        if term.lit.positive {
            Joined {
                variable: self.variable,
                when_true: self.when_true + term.coef,
                when_false: self.when_false,
            }
        } else {
            Joined {
                variable: self.variable,
                when_true: self.when_true,
                when_false: self.when_false + term.coef,
            }
        }
    }

    /// What the variable adds in any case, and the term of what it adds beyond that.
    fn split(self) -> (i64, Term)
        requires { size self ≤ 2 ^ 60 }
        ensures variable { result.1.lit.variable ≡ self.variable }
        ensures share { (full : ℕ → Bool) →
            result.0 +ℤ pos (true_share full result.1) ≡ joined_share full self }
        ensures low { pos 0 ≤ℤ (result.0 +ℤ pos (size self)) }
        ensures high { result.0 ≤ℤ pos (size self) }
        ensures size { result.1.coef ≤ size self }
    {
        let variable = self.variable;
        if self.when_false < self.when_true {
            let coef = (self.when_true - self.when_false) as u64;
            let lit = Lit {
                variable,
                positive: true,
            };
            (self.when_false, Term { coef, lit })
        } else {
            let coef = (self.when_false - self.when_true) as u64;
            let lit = Lit {
                variable,
                positive: false,
            };
            (self.when_true, Term { coef, lit })
        }
    }
}

/// The terms, one for each variable. A variable 0 that no term has adds nothing.
fn join_terms(alloc: Global, terms: &[SignedTerm]) -> Result<Vec<Joined>, NoMemory>
    requires rising { IsNonDecreasingBy (λ t. t.lit.variable) terms.now }
    requires small { sum_by signed_size terms.now ≤ 2 ^ 60 }
    ensures rising { IfOk result (λ v. IsStrictlyIncreasing (map (λ j. j.variable) v.items)) }
    ensures sum { IfOk result (λ v. (full : ℕ → Bool) → joined_sum full v.items ≡ signed_sum full terms.now) }
    ensures weight { IfOk result (λ v. weight v.items ≤ sum_by signed_size terms.now) }
    ensures among { IfOk result (λ v. (variables : ℕ) →
        AreSignedAmong variables terms.now → AreJoinedAmong variables v.items) }
{
    let mut joined = Vec::new(alloc);
    let mut current = Joined::none(0);
    for term in terms {
        if term.lit.variable != current.variable {
            joined.push(current)?;
            current = Joined::none(term.lit.variable);
        }
        current = current.with(term);
    }
    joined.push(current)?;
    Ok(joined)
}

/// The terms with coefficients above 0, and the degree that they have to reach.
fn positive_terms(
    alloc: Global,
    joined: &[Joined],
    degree: i64,
) -> Result<(Vec<Term>, i64), NoMemory>
    requires rising { IsStrictlyIncreasing (map (λ j. j.variable) joined.now) }
    requires small { weight joined.now ≤ 2 ^ 60 }
    requires moderate { IsModerate degree }
    ensures margin { IfOk result (λ r. (full : ℕ → Bool) →
        pos (true_sum full r.0.items) +ℤ degree ≡ r.1 +ℤ joined_sum full joined.now) }
    ensures rising { IfOk result (λ r. IsStrictlyIncreasing (map (λ t. t.lit.variable) r.0.items)) }
    ensures above_none { IfOk result (λ r. All (λ t. 0 < t.coef) r.0.items) }
    ensures small { IfOk result (λ r. coef_sum r.0.items ≤ weight joined.now) }
    ensures high { IfOk result (λ r. r.1 ≤ℤ (degree +ℤ pos (weight joined.now))) }
    ensures among { IfOk result (λ r. (variables : ℕ) →
        AreJoinedAmong variables joined.now → AreAmong variables r.0.items) }
{
    let mut terms = Vec::new(alloc);
    let mut left = degree;
    for one in joined {
        let (common, term) = one.split();
        left -= common;
        if term.coef > 0 {
            terms.push(term)?;
        }
    }
    Ok((terms, left))
}

/// No coefficient above the degree.
fn clip(alloc: Global, terms: &[Term], degree: u64) -> Result<Vec<Term>, NoMemory>
    ensures { IfOk result (λ v. v.items ≡ clipped degree terms.now) }
{
    let clipped = terms
        .iter()
        .map(|term| Term {
            coef: term.coef.min(degree),
            lit: term.lit,
        })
        .collect(alloc)?;
    Ok(clipped)
}

/// The same with positive coefficients, one term for each variable, and what is left of the degree for them to reach.
fn prepared(alloc: Global, terms: &[SignedTerm], degree: i64) -> Result<(Vec<Term>, i64), NoMemory>
    requires few { length terms.now ≤ 8194 }
    requires coefs { All (λ t. IsModerate t.coef) terms.now }
    requires degree { IsModerate degree }
    ensures { IfOk result (λ r. IsPrepared terms.now degree r.0.items r.1) }
{
    let sorted = sorted(alloc, terms)?;
    let joined = join_terms(alloc, &sorted)?;
    let (positive, left) = positive_terms(alloc, &joined, degree)?;
    Ok((positive, left))
}

/// The normal form of the constraint that the coefficients of the true literals sum to at least the degree. None
/// exactly where every assignment satisfies it. Coefficients and degree lie between -2^40 and 2^40.
pub fn normalise(
    alloc: Global,
    terms: &List<SignedTerm>,
    degree: i64,
    origin: Origin,
) -> Result<Option<Constraint>, NoMemory>
    requires few { length terms.now ≤ 8194 }
    requires coefs { All (λ t. IsModerate t.coef) terms.now }
    requires degree { IsModerate degree }
    ensures exact { IfOk result (λ found. IfSome found (λ c. IsNormalised terms.now degree (at_least c))) }
    ensures normal { IfOk result (λ found. IfSome found (λ c. IsNormal (at_least c))) }
    ensures among { IfOk result (λ found. IfSome found (λ c. (variables : ℕ) →
        AreSignedAmong variables terms.now → AreAmong variables c.terms)) }
    ensures origin { IfOk result (λ found. IfSome found (λ c. c.origin ≡ origin)) }

    // The same assignments satisfy both.
    ensures same { IfOk result (λ found. IfSome found (λ c. (full : ℕ → Bool) →
        IsSatisfied full (at_least c) ↔ IsSatisfiedSigned full terms.now degree)) }

    // None exactly where every assignment satisfies the constraint.
    ensures none { IfOk result (λ found. IfNone found ((full : ℕ → Bool) → IsSatisfiedSigned full terms.now degree)) }
    ensures some { IfOk result (λ found. IfSome found (λ _.
        (full : ℕ → Bool) × ¬ (IsSatisfiedSigned full terms.now degree))) }
{
    let (positive, left) = prepared(alloc, terms.items(), degree)?;
    if left <= 0 {
        return Ok(None);
    }
    let degree = left as u64;
    let terms = List::from_vec(clip(alloc, &positive, degree)?);
    Ok(Some(Constraint {
        terms,
        degree,
        origin,
    }))
}
