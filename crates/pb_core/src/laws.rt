//! Laws of constraints and their propagation. Each is the contract of a function that does nothing.
ghost use Rattle.std.specs.Prelude.{◌≡◌, ◌≤ℤ◌, ◌++◌, ◌∷◌, [], ◌↔◌, pos, ℕ, Bool, List, Option, Contains, IsTrue};
ghost use Rattle.pb_core.specs.AtLeast.{AtLeast, clause};
ghost use Rattle.pb_core.specs.Fresh.{Fresh};
ghost use Rattle.pb_core.specs.Literal.{holds};
ghost use Rattle.pb_core.specs.Propagates.{Propagates, SettlesAt, ReachesViolation};
ghost use Rattle.pb_core.specs.Satisfied.{IsSatisfied, SatisfiesAll, MakesTrue, Follows};
ghost use Rattle.pb_core.specs.Slack.{IsViolated, Forces, slack_of, greatest_coef};
ghost use Rattle.pb_core.specs.Values.{Completes, value_of};
ghost use Rattle.pb_core.specs.declared.literal.Lit.{Lit as Literal};

/// A violated constraint has no completion that satisfies it.
pub fn violated_has_no_completion()
    ensures { (values : List (Option Bool)) (c : AtLeast) (full : ℕ → Bool) →
        IsViolated values c → Completes full values → ¬ (IsSatisfied full c) }
{}

/// A forced literal is true in every completion that satisfies the constraint.
pub fn forced_holds()
    ensures { (values : List (Option Bool)) (c : AtLeast) (lit : Literal) (full : ℕ → Bool) →
        Forces values c lit → Completes full values → IsSatisfied full c → IsTrue (holds full lit) }
{}

/// A slack that is at least the greatest coefficient neither is a violation nor forces a literal.
pub fn wide_slack_rests()
    ensures { (values : List (Option Bool)) (c : AtLeast) →
        pos (greatest_coef c.terms) ≤ℤ slack_of values c →
        ¬ (IsViolated values c) × ((lit : Literal) → ¬ (Forces values c lit)) }
{}

/// Propagation is sound: each completion that satisfies the constraints has the values that it leads to, and where it
/// reaches a violation there is none.
pub fn propagation_is_sound()
    ensures values { (constraints : List AtLeast) (values later : List (Option Bool)) (full : ℕ → Bool) →
        Propagates constraints values later → SatisfiesAll full constraints → Completes full values →
        Completes full later }
    ensures violation { (constraints : List AtLeast) (values : List (Option Bool)) (full : ℕ → Bool) →
        ReachesViolation constraints values → SatisfiesAll full constraints → ¬ (Completes full values) }
{}

/// Where propagation ends doesn't depend on its order: every order ends in the same values, or none ends at rest.
pub fn propagation_has_one_end()
    ensures values { (constraints : List AtLeast) (values one other : List (Option Bool)) →
        SettlesAt constraints values one → SettlesAt constraints values other →
        (variable : ℕ) → value_of one variable ≡ value_of other variable }
    ensures violation { (constraints : List AtLeast) (values later : List (Option Bool)) →
        ReachesViolation constraints values → ¬ (SettlesAt constraints values later) }
{}

/// The constraint of a clause is satisfied exactly where a literal of the clause is true.
pub fn clause_is_satisfied()
    ensures { (lits : List Literal) (full : ℕ → Bool) → IsSatisfied full (clause lits) ↔ MakesTrue full lits }
{}

/// What follows from constraints and a clause that follows from them follows from them.
pub fn follows_through()
    ensures { (constraints : List AtLeast) (lits more : List Literal) →
        Follows constraints lits → Follows (constraints ++ clause lits ∷ []) more → Follows constraints more }
{}

/// A fresh clause is none of those in the database.
pub fn fresh_is_new()
    ensures { (lits : List Literal) (database : List AtLeast) →
        Fresh lits database → ¬ (Contains database (clause lits)) }
{}
