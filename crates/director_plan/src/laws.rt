//! Laws of what is printed. Each is the contract of a function that does nothing.
ghost use Rattle.std.specs.Prelude.{◌≡◌, ◌≢◌, ℕ, List, length, All, AllPairs};
ghost use Rattle.ldap_filter.specs.EnvPairs.{EnvPair};
ghost use Rattle.pb_core.specs.declared.constraint.Problem.{Problem};
ghost use Rattle.pb_encode.specs.IsProblem.{IsProblem};
ghost use Rattle.deriv_check.specs.EvidenceForm.{IsNamed};
ghost use Rattle.deriv_check.specs.declared.derivation.Evidence.{Evidence};
ghost use Rattle.unit_model.specs.declared.name.UnitName.{UnitName};
ghost use Rattle.unit_model.specs.declared.unit.Unit.{Unit as Package};
ghost use Rattle.director_plan.specs.EvidenceLines.{IsLabelled, IsUnsatisfiableText};

/// An evidence has one text where there is no selection.
pub fn one_unsatisfiable_text()
    ensures { (e : Evidence) (a b : List ℕ) → IsUnsatisfiableText e a → IsUnsatisfiableText e b → a ≡ b }
{}

/// In the problem to select members with distinct names, each constraint of a root has no term, or the one of the
/// variable with the root's label, and the variables of requirements are the problem's.
pub fn problems_can_be_named()
    ensures named { (members : List Package) (roots : List UnitName) (env : List EnvPair) (p : Problem) →
        AllPairs (λ u v. u.name ≢ v.name) members → IsProblem members roots env p →
        All (λ c. IsNamed p.labels c.terms c.origin) p.constraints }
    ensures labelled { (members : List Package) (roots : List UnitName) (env : List EnvPair) (p : Problem) →
        IsProblem members roots env p → All (λ c. IsLabelled (length p.labels) c.origin) p.constraints }
{}
