//! Laws of the rows. Each is the contract of a function that does nothing.
ghost use Rattle.std.specs.Prelude.{◌≡◌, ◌≢◌, ◌↔◌, ◌<◌, ℕ, Bool, List, map, length, All, AllPairs, Contains, IsTrue};
ghost use Rattle.ldap_filter.specs.EnvPairs.{EnvPair};
ghost use Rattle.unit_model.specs.Applies.{filter_true};
ghost use Rattle.unit_model.specs.Matches.{Matches};
ghost use Rattle.unit_model.specs.Met.{IsMet};
ghost use Rattle.unit_model.specs.Valid.{names, Collide, IsValid};
ghost use Rattle.unit_model.specs.declared.name.UnitName.{UnitName};
ghost use Rattle.unit_model.specs.declared.required.Required.{Required};
ghost use Rattle.unit_model.specs.declared.unit.Unit.{Unit as Package};
ghost use Rattle.pb_rows.specs.Deciding.{matches, same_name};
ghost use Rattle.pb_rows.specs.Members.{selected};
ghost use Rattle.pb_core.specs.AtLeast.{at_least};
ghost use Rattle.pb_core.specs.Normal.{IsNormalOver};
ghost use Rattle.pb_core.specs.Satisfied.{SatisfiesAll};
ghost use Rattle.pb_core.specs.declared.constraint.Constraint.{Constraint as Kept};
ghost use Rattle.pb_rows.specs.Normalising.{Satisfies, AreNormalised, HasMoreTerms, term_count};
ghost use Rattle.pb_rows.specs.Rows.{Row, root_rows, requirement_rows, singleton_rows, rows};

/// The tests on units decide what they are said to.
pub fn tests_decide()
    ensures matches { (r : Required) (u : Package) → IsTrue (matches r u) ↔ Matches r u }
    ensures name { (a b : UnitName) → IsTrue (same_name a b) ↔ (a ≡ b) }
{}

/// The rows of the roots are satisfied exactly where each root is the name of a selected member.
pub fn root_rows_ask_for_roots()
    ensures { (full : ℕ → Bool) (members : List Package) (roots : List UnitName) →
        All (Satisfies full) (root_rows members roots) ↔ All (Contains (names (selected full members))) roots }
{}

/// The rows of requirements are satisfied exactly where each requirement of each selected member is met.
pub fn requirement_rows_ask_for_enough()
    ensures { (full : ℕ → Bool) (members : List Package) (env : List EnvPair) →
        All (Satisfies full) (requirement_rows members env)
        ↔ All (λ u. All (λ r. IsMet r (selected full members) env) u.required) (selected full members) }
{}

/// The rows of ids are satisfied exactly where no two selected members collide.
pub fn singleton_rows_keep_apart()
    ensures { (full : ℕ → Bool) (members : List Package) →
        All (Satisfies full) (singleton_rows members)
        ↔ AllPairs (λ u v. ¬ (Collide u v)) (selected full members) }
{}

/// Normal forms of rows are satisfied exactly where the rows are. So those of all rows of members that have distinct
/// names and apply are satisfied exactly where the selected members are valid.
pub fn constraints_ask_for_valid()
    ensures same { (full : ℕ → Bool) (given : List Row) (constraints : List Kept) →
        AreNormalised given constraints →
        SatisfiesAll full (map at_least constraints) ↔ All (Satisfies full) given }
    ensures valid { (full : ℕ → Bool) (members : List Package) (roots : List UnitName) (env : List EnvPair) (constraints : List Kept) →
        AllPairs (λ u v. u.name ≢ v.name) members →
        All (λ u. IsTrue (filter_true env u.filter)) members →
        AreNormalised (rows members roots env) constraints →
        SatisfiesAll full (map at_least constraints) ↔ IsValid (selected full members) roots env }
{}

/// Normal forms of all rows of members are normal over the members' variables.
pub fn constraints_are_normal()
    ensures { (members : List Package) (roots : List UnitName) (env : List EnvPair) (constraints : List Kept) →
        AreNormalised (rows members roots env) constraints →
        All (λ c. IsNormalOver (length members) (at_least c)) constraints }
{}

/// Rows have one list of normal forms. So where those of the first rows have too many terms, those of all have.
pub fn rows_have_one_problem()
    ensures one { (given : List Row) (a b : List Kept) → AreNormalised given a → AreNormalised given b → a ≡ b }
    ensures counted { (most : ℕ) (given : List Row) (constraints : List Kept) →
        AreNormalised given constraints → HasMoreTerms most given → most < term_count constraints }
{}
