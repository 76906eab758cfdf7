//! Laws of the hint rule. Each is the contract of a function that does nothing.
ghost use Rattle.std.specs.Prelude.{ℕ, List};
ghost use Rattle.pb_core.specs.AtLeast.{AtLeast};
ghost use Rattle.pb_core.specs.Satisfied.{Follows};
ghost use Rattle.pb_core.specs.declared.constraint.Constraint.{Constraint};
ghost use Rattle.deriv_check.specs.LineRule.{Checks};
ghost use Rattle.deriv_check.specs.Sound.{AreSound};
ghost use Rattle.deriv_check.specs.declared.derivation.Line.{Line};

/// A line that checks follows from the constraints and the lines before it.
pub fn line_follows()
    ensures { (variables : ℕ) (database : List AtLeast) (line : Line) →
        Checks variables database line → Follows database line.clause }
{}

/// Where all lines check, the clause of each follows from the problem, and where the last clause is empty, no
/// assignment satisfies the problem.
pub fn derivations_are_sound()
    ensures { (variables : ℕ) (constraints : List Constraint) (lines : List Line) →
        AreSound variables constraints lines }
{}
