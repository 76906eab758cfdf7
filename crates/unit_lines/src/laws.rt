//! What holds of all lines.

ghost use Rattle.std.specs.Prelude.{◌≡◌, ℕ, List};
ghost use Rattle.unit_lines.specs.Parts.{IsLineOf};
ghost use Rattle.unit_lines.specs.declared.part.Part.{Part};

/// No line says two parts.
pub fn one_part()
    ensures { (line : List ℕ) (p q : Part) → IsLineOf line p → IsLineOf line q → p ≡ q }
{}
