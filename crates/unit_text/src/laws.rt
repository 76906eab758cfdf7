//! What holds of all texts of units.

ghost use Rattle.std.specs.Prelude.{◌≡◌, ◌++◌, ℕ, List};
ghost use Rattle.unit_model.specs.declared.unit.Unit.{Unit as Package};
ghost use Rattle.unit_text.specs.UnitText.{IsUnit, AreTexts, unit_lines, unit_text};

/// Each unit's text is its own, and begins no other unit's text: so a text begins with that of one unit at most.
pub fn one_text()
    ensures { (u v : Package) (r s : List ℕ) → IsUnit u → AreTexts u → IsUnit v → AreTexts v → unit_text u ++ r ≡ unit_text v ++ s → u ≡ v }
{}

/// The same of lines: a run of lines begins with those of one unit at most.
pub fn one_unit()
    ensures { (u v : Package) (r s : List (List ℕ)) → IsUnit u → AreTexts u → IsUnit v → AreTexts v → unit_lines u ++ r ≡ unit_lines v ++ s → u ≡ v }
{}
