ghost use Rattle.std.specs.Prelude.{◌≡◌, ◌∷◌, [], ◌++◌, length, All, IfOk, OnOk};
ghost use Rattle.std.specs.List.{flat_map};
ghost use Rattle.std.specs.Str.{IsUtf8};
ghost use Rattle.pb_core.specs.AtLeast.{at_least};
ghost use Rattle.pb_core.specs.Normal.{IsNormalOver};
ghost use Rattle.deriv_check.specs.EvidenceForm.{IsCount, IsLine, IsOrigin, IsNamed, IsEvidence, DenotesEvidence, whole_lines};
ghost use Rattle.deriv_check.specs.EvidenceText.{label_line, constraint_line, derived_line, problem_line, derivation_line, evidence_text};

use crate::derivation::{Evidence, Line};
use crate::word_writer::{push_hints, push_lits, push_origin, push_terms, push_text, push_wide};
use osgi_version::{NoMemory, Text};
use pb_core::Constraint;
use std::alloc::Global;

/// The text of an evidence, whose constraints are normal over its labels. A constraint of a root has no term, or the one
/// term of the variable with the root's label.
pub fn write_evidence(alloc: Global, evidence: &Evidence) -> Result<Text, NoMemory>
    requires labels { IsCount (length evidence.now.problem.labels) }
    requires constraints { IsCount (length evidence.now.problem.constraints) }
    requires lines { IsCount (length evidence.now.derivation.lines) }
    requires normal { All (λ c. IsNormalOver (length evidence.now.problem.labels) (at_least c)) evidence.now.problem.constraints }
    requires named { All (λ c. IsNamed evidence.now.problem.labels c.terms c.origin) evidence.now.problem.constraints }
    ensures text { IfOk result (λ text. text ≡ evidence_text evidence.now) }
    // It reads back.
    ensures denotes { IfOk result (λ text. DenotesEvidence (whole_lines text) evidence.now) }
{
    let text = written(alloc, evidence)?;
    Text::from_ascii(alloc, &text)
}

/// The bytes of the text.
fn written(alloc: Global, evidence: &Evidence) -> Result<Vec<u8>, NoMemory>
    requires labels { IsCount (length evidence.now.problem.labels) }
    requires constraints { IsCount (length evidence.now.problem.constraints) }
    requires lines { IsCount (length evidence.now.derivation.lines) }
    requires normal { All (λ c. IsNormalOver (length evidence.now.problem.labels) (at_least c)) evidence.now.problem.constraints }
    requires named { All (λ c. IsNamed evidence.now.problem.labels c.terms c.origin) evidence.now.problem.constraints }
    ensures text { IfOk result (λ text. text.items ≡ evidence_text evidence.now) }
    ensures form { IfOk result (λ _. IsEvidence evidence.now) }
{
    let labels = evidence.problem.labels.items();
    let constraints = evidence.problem.constraints.items();
    let lines = evidence.derivation.lines.items();
    let mut text = Vec::new(alloc);
    push_problem_line(&mut text, labels.len(), constraints.len())?;
    push_labels(&mut text, labels)?;
    push_constraints(&mut text, constraints)?;
    push_derivation_line(&mut text, lines.len())?;
    push_lines(&mut text, lines)?;
    Ok(text)
}

/// Adds the line that says how many labels and constraints there are.
fn push_problem_line(text: &mut Vec<u8>, labels: usize, constraints: usize) -> Result<(), NoMemory>
    ensures { OnOk result (text.new.items ≡ text.old.items ++ (problem_line (labels, constraints) ++ 10 ∷ [])) }
{
    text.extend_from_slice(b"problem ")?;
    push_wide(text, labels as u64)?;
    text.push(b' ')?;
    push_wide(text, constraints as u64)?;
    text.push(b'\n')?;
    Ok(())
}

/// Adds the line that says how many lines a derivation has.
fn push_derivation_line(text: &mut Vec<u8>, lines: usize) -> Result<(), NoMemory>
    ensures { OnOk result (text.new.items ≡ text.old.items ++ (derivation_line lines ++ 10 ∷ [])) }
{
    text.extend_from_slice(b"derivation ")?;
    push_wide(text, lines as u64)?;
    text.push(b'\n')?;
    Ok(())
}

fn push_label(text: &mut Vec<u8>, label: &Text) -> Result<(), NoMemory>
    ensures spelled { OnOk result (text.new.items ≡ text.old.items ++ (label_line label.now ++ 10 ∷ [])) }
    ensures utf8 { OnOk result (IsUtf8 label.now) }
{
    text.extend_from_slice(b"v ")?;
    push_text(text, label)?;
    text.push(b'\n')?;
    Ok(())
}

fn push_labels(text: &mut Vec<u8>, labels: &[Text]) -> Result<(), NoMemory>
    ensures spelled { OnOk result (text.new.items ≡ text.old.items ++ flat_map (λ l. label_line l ++ 10 ∷ []) labels.now) }
    ensures utf8 { OnOk result (All IsUtf8 labels.now) }
{
    for label in labels {
        push_label(text, label)?;
    }
    Ok(())
}

fn push_constraint(text: &mut Vec<u8>, constraint: &Constraint) -> Result<(), NoMemory>
    ensures spelled { OnOk result (text.new.items ≡ text.old.items ++ (constraint_line constraint.now ++ 10 ∷ [])) }
    ensures in_type { OnOk result (IsOrigin constraint.now.origin) }
{
    let terms = constraint.terms.items();
    text.extend_from_slice(b"c ")?;
    push_origin(text, terms, &constraint.origin)?;
    text.push(b' ')?;
    push_wide(text, constraint.degree)?;
    push_terms(text, terms)?;
    text.push(b'\n')?;
    Ok(())
}

fn push_constraints(text: &mut Vec<u8>, constraints: &[Constraint]) -> Result<(), NoMemory>
    ensures spelled { OnOk result (text.new.items ≡ text.old.items ++ flat_map (λ c. constraint_line c ++ 10 ∷ []) constraints.now) }
    ensures in_type { OnOk result (All (λ c. IsOrigin c.origin) constraints.now) }
{
    for constraint in constraints {
        push_constraint(text, constraint)?;
    }
    Ok(())
}

fn push_line(text: &mut Vec<u8>, line: &Line) -> Result<(), NoMemory>
    ensures spelled { OnOk result (text.new.items ≡ text.old.items ++ (derived_line line.now ++ 10 ∷ [])) }
    ensures in_type { OnOk result (IsLine line.now) }
{
    text.push(b'l')?;
    push_lits(text, line.clause.items())?;
    text.extend_from_slice(b" ;")?;
    push_hints(text, line.hints.items())?;
    text.push(b'\n')?;
    Ok(())
}

fn push_lines(text: &mut Vec<u8>, lines: &[Line]) -> Result<(), NoMemory>
    ensures spelled { OnOk result (text.new.items ≡ text.old.items ++ flat_map (λ l. derived_line l ++ 10 ∷ []) lines.now) }
    ensures in_type { OnOk result (All IsLine lines.now) }
{
    for line in lines {
        push_line(text, line)?;
    }
    Ok(())
}
