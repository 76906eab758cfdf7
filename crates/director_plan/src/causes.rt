//! What the constraints of a problem stand for. After an `Err` the lines are of no use.
ghost use Rattle.std.specs.Prelude.{◌≡◌, ◌++◌, ◌∷◌, [], ◌<◌, ◌≤◌, length, All, OnOk};
ghost use Rattle.std.specs.Fmt.{decimal};
ghost use Rattle.osgi_version.specs.Field.{field};
ghost use Rattle.deriv_check.specs.EvidenceForm.{label_at};
ghost use Rattle.director_plan.specs.EvidenceLines.{IsLabelled, cause_line, because_line, because_lines};

use osgi_version::{NoMemory, Text, push_field, push_number};
use pb_core::{Origin, Problem};

/// Adds a word and a name.
fn push_named(lines: &mut Vec<u8>, word: &[u8], name: &Text) -> Result<(), NoMemory>
    ensures { OnOk result (lines.new.items ≡ lines.old.items ++ ((word.now ++ field name.now) ++ 10 ∷ [])) }
{
    lines.extend_from_slice(word)?;
    push_field(lines, name.bytes())?;
    lines.push(b'\n')?;
    Ok(())
}

/// Adds a word, a name and the number of a row.
fn push_row(lines: &mut Vec<u8>, word: &[u8], name: &Text, row: u32) -> Result<(), NoMemory>
    ensures { OnOk result (lines.new.items ≡ lines.old.items ++ ((word.now ++ (field name.now ++ 32 ∷ decimal row)) ++ 10 ∷ [])) }
{
    lines.extend_from_slice(word)?;
    push_field(lines, name.bytes())?;
    lines.push(b' ')?;
    push_number(lines, row)?;
    lines.push(b'\n')?;
    Ok(())
}

/// Adds the line of an origin.
fn push_cause(lines: &mut Vec<u8>, labels: &[Text], origin: &Origin) -> Result<(), NoMemory>
    requires { IsLabelled (length labels.now) origin.now }
    ensures { OnOk result (lines.new.items ≡ lines.old.items ++ (cause_line labels.now origin.now ++ 10 ∷ [])) }
{
    match origin {
        Origin::Root(label) => push_named(lines, b"because root ", label),
        Origin::Need { variable, row } => {
            push_row(lines, b"because need ", label_of(labels, *variable), *row)
        }
        Origin::Most { variable, row } => {
            push_row(lines, b"because most ", label_of(labels, *variable), *row)
        }
        Origin::One(id) => push_named(lines, b"because one ", id),
    }
}

/// The label of a variable, from 1.
fn label_of(labels: &[Text], variable: u32) -> &Text
    requires some { 0 < variable }
    requires within { variable ≤ length labels.now }
    ensures { result.now ≡ label_at labels.now variable }
{
    &labels[variable as usize - 1]
}

/// Adds the line of the constraint with this number, from 1.
fn push_because(lines: &mut Vec<u8>, problem: &Problem, number: u32) -> Result<(), NoMemory>
    requires some { 0 < number }
    requires within { number ≤ length problem.now.constraints }
    requires labelled { All (λ c. IsLabelled (length problem.now.labels) c.origin) problem.now.constraints }
    ensures { OnOk result (lines.new.items ≡ lines.old.items ++ (because_line problem.now number ++ 10 ∷ [])) }
{
    let constraint = &problem.constraints.items()[number as usize - 1];
    push_cause(lines, problem.labels.items(), &constraint.origin)
}

/// Adds a line for each of the constraints with these numbers.
pub(crate) fn push_causes(
    lines: &mut Vec<u8>,
    problem: &Problem,
    numbers: &[u32],
) -> Result<(), NoMemory>
    requires within { All (λ n. (0 < n) × (n ≤ length problem.now.constraints)) numbers.now }
    requires labelled { All (λ c. IsLabelled (length problem.now.labels) c.origin) problem.now.constraints }
    ensures { OnOk result (lines.new.items ≡ lines.old.items ++ because_lines problem.now numbers.now) }
{
    for number in numbers {
        push_because(lines, problem, *number)?;
    }
    Ok(())
}
