//! Words and lists of words, added to a line. After an `Err` the line is of no use.
ghost use Rattle.std.specs.Prelude.{◌≡◌, ◌∷◌, ◌++◌, All, OnOk};
ghost use Rattle.std.specs.Fmt.{decimal};
ghost use Rattle.std.specs.List.{flat_map};
ghost use Rattle.std.specs.Str.{IsUtf8};
ghost use Rattle.osgi_version.specs.Field.{field};
ghost use Rattle.deriv_check.specs.EvidenceForm.{IsLiteral, IsHint, IsOrigin};
ghost use Rattle.deriv_check.specs.EvidenceText.{lit_word, term_word, pair_word, root_word, origin_word};

use osgi_version::{NoMemory, Text, push_field, push_number};
use pb_core::{Lit, Origin, Term};

/// Adds a number of 64 bits in decimal digits.
pub(crate) fn push_wide(line: &mut Vec<u8>, number: u64) -> Result<(), NoMemory>
    ensures { OnOk result (line.new.items ≡ line.old.items ++ decimal number) }
{
    let digits = number.to_string(*line.allocator())?;
    line.extend_from_slice(digits.as_bytes())?;
    Ok(())
}

fn push_lit(line: &mut Vec<u8>, lit: Lit) -> Result<(), NoMemory>
    ensures spelled { OnOk result (line.new.items ≡ line.old.items ++ lit_word lit) }
    ensures in_type { IsLiteral lit }
{
    if lit.positive {
        return push_number(line, lit.variable);
    }
    line.push(b'-')?;
    push_number(line, lit.variable)
}

/// Adds a blank and a literal, for each.
pub(crate) fn push_lits(line: &mut Vec<u8>, lits: &[Lit]) -> Result<(), NoMemory>
    ensures spelled { OnOk result (line.new.items ≡ line.old.items ++ flat_map (λ l. 32 ∷ lit_word l) lits.now) }
    ensures in_type { OnOk result (All IsLiteral lits.now) }
{
    for lit in lits {
        line.push(b' ')?;
        push_lit(line, *lit)?;
    }
    Ok(())
}

/// Adds a blank and a hint, for each.
pub(crate) fn push_hints(line: &mut Vec<u8>, hints: &[u32]) -> Result<(), NoMemory>
    ensures spelled { OnOk result (line.new.items ≡ line.old.items ++ flat_map (λ h. 32 ∷ decimal h) hints.now) }
    ensures in_type { OnOk result (All IsHint hints.now) }
{
    for hint in hints {
        line.push(b' ')?;
        push_number(line, *hint)?;
    }
    Ok(())
}

fn push_term(line: &mut Vec<u8>, term: &Term) -> Result<(), NoMemory>
    ensures { OnOk result (line.new.items ≡ line.old.items ++ term_word term.now) }
{
    push_wide(line, term.coef)?;
    line.push(b':')?;
    push_lit(line, term.lit)
}

/// Adds a blank and a term, for each.
pub(crate) fn push_terms(line: &mut Vec<u8>, terms: &[Term]) -> Result<(), NoMemory>
    ensures { OnOk result (line.new.items ≡ line.old.items ++ flat_map (λ t. 32 ∷ term_word t) terms.now) }
{
    for term in terms {
        line.push(b' ')?;
        push_term(line, term)?;
    }
    Ok(())
}

/// Adds a text as a field.
pub(crate) fn push_text(line: &mut Vec<u8>, text: &Text) -> Result<(), NoMemory>
    ensures spelled { OnOk result (line.new.items ≡ line.old.items ++ field text.now) }
    ensures utf8 { OnOk result (IsUtf8 text.now) }
{
    push_field(line, text.bytes())
}

/// Adds what a constraint with these terms stands for.
pub(crate) fn push_origin(
    line: &mut Vec<u8>,
    terms: &[Term],
    origin: &Origin,
) -> Result<(), NoMemory>
    ensures spelled { OnOk result (line.new.items ≡ line.old.items ++ origin_word terms.now origin.now) }
    ensures in_type { OnOk result (IsOrigin origin.now) }
{
    match origin {
        Origin::Root(label) => push_root(line, terms, label),
        Origin::Need { variable, row } => push_row(line, b"need:", *variable, *row),
        Origin::Most { variable, row } => push_row(line, b"most:", *variable, *row),
        Origin::One(id) => {
            line.extend_from_slice(b"one:")?;
            push_text(line, id)
        }
    }
}

fn push_root(line: &mut Vec<u8>, terms: &[Term], label: &Text) -> Result<(), NoMemory>
    ensures spelled { OnOk result (line.new.items ≡ line.old.items ++ root_word label.now terms.now) }
    ensures utf8 { OnOk result (IsUtf8 label.now) }
{
    line.extend_from_slice(b"root")?;
    if !terms.is_empty() {
        let _bytes = label.bytes();
        return Ok(());
    }
    line.push(b':')?;
    push_text(line, label)
}

fn push_row(line: &mut Vec<u8>, kind: &[u8], variable: u32, row: u32) -> Result<(), NoMemory>
    ensures { OnOk result (line.new.items ≡ line.old.items ++ (kind.now ++ pair_word variable row)) }
{
    line.extend_from_slice(kind)?;
    push_number(line, variable)?;
    line.push(b':')?;
    push_number(line, row)
}
