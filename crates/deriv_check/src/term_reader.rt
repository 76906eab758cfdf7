ghost use Rattle.std.specs.Prelude.{◌≡◌, IfOk, IfSome, option_map};
ghost use Rattle.std.specs.Fmt.{decimal};
ghost use Rattle.deriv_check.specs.EvidenceForm.{IsHint, IsLiteral};
ghost use Rattle.deriv_check.specs.EvidenceText.{lit_word, term_word};
ghost use Rattle.deriv_check.specs.Terms.{IsTerm};
ghost use Rattle.deriv_check.specs.Reading.{Reading, IsFront, seen};

use crate::colon::cut_at_colon;
use crate::numbers::{read_number, read_small};
use osgi_version::{List, NoMemory};
use pb_core::{Lit, Term};
use std::alloc::Global;

/// Reads a variable's number, with `-` before it where the literal is negative.
pub(crate) fn read_lit(alloc: Global, word: &[u8]) -> Result<Option<Lit>, NoMemory>
    ensures { IfOk result (Reading IsLiteral lit_word word.now) }
{
    match word.strip_prefix(b"-".as_slice()) {
        Some(digits) => read_signed(alloc, digits, false),
        None => read_signed(alloc, word, true),
    }
}

/// Reads the number of a literal's variable.
fn read_signed(alloc: Global, digits: &[u8], positive: bool) -> Result<Option<Lit>, NoMemory>
    ensures variable { IfOk result (λ found. Reading IsHint decimal digits.now (option_map (λ lit. lit.variable) found)) }
    ensures sign { IfOk result (λ found. IfSome found (λ lit. lit.positive ≡ positive)) }
{
    let Some(variable) = read_small(alloc, digits)? else {
        return Ok(None);
    };
    Ok(Some(Lit { variable, positive }))
}

/// Reads `COEFFICIENT:LITERAL`.
fn read_term(alloc: Global, word: &[u8]) -> Result<Option<Term>, NoMemory>
    ensures { IfOk result (Reading IsTerm term_word word.now) }
{
    let Some((before, behind)) = cut_at_colon(word) else {
        return Ok(None);
    };
    let Some(coef) = read_number(alloc, before)? else {
        return Ok(None);
    };
    let Some(lit) = read_lit(alloc, behind)? else {
        return Ok(None);
    };
    Ok(Some(Term { coef, lit }))
}

/// The literals that the words begin with.
pub(crate) fn front_lits(alloc: Global, words: &[&[u8]]) -> Result<List<Lit>, NoMemory>
    ensures { IfOk result (IsFront IsLiteral lit_word (seen words.now)) }
{
    let mut found = List::new(alloc);
    for word in words {
        let Some(lit) = read_lit(alloc, word)? else {
            return Ok(found);
        };
        found.push(lit)?;
    }
    Ok(found)
}

/// The terms that the words begin with.
pub(crate) fn front_terms(alloc: Global, words: &[&[u8]]) -> Result<List<Term>, NoMemory>
    ensures { IfOk result (IsFront IsTerm term_word (seen words.now)) }
{
    let mut found = List::new(alloc);
    for word in words {
        let Some(term) = read_term(alloc, word)? else {
            return Ok(found);
        };
        found.push(term)?;
    }
    Ok(found)
}

/// The hints that the words begin with.
pub(crate) fn front_hints(alloc: Global, words: &[&[u8]]) -> Result<List<u32>, NoMemory>
    ensures { IfOk result (IsFront IsHint decimal (seen words.now)) }
{
    let mut found = List::new(alloc);
    for word in words {
        let Some(hint) = read_small(alloc, word)? else {
            return Ok(found);
        };
        found.push(hint)?;
    }
    Ok(found)
}
