ghost use Rattle.std.specs.Prelude.{◌≡◌, length, IfOk};
ghost use Rattle.std.specs.Str.{IsUtf8};
ghost use Rattle.pb_core.specs.Normal.{AreAmong};
ghost use Rattle.deriv_check.specs.Colon.{NoColon};
ghost use Rattle.deriv_check.specs.EvidenceForm.{IsOriginOver};
ghost use Rattle.deriv_check.specs.EvidenceText.{origin_word};
ghost use Rattle.deriv_check.specs.Reading.{Reading};

use crate::colon::{cut_at_colon, read_pair};
use crate::field_reader::read_field;
use osgi_version::{NoMemory, Text, Twin};
use pb_core::{Origin, Term};
use std::alloc::Global;

/// Reads what a constraint with these terms stands for.
pub(crate) fn read_origin(
    alloc: Global,
    labels: &[Text],
    terms: &[Term],
    word: &[u8],
) -> Result<Option<Origin>, NoMemory>
    requires { AreAmong (length labels.now) terms.now }
    ensures { IfOk result (Reading (IsOriginOver labels.now terms.now) (origin_word terms.now) word.now) }
{
    let Some((kind, rest)) = cut_at_colon(word) else {
        return read_root(labels, terms, word);
    };
    if kind == b"root".as_slice() && terms.is_empty() {
        let Some(label) = read_field(alloc, rest)? else {
            return Ok(None);
        };
        return Ok(Some(Origin::Root(label)));
    }
    if kind == b"one".as_slice() {
        let Some(id) = read_field(alloc, rest)? else {
            return Ok(None);
        };
        return Ok(Some(Origin::One(id)));
    }
    if kind == b"need".as_slice() {
        let Some((variable, row)) = read_pair(alloc, rest)? else {
            return Ok(None);
        };
        return Ok(Some(Origin::Need { variable, row }));
    }
    if kind == b"most".as_slice() {
        let Some((variable, row)) = read_pair(alloc, rest)? else {
            return Ok(None);
        };
        return Ok(Some(Origin::Most { variable, row }));
    }
    Ok(None)
}

/// Reads the origin of a root's constraint of one term.
fn read_root(labels: &[Text], terms: &[Term], word: &[u8]) -> Result<Option<Origin>, NoMemory>
    requires among { AreAmong (length labels.now) terms.now }
    requires uncut { NoColon word.now }
    ensures { IfOk result (Reading (IsOriginOver labels.now terms.now) (origin_word terms.now) word.now) }
{
    if word != b"root".as_slice() {
        return Ok(None);
    }
    if terms.len() != 1 {
        return Ok(None);
    }
    let variable = terms[0].lit.variable;
    let label = copy_text(&labels[variable as usize - 1])?;
    Ok(Some(Origin::Root(label)))
}

fn copy_text(text: &Text) -> Result<Text, NoMemory>
    ensures same { IfOk result (λ copied. copied ≡ text.now) }
    ensures utf8 { IsUtf8 text.now }
{
    let _bytes = text.bytes();
    text.copy()
}
