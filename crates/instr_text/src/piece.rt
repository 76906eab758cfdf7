//! The pieces of an instruction's text.

ghost use Rattle.std.specs.Prelude.{◌≡◌, IfOk};
ghost use Rattle.std.specs.Option.{option_map};
ghost use Rattle.instr_text.specs.Piece.{part_of, parts_of, params_of, written_piece, piece_of, part_seen, parts_seen};
ghost use Rattle.instr_text.specs.Cut.{seen};

use crate::cut::{before_closing, cut, split, trim};
use osgi_version::NoMemory;
use std::alloc::Global;

/// A parameter as it is written.
#[derive(Clone, Copy, Debug)]
pub struct Part<'a> {
    pub key: &'a str,
    pub value: &'a str,
}

/// A call as it is written: the name of the action and the parameters.
#[derive(Debug, Drop)]
pub struct Piece<'a> {
    pub name: &'a str,
    pub parts: Vec<Part<'a>>,
}

/// The parameter that a text is.
#[tactic(auto, unfolding(crate::specs::Piece::part_of))]
fn part_of(text: &str) -> Option<Part<'_>>
    ensures { option_map part_seen result ≡ part_of text.now }
{
    let (key, value) = cut(text, ':')?;
    let key = trim(key);
    if key.is_empty() {
        return None;
    }
    let value = trim(value);
    Some(Part { key, value })
}

/// The parameters that the texts are. None where one of them isn't one.
fn parts_of<'a>(alloc: Global, texts: &[&'a str]) -> Result<Option<Vec<Part<'a>>>, NoMemory>
    ensures { IfOk result (λ parts. option_map (λ ps. parts_seen ps.items) parts ≡ parts_of (seen texts.now)) }
{
    let mut parts = Vec::new(alloc);
    for text in texts {
        let Some(part) = part_of(text) else {
            return Ok(None);
        };
        parts.push(part)?;
    }
    Ok(Some(parts))
}

/// The parameters between the parentheses.
#[tactic(auto, unfolding(crate::specs::Piece::params_of))]
fn params_of(alloc: Global, text: &str) -> Result<Option<Vec<Part<'_>>>, NoMemory>
    ensures { IfOk result (λ parts. option_map (λ ps. parts_seen ps.items) parts ≡ params_of text.now) }
{
    if trim(text).is_empty() {
        return Ok(Some(Vec::new(alloc)));
    }
    let texts = split(alloc, text, ',')?;
    parts_of(alloc, &texts)
}

/// The piece that a text without white space at its ends is.
#[tactic(auto, unfolding(crate::specs::Piece::written_piece))]
fn written_piece(alloc: Global, text: &str) -> Result<Option<Piece<'_>>, NoMemory>
    ensures { IfOk result (λ piece. option_map (λ p. (p.name.now, parts_seen p.parts.items)) piece ≡ written_piece text.now) }
{
    let Some((name, behind)) = cut(text, '(') else {
        return Ok(None);
    };
    let Some(params) = before_closing(behind) else {
        return Ok(None);
    };
    let name = trim(name);
    if name.is_empty() {
        return Ok(None);
    }
    match params_of(alloc, params)? {
        Some(parts) => Ok(Some(Piece { name, parts })),
        None => Ok(None),
    }
}

/// The piece that bytes without white space at their ends are.
#[tactic(auto, unfolding(crate::specs::Piece::piece_of))]
pub fn read_piece(alloc: Global, bytes: &[u8]) -> Result<Option<Piece<'_>>, NoMemory>
    ensures { IfOk result (λ piece. option_map (λ p. (p.name.now, parts_seen p.parts.items)) piece ≡ piece_of bytes.now) }
{
    match str::from_utf8(bytes) {
        Ok(text) => written_piece(alloc, text),
        Err(_) => Ok(None),
    }
}
