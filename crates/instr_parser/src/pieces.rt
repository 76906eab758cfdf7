//! The calls of a text, piece by piece.

ghost use Rattle.std.specs.Prelude.{◌≡◌, ◌≤◌, ◌+◌, ◌^◌, length, All, IfOk};
ghost use Rattle.std.specs.Option.{option_map};
ghost use Rattle.instr_text.specs.Cut.{seen, sizes};
ghost use Rattle.instr_text.specs.Gives.{Gives};
ghost use Rattle.instr_text.specs.Piece.{parts_seen};
ghost use Rattle.instr_parser.specs.Given.{IsCall};
ghost use Rattle.instr_parser.specs.Calls.{call_of, call_at, piece_call, calls_from, calls_of};

use crate::call::Call;
use crate::naming::{kind_of, plain_kinds};
use crate::params::read_call;
use instr_text::{InstrRefusal, Piece, read_piece, split_bytes, trim_bytes};
use osgi_version::List;
use std::alloc::Global;

/// The call that a piece is.
#[tactic(auto, unfolding(crate::specs::Calls::call_of))]
fn call_of(alloc: Global, plain: &[u16], piece: &Piece<'_>) -> Result<Call, InstrRefusal>
    ensures { Gives (λ call. call) result (call_of plain.now (piece.now.name.now, parts_seen piece.now.parts.items)) }
{
    let kind = kind_of(alloc, plain, piece.name)?;
    read_call(alloc, kind, &piece.parts)
}

/// The call in bytes without white space at their ends, which stand in the piece that begins behind `at` bytes.
#[tactic(auto, unfolding(crate::specs::Calls::call_at))]
fn call_at(alloc: Global, plain: &[u16], at: u64, bytes: &[u8]) -> Result<Call, InstrRefusal>
    ensures { Gives (λ call. call) result (call_at plain.now at bytes.now) }
{
    match read_piece(alloc, bytes)? {
        Some(piece) => call_of(alloc, plain, &piece),
        None => Err(InstrRefusal::BadSyntax { at }),
    }
}

/// The same of a piece as it is written. None where it is empty.
#[tactic(auto, unfolding(crate::specs::Calls::piece_call))]
fn piece_call(
    alloc: Global,
    plain: &[u16],
    at: u64,
    piece: &[u8],
) -> Result<Option<Call>, InstrRefusal>
    ensures { Gives (λ call. call) result (piece_call plain.now at piece.now) }
{
    let bytes = trim_bytes(piece);
    if bytes.is_empty() {
        return Ok(None);
    }
    let call = call_at(alloc, plain, at, bytes)?;
    Ok(Some(call))
}

fn read_pieces(alloc: Global, plain: &[u16], pieces: &[&[u8]]) -> Result<List<Call>, InstrRefusal>
    requires { sizes (seen pieces.now) ≤ 2 ^ 63 }
    ensures { Gives (λ calls. calls) result (calls_from plain.now 0 (seen pieces.now)) }
{
    let mut calls = List::new(alloc);
    let mut at: u64 = 0;
    for piece in pieces {
        if let Some(call) = piece_call(alloc, plain, at, piece)? {
            calls.push(call)?;
        }
        at += piece.len() as u64 + 1;
    }
    Ok(calls)
}

/// The calls that an instruction's text makes, in a unit with these imports and this touchpoint, or why the text is
/// refused. Takes time in line with the text and the imports.
pub fn calls(
    alloc: Global,
    text: &[u8],
    imports: &[u8],
    touchpoint: Option<&[u8]>,
) -> Result<List<Call>, InstrRefusal>
    ensures read { Gives (λ calls. calls) result (calls_of text.now imports.now (option_map (λ id. id.now) touchpoint.entry)) }
    // Each has the parameters that its kind takes, with values in their forms.
    ensures given { IfOk result (λ calls. All IsCall calls) }
{
    let plain = plain_kinds(alloc, imports, touchpoint)?;
    let pieces = split_bytes(alloc, text, b';')?;
    read_pieces(alloc, &plain, &pieces)
}
