//! Values with their variables put in.

ghost use Rattle.std.specs.Prelude.{◌≡◌};
ghost use Rattle.instr_text.specs.Gives.{Gives};
ghost use Rattle.instr_parser.specs.Opened.{parted, opened, opened_seen};

use crate::call::Base;
use instr_text::{InstrRefusal, behind, expand};
use std::alloc::Global;

/// A value behind its base, with what its variables stand for.
#[derive(Debug, Drop)]
pub(crate) struct Opened {
    pub(crate) base: Option<Base>,
    pub(crate) rest: String,
}

/// The base that a value is written with, and what stands behind it.
#[tactic(auto, unfolding(crate::specs::Opened::parted))]
fn part(text: &str) -> (Option<Base>, &str)
    ensures { (result.0, result.1.now) ≡ parted text.now }
{
    if text == "@artifact" {
        return (Some(Base::Artifact), "");
    }
    match behind(text, "${installFolder}") {
        Some(rest) => (Some(Base::Install), rest),
        None => (None, text),
    }
}

/// A value with what its variables stand for.
#[tactic(auto, unfolding(crate::specs::Opened::opened))]
pub(crate) fn open(alloc: Global, text: &str) -> Result<Opened, InstrRefusal>
    ensures { Gives opened_seen result (opened text.now) }
{
    let (base, rest) = part(text);
    let rest = expand(alloc, rest)?;
    Ok(Opened { base, rest })
}
