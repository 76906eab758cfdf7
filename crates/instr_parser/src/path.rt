//! The names in a value.

ghost use Rattle.std.specs.Prelude.{◌≡◌, IfOk, filter, codes};
ghost use Rattle.std.specs.List.{list_any};
ghost use Rattle.std.specs.Str.{bytes_eq};
ghost use Rattle.instr_text.specs.Cut.{seen};
ghost use Rattle.instr_parser.specs.Path.{is_kept, name_of, all_names, named_path, pieces_path, path_of};

use crate::form::Fault;
use folder_core::Name;
use instr_text::split;
use osgi_version::{List, NoMemory, Text};
use std::alloc::Global;

/// How many names a value may have.
const MOST_NAMES: usize = 60;

/// The names, or what is amiss with them.
pub(crate) type Names = Result<List<Name>, Fault>;

/// Whether one of the names is `..`.
fn leads_up(pieces: &[&str]) -> bool
    ensures { result ≡ list_any (λ piece. bytes_eq piece.now (codes "..")) pieces.now }
{
    pieces.iter().any(|piece| *piece == "..")
}

/// Whether a piece says something: the empty one and `.` don't.
fn is_kept(piece: &str) -> bool
    ensures { result ≡ is_kept piece.now }
{
    !piece.is_empty() && piece != "."
}

/// The pieces that say something.
fn kept<'a>(alloc: Global, pieces: &[&'a str]) -> Result<Vec<&'a str>, NoMemory>
    ensures { IfOk result (λ names. seen names.items ≡ filter is_kept (seen pieces.now)) }
{
    let mut names = Vec::new(alloc);
    for piece in pieces {
        if is_kept(piece) {
            names.push(*piece)?;
        }
    }
    Ok(names)
}

fn name_of(alloc: Global, text: &str) -> Result<Option<Name>, NoMemory>
    ensures { IfOk result (λ name. name ≡ name_of text.now) }
{
    let text = Text::from_str(alloc, text)?;
    Name::new(&text)
}

/// The names with these texts. None where one is no name.
fn all_names(alloc: Global, texts: &[&str]) -> Result<Option<List<Name>>, NoMemory>
    ensures { IfOk result (λ names. names ≡ all_names (seen texts.now)) }
{
    let mut names = List::new(alloc);
    for text in texts {
        let Some(name) = name_of(alloc, text)? else {
            return Ok(None);
        };
        names.push(name)?;
    }
    Ok(Some(names))
}

/// The same, where there are at most 60.
fn named_path(alloc: Global, texts: &[&str]) -> Result<Names, NoMemory>
    ensures { IfOk result (λ names. names ≡ named_path (seen texts.now)) }
{
    if texts.len() > MOST_NAMES {
        return Ok(Err(Fault::Path));
    }
    match all_names(alloc, texts)? {
        Some(names) => Ok(Ok(names)),
        None => Ok(Err(Fault::Path)),
    }
}

/// The names among the pieces.
fn pieces_path(alloc: Global, pieces: &[&str]) -> Result<Names, NoMemory>
    ensures { IfOk result (λ names. names ≡ pieces_path (seen pieces.now)) }
{
    if leads_up(pieces) {
        return Ok(Err(Fault::Outside));
    }
    let texts = kept(alloc, pieces)?;
    named_path(alloc, &texts)
}

/// The names between the `/` of a text.
#[tactic(auto, unfolding(crate::specs::Path::path_of))]
pub(crate) fn path_of(alloc: Global, text: &str) -> Result<Names, NoMemory>
    ensures { IfOk result (λ names. names ≡ path_of text.now) }
{
    let pieces = split(alloc, text, '/')?;
    pieces_path(alloc, &pieces)
}
