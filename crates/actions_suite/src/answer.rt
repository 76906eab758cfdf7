//! The answer to a row.

ghost use Rattle.std.specs.Prelude.{All, IfOk};
ghost use Rattle.instr_parser.specs.Given.{IsCall};

use crate::line::say;
use crate::random::try_random;
use crate::session::{Performed, Session, perform_all, undo_all};
use crate::shown::{push_refusal, push_steps};
use action_core::Action;
use folder_memory::MemoryFolder;
use folder_rows::{RowFault, push_contents, put, read_touch};
use instr_parser::{Call, calls};
use osgi_version::{List, NoMemory, Text};
use std::alloc::Global;
use suite_row::Row;

/// The id of the native touchpoint.
const NATIVE: &[u8] = b"org.eclipse.equinox.p2.native";

/// The answer to a line, as text.
pub fn answer_line(
    alloc: Global,
    actions: &mut Vec<Box<dyn Action>>,
    folder: &mut MemoryFolder,
    text: &str,
) -> String {
    let mut line = Vec::new(alloc);
    let fault = match answer_text(alloc, actions, folder, text, &mut line) {
        Ok(()) => "",
        Err(RowFault::Spelling) => " misspelled",
        Err(RowFault::NoMemory) => " no-memory",
    };
    let _ = line.extend_from_slice(fault.as_bytes());
    match String::from_utf8(line) {
        Ok(answer) => answer,
        Err(_) => String::new(alloc),
    }
}

fn answer_text(
    alloc: Global,
    actions: &mut Vec<Box<dyn Action>>,
    folder: &mut MemoryFolder,
    text: &str,
    line: &mut Vec<u8>,
) -> Result<(), RowFault> {
    if text.is_empty() || text.starts_with('#') {
        return Ok(
            line.extend_from_slice(text.as_bytes())
                .map_err(NoMemory::from)?,
        );
    }
    match Row::read(alloc, text.as_bytes())? {
        Some(row) => answer(alloc, actions, folder, &row, line),
        None => Err(RowFault::Spelling),
    }
}

fn answer(
    alloc: Global,
    actions: &mut Vec<Box<dyn Action>>,
    folder: &mut MemoryFolder,
    row: &Row,
    line: &mut Vec<u8>,
) -> Result<(), RowFault> {
    match row.word(0) {
        "map" => set_map(alloc, folder, row, line),
        "do" => try_calls(alloc, actions, folder, row, line),
        "random" => try_random(alloc, actions, row, line),
        _ => Err(RowFault::Spelling),
    }
}

/// `map PATH=NODE ..`: all that stands below the root from now on.
fn set_map(
    alloc: Global,
    folder: &mut MemoryFolder,
    row: &Row,
    line: &mut Vec<u8>,
) -> Result<(), RowFault> {
    *folder = MemoryFolder::new(alloc);
    for place in 1..row.len() {
        add_node(alloc, folder, row.word(place))?;
    }
    say(line, "map")?;
    Ok(push_contents(line, folder)?)
}

/// Puts the node that is spelled `PATH=NODE`, where it may stand.
pub fn add_node(alloc: Global, folder: &mut MemoryFolder, spelling: &str) -> Result<(), RowFault> {
    let text = Text::from_str(alloc, spelling)?;
    let touch = read_touch(alloc, &text)?;
    put(folder, &touch.path, touch.node.as_ref());
    Ok(())
}

/// The calls of a text in a unit of the native touchpoint.
pub fn read_calls(alloc: Global, text: &[u8]) -> Result<List<Call>, RowFault>
    ensures { IfOk result (λ calls. All IsCall calls) }
{
    match calls(alloc, text, b"", Some(NATIVE)) {
        Ok(calls) => Ok(calls),
        Err(_) => Err(RowFault::Spelling),
    }
}

/// `do CALLS`: what each call does, or its refusal, and `back` where all is as before once they are undone.
fn try_calls(
    alloc: Global,
    actions: &mut Vec<Box<dyn Action>>,
    folder: &mut MemoryFolder,
    row: &Row,
    line: &mut Vec<u8>,
) -> Result<(), RowFault> {
    let calls = read_calls(alloc, row.field(1).bytes())?;
    let mut session = Session::start(alloc, folder)?;
    let performed = perform_all(&mut session, actions, folder, &calls)?;
    push_performed(line, &performed)?;
    let is_back = undo_all(&mut session, actions, folder)?;
    Ok(say(line, if is_back { "back" } else { "not-back" })?)
}

fn push_performed(line: &mut Vec<u8>, performed: &List<Performed>) -> Result<(), NoMemory> {
    for one in performed.items() {
        match &one.outcome {
            Ok(steps) => push_steps(line, steps)?,
            Err(fault) => push_refusal(line, fault)?,
        }
    }
    Ok(())
}
