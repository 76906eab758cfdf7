//! Scripts: what each step answers.

use crate::line::say;
use crate::open::{End, Open};
use crate::quiet::Quiet;
use crate::step::Step;
use backup_store::StoreFault;
use folder_core::{After, Folder, FolderError, Name, Node, Path, Touch};
use folder_rows::{PutAnswer, push_node, push_path, put, word_of};
use install_journal::{Gate, JournalFault, Recovered, TouchFault, read_gate, recover};
use osgi_version::{List, NoMemory, push_field, push_number};
use std::alloc::Global;

/// Goes through the steps, and adds a word for each. A change that is open at the end is abandoned.
pub fn play(alloc: Global, folder: &mut Quiet, steps: &[Step], line: &mut Vec<u8>) {
    let mut open = None;
    for step in steps {
        open = take_step(alloc, folder, open, step, line);
    }
    abandon(alloc, folder, open, line);
}

fn take_step(
    alloc: Global,
    folder: &mut Quiet,
    open: Option<Open>,
    step: &Step,
    line: &mut Vec<u8>,
) -> Option<Open> {
    match step {
        Step::Begin => begin(alloc, folder, open, line),
        Step::Finish => finish(alloc, folder, open, line),
        Step::Abandon => {
            abandon(alloc, folder, open, line);
            None
        }
        Step::Leave => leave(open, line),
        _ => match open {
            Some(mut open) => {
                let _ = call(alloc, folder, &mut open, step, line);
                Some(open)
            }
            None => {
                let _ = act(alloc, folder, step, line);
                None
            }
        },
    }
}

fn begin(
    alloc: Global,
    folder: &mut Quiet,
    open: Option<Open>,
    line: &mut Vec<u8>,
) -> Option<Open> {
    match open {
        Some(open) => {
            let _ = say(line, "begun-already");
            Some(open)
        }
        None => begin_anew(alloc, folder, line),
    }
}

fn begin_anew(alloc: Global, folder: &mut Quiet, line: &mut Vec<u8>) -> Option<Open> {
    if !is_shut(alloc, folder, line) {
        return None;
    }
    match Open::begin(alloc, folder) {
        Ok(open) => {
            let _ = say(line, "begun");
            Some(open)
        }
        Err(fault) => {
            let _ = say_journal_fault(line, &fault);
            None
        }
    }
}

/// Whether the gate is closed. Where it isn't, or can't be read, that is said.
fn is_shut(alloc: Global, folder: &mut Quiet, line: &mut Vec<u8>) -> bool {
    let word = match read_gate(alloc, folder) {
        Ok(Gate::IsClosed) => return true,
        Ok(Gate::IsOpen) => "open",
        Err(error) => word_of(error),
    };
    let _ = say(line, word);
    false
}

fn finish(
    alloc: Global,
    folder: &mut Quiet,
    open: Option<Open>,
    line: &mut Vec<u8>,
) -> Option<Open> {
    let Some(open) = open else {
        let _ = say(line, "no-change");
        return None;
    };
    let (open, word) = match open.finish(alloc, folder) {
        End::Finished => (None, "finished"),
        End::Closing => (None, "closing"),
        End::Kept(open) => (Some(open), "refused"),
        End::HandedBack(open) => (Some(open), "handed-back"),
        End::NoMemory(open) => (Some(open), "no-memory"),
    };
    let _ = say(line, word);
    open
}

fn abandon(alloc: Global, folder: &mut Quiet, open: Option<Open>, line: &mut Vec<u8>) {
    if let Some(open) = open {
        let _ = match open.abandon(alloc, folder) {
            Ok(()) => say(line, "abandoned"),
            Err(fault) => say_journal_fault(line, &fault),
        };
    }
}

fn leave(open: Option<Open>, line: &mut Vec<u8>) -> Option<Open> {
    let Some(open) = open else {
        let _ = say(line, "no-change");
        return None;
    };
    match open.leave() {
        None => {
            let _ = say(line, "left");
            None
        }
        Some(open) => {
            let _ = say(line, "refused");
            Some(open)
        }
    }
}

/// A step while a change is open.
fn call(
    alloc: Global,
    folder: &mut Quiet,
    open: &mut Open,
    step: &Step,
    line: &mut Vec<u8>,
) -> Result<(), NoMemory> {
    match step {
        Step::Touch(touch) => say_touch(alloc, folder, open, touch, line),
        Step::All(touches) => say_all(alloc, folder, open, touches.items(), line),
        Step::Undo(number) => say_undo(alloc, folder, open, *number, line),
        Step::Look(path) => say_look(line, open.look(alloc, folder, path)),
        Step::Kids(path) => say_kids(line, open.kids(alloc, folder, path)),
        _ => act(alloc, folder, step, line),
    }
}

fn say_touch(
    alloc: Global,
    folder: &mut Quiet,
    open: &mut Open,
    touch: &Touch,
    line: &mut Vec<u8>,
) -> Result<(), NoMemory> {
    match open.touch(alloc, folder, touch) {
        None => say(line, "refused"),
        Some(Ok(number)) => {
            say(line, "")?;
            push_number(line, number.0)
        }
        Some(Err(fault)) => say(line, word_of_touch(fault)),
    }
}

fn word_of_touch(fault: TouchFault) -> &'static str {
    match fault {
        TouchFault::Failed => "failed",
        TouchFault::TooManyEntries => "too-many",
        TouchFault::NoMemory => "no-memory",
    }
}

fn say_all(
    alloc: Global,
    folder: &mut Quiet,
    open: &mut Open,
    touches: &[Touch],
    line: &mut Vec<u8>,
) -> Result<(), NoMemory> {
    match open.touch_all(alloc, folder, touches) {
        None => say(line, "refused"),
        Some(Ok(())) => say(line, "all"),
        Some(Err(fault)) => say(line, word_of_touch(fault)),
    }
}

fn say_undo(
    alloc: Global,
    folder: &mut Quiet,
    open: &mut Open,
    number: u32,
    line: &mut Vec<u8>,
) -> Result<(), NoMemory> {
    match open.undo(alloc, folder, number) {
        None => say(line, "refused"),
        Some(Ok(())) => say(line, "undone"),
        Some(Err(fault)) => say_store_fault(line, &fault),
    }
}

fn say_look(line: &mut Vec<u8>, found: Result<Option<Node>, FolderError>) -> Result<(), NoMemory> {
    match found {
        Ok(node) => {
            say(line, "")?;
            push_node(line, node.as_ref())
        }
        Err(error) => say(line, word_of(error)),
    }
}

fn say_kids(line: &mut Vec<u8>, found: Result<List<Name>, FolderError>) -> Result<(), NoMemory> {
    match found {
        Ok(names) => push_kids(line, &names),
        Err(error) => say(line, word_of(error)),
    }
}

/// The names in brackets.
fn push_kids(line: &mut Vec<u8>, names: &List<Name>) -> Result<(), NoMemory> {
    say(line, "(")?;
    for (place, name) in names.items().iter().enumerate() {
        if place > 0 {
            line.push(b' ')?;
        }
        push_field(line, name.text().bytes())?;
    }
    line.push(b')')?;
    Ok(())
}

/// A step that needs no open change.
fn act(alloc: Global, folder: &mut Quiet, step: &Step, line: &mut Vec<u8>) -> Result<(), NoMemory> {
    match step {
        Step::Recover => say_recovered(alloc, folder, line),
        Step::Gate => say_gate(alloc, folder, line),
        Step::Sync => say_sync(folder, line),
        Step::Fuse(passes) => {
            folder.inner.fuse(*passes);
            Ok(())
        }
        Step::Fail(call) => fail_at(alloc, folder, *call),
        Step::Put(touch) => say_put(folder, touch, line),
        _ => say(line, "no-change"),
    }
}

fn fail_at(alloc: Global, folder: &mut Quiet, call: u64) -> Result<(), NoMemory> {
    let mut calls = List::new(alloc);
    calls.push(call)?;
    folder.inner.fail_at(calls);
    Ok(())
}

fn say_put(folder: &mut Quiet, touch: &Touch, line: &mut Vec<u8>) -> Result<(), NoMemory> {
    match put(&mut folder.inner, &touch.path, touch.node.as_ref()) {
        PutAnswer::Done => say(line, "put"),
        PutAnswer::Refused => say(line, "refused"),
        PutAnswer::Failed(error) => say(line, word_of(error)),
    }
}

fn say_sync(folder: &mut Quiet, line: &mut Vec<u8>) -> Result<(), NoMemory> {
    match folder.sync() {
        Ok(()) => say(line, "synced"),
        Err(_) => say(line, "failed"),
    }
}

fn say_gate(alloc: Global, folder: &mut Quiet, line: &mut Vec<u8>) -> Result<(), NoMemory> {
    match read_gate(alloc, folder) {
        Ok(Gate::IsOpen) => say(line, "open"),
        Ok(Gate::IsClosed) => say(line, "closed"),
        Err(error) => say(line, word_of(error)),
    }
}

fn say_recovered(alloc: Global, folder: &mut Quiet, line: &mut Vec<u8>) -> Result<(), NoMemory> {
    match recover(alloc, folder) {
        Ok(Recovered::Nothing) => say(line, "nothing"),
        Ok(Recovered::Entries(count)) => {
            say(line, "recovered-")?;
            push_number(line, count)
        }
        Err(fault) => say_journal_fault(line, &fault),
    }
}

pub fn say_store_fault(line: &mut Vec<u8>, fault: &StoreFault) -> Result<(), NoMemory> {
    match fault {
        StoreFault::Failed => say(line, "failed"),
        StoreFault::Damaged { path } => say_damaged(line, path),
        StoreFault::NoMemory => say(line, "no-memory"),
    }
}

fn say_damaged(line: &mut Vec<u8>, path: &Path) -> Result<(), NoMemory> {
    say(line, "damaged:")?;
    push_path(line, path)
}

fn say_journal_fault(line: &mut Vec<u8>, fault: &JournalFault) -> Result<(), NoMemory> {
    match fault {
        JournalFault::Failed(after) => say(line, failed(*after)),
        JournalFault::Damaged { path } => say_damaged(line, path),
        JournalFault::NoMemory(_) => say(line, "no-memory"),
    }
}

fn failed(after: After) -> &'static str {
    match after {
        After::Unchanged => "failed-unchanged",
        After::Recover => "failed-recover",
        After::Either => "failed-either",
    }
}
