//! Sequences of calls over small maps, both made by a fixed rule from a seed.

use crate::answer::{add_node, read_calls};
use crate::dice::Dice;
use crate::line::{say, say_number};
use crate::session::{Performed, Session, perform_all, undo_all};
use action_core::Action;
use folder_memory::MemoryFolder;
use folder_rows::RowFault;
use osgi_version::{List, NoMemory};
use std::alloc::Global;
use suite_row::Row;

// How many nodes are tried for a map. One that can't stand where it is tried is left out.
const MOST_NODES: u32 = 14;

const CALLS: u32 = 8;

/// What came of the sequences.
#[derive(Drop)]
struct Tally {
    /// Of how many all was as before once they were undone.
    back: u32,
    /// The kinds of calls that did something.
    done: Vec<u16>,
    /// The kinds of calls that were refused.
    refused: Vec<u16>,
}

/// `random SEED COUNT`: so many sequences, from this seed on.
pub fn try_random(
    alloc: Global,
    actions: &mut Vec<Box<dyn Action>>,
    row: &Row,
    line: &mut Vec<u8>,
) -> Result<(), RowFault> {
    let (Some(seed), Some(count)) = (row.number(1), row.number(2)) else {
        return Err(RowFault::Spelling);
    };
    let tally = tally_of(alloc, actions, seed, count)?;
    Ok(say_tally(line, &tally)?)
}

fn tally_of(
    alloc: Global,
    actions: &mut Vec<Box<dyn Action>>,
    seed: u64,
    count: u64,
) -> Result<Tally, RowFault> {
    let mut tally = Tally {
        back: 0,
        done: Vec::new(alloc),
        refused: Vec::new(alloc),
    };
    for more in 0..count {
        let mut dice = Dice::new(seed.wrapping_add(more));
        try_one(alloc, actions, &mut dice, &mut tally)?;
    }
    Ok(tally)
}

fn say_tally(line: &mut Vec<u8>, tally: &Tally) -> Result<(), NoMemory> {
    say_number(line, u64::from(tally.back))?;
    say(line, "back")?;
    say_number(line, tally.done.len() as u64)?;
    say(line, "kinds done")?;
    say_number(line, tally.refused.len() as u64)?;
    say(line, "refused")
}

fn try_one(
    alloc: Global,
    actions: &mut Vec<Box<dyn Action>>,
    dice: &mut Dice,
    tally: &mut Tally,
) -> Result<(), RowFault> {
    let mut folder = MemoryFolder::new(alloc);
    fill(alloc, &mut folder, dice)?;
    let text = calls_text(alloc, dice)?;
    if is_back(alloc, actions, &mut folder, text.as_bytes(), tally)? {
        tally.back = tally.back.saturating_add(1);
    }
    Ok(())
}

fn is_back(
    alloc: Global,
    actions: &mut Vec<Box<dyn Action>>,
    folder: &mut MemoryFolder,
    text: &[u8],
    tally: &mut Tally,
) -> Result<bool, RowFault> {
    let calls = read_calls(alloc, text)?;
    let mut session = Session::start(alloc, folder)?;
    let performed = perform_all(&mut session, actions, folder, &calls)?;
    count_kinds(tally, &performed)?;
    Ok(undo_all(&mut session, actions, folder)?)
}

fn count_kinds(tally: &mut Tally, performed: &List<Performed>) -> Result<(), NoMemory> {
    for one in performed.items() {
        match &one.outcome {
            Ok(steps) if steps.is_empty() => {}
            Ok(_) => add_kind(&mut tally.done, one.kind.0)?,
            Err(_) => add_kind(&mut tally.refused, one.kind.0)?,
        }
    }
    Ok(())
}

fn add_kind(kinds: &mut Vec<u16>, kind: u16) -> Result<(), NoMemory> {
    if !kinds.as_slice().contains(&kind) {
        kinds.push(kind)?;
    }
    Ok(())
}

/// The profile's folder, an artifact in the pool, and some nodes below the folder.
fn fill(alloc: Global, folder: &mut MemoryFolder, dice: &mut Dice) -> Result<(), RowFault> {
    for node in [
        "installs=dir",
        "installs/ide=dir",
        "pool=dir",
        "pool/osgi.bundle=dir",
    ] {
        add_node(alloc, folder, node)?;
    }
    if dice.roll(2) == 0 {
        add_node(alloc, folder, "pool/osgi.bundle/a_1.0.0=#z")?;
    } else {
        add_node(alloc, folder, "pool/osgi.bundle/a_1.0.0=dir")?;
        add_node(alloc, folder, "pool/osgi.bundle/a_1.0.0/a=755#z")?;
        add_node(alloc, folder, "pool/osgi.bundle/a_1.0.0/b=>a")?;
    }
    for _ in 0..MOST_NODES {
        let node = node_text(alloc, dice)?;
        add_node(alloc, folder, node.as_str())?;
    }
    Ok(())
}

/// `PATH=NODE` with a path of one to three names below the profile's folder.
fn node_text(alloc: Global, dice: &mut Dice) -> Result<String, NoMemory> {
    let mut text = String::new(alloc);
    text.push_str("installs/ide")?;
    for _ in 0..=dice.roll(3) {
        push_name(&mut text, dice)?;
    }
    text.push_str(match dice.roll(6) {
        0 => "=#x",
        1 => "=755#y",
        2 => "=>a",
        _ => "=dir",
    })?;
    Ok(text)
}

fn push_name(text: &mut String, dice: &mut Dice) -> Result<(), NoMemory> {
    text.push_str(match dice.roll(3) {
        0 => "/a",
        1 => "/b",
        _ => "/c",
    })?;
    Ok(())
}

fn calls_text(alloc: Global, dice: &mut Dice) -> Result<String, NoMemory> {
    let mut text = String::new(alloc);
    for _ in 0..CALLS {
        push_call(&mut text, dice)?;
    }
    Ok(text)
}

fn push_call(text: &mut String, dice: &mut Dice) -> Result<(), NoMemory> {
    match dice.roll(9) {
        0 => push_path_call(text, dice, "mkdir(path:"),
        1 => push_path_call(text, dice, "rmdir(path:"),
        2 => push_path_call(text, dice, "remove(path:"),
        3 | 4 => push_copy(text, dice),
        5 | 6 => push_clean_up(text, dice),
        7 => push_mode(text, dice),
        _ => push_link(text, dice),
    }
}

/// A place of up to three names.
fn push_place(text: &mut String, dice: &mut Dice) -> Result<(), NoMemory> {
    text.push_str("${installFolder}")?;
    for _ in 0..dice.roll(4) {
        push_name(text, dice)?;
    }
    Ok(())
}

fn push_path_call(text: &mut String, dice: &mut Dice, front: &str) -> Result<(), NoMemory> {
    text.push_str(front)?;
    push_place(text, dice)?;
    text.push_str(");")?;
    Ok(())
}

/// A source and a target, of few, so that a later call often has the same.
fn push_copied(text: &mut String, dice: &mut Dice) -> Result<(), NoMemory> {
    text.push_str(match dice.roll(3) {
        0 => "(source:@artifact,target:",
        1 => "(source:${installFolder}/a,target:",
        _ => "(source:${installFolder}/b,target:",
    })?;
    text.push_str(match dice.roll(3) {
        0 => "${installFolder}/c",
        1 => "${installFolder}/b/c",
        _ => "${installFolder}/a/a",
    })?;
    Ok(())
}

fn push_copy(text: &mut String, dice: &mut Dice) -> Result<(), NoMemory> {
    text.push_str("copy")?;
    push_copied(text, dice)?;
    text.push_str(match dice.roll(2) {
        0 => ",overwrite:true);",
        _ => ");",
    })?;
    Ok(())
}

fn push_clean_up(text: &mut String, dice: &mut Dice) -> Result<(), NoMemory> {
    text.push_str("cleanupcopy")?;
    push_copied(text, dice)?;
    text.push_str(");")?;
    Ok(())
}

fn push_mode(text: &mut String, dice: &mut Dice) -> Result<(), NoMemory> {
    text.push_str("chmod(targetDir:")?;
    push_place(text, dice)?;
    text.push_str(match dice.roll(2) {
        0 => ",targetFile:a,permissions:755);",
        _ => ",targetFile:b/c,permissions:600);",
    })?;
    Ok(())
}

fn push_link(text: &mut String, dice: &mut Dice) -> Result<(), NoMemory> {
    text.push_str("ln(targetDir:")?;
    push_place(text, dice)?;
    text.push_str(match dice.roll(2) {
        0 => ",linkTarget:../t,linkName:a);",
        _ => ",linkTarget:b,linkName:c/b);",
    })?;
    Ok(())
}
