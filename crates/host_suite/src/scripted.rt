//! Which calls a folder makes of its host, in which order, and what it answers where one of them fails.

ghost use Rattle.std.specs.Prelude.{◌≡◌, None};

use crate::folders::{put, word_of_answer};
use crate::lines::{push, push_count, text_of};
use crate::script::{Host, Script};
use folder_core::{Folder, FolderError, Node, Path};
use folder_rows::{RowFault, read_node, read_path};
use host_adapters::HostFolder;
use osgi_version::NoMemory;
use std::alloc::Global;
use suite_row::Row;

/// Where the calls of `each` begin, and those of `once`.
const EACH: usize = 5;

const ONCE: usize = 6;

/// What a folder is asked for: to put a node, or to take one away, and then to sync so often.
#[derive(Drop)]
struct Asked {
    path: Path,
    node: Option<Node>,
    syncs: u64,
}

/// `NODE ROOT PATH SYNCS`, behind the row's first word.
fn read_asked(alloc: Global, row: &Row) -> Result<Asked, RowFault> {
    let Some(syncs) = row.number(4) else {
        return Err(RowFault::Spelling);
    };
    let path = read_path(alloc, row.field(3))?;
    let node = read_node(alloc, row.field(1))?;
    Ok(Asked { path, node, syncs })
}

/// What is answered to the node, or else to the last sync.
fn put_and_sync<F: Folder>(folder: &mut F, asked: &Asked) -> Result<(), FolderError>
    requires { F.told folder.old ≡ None }
{
    put(folder, &asked.path, &asked.node)?;
    sync(folder, asked.syncs)
}

fn sync<F: Folder>(folder: &mut F, times: u64) -> Result<(), FolderError> {
    let mut answer = Ok(());
    for _ in 0..times {
        answer = folder.sync();
    }
    Ok(answer?)
}

/// What a folder over the host of a script answers.
fn answer_of(
    alloc: Global,
    script: &Script<'_>,
    root: &str,
    asked: &Asked,
) -> Result<Result<(), FolderError>, NoMemory> {
    let root = text_of(alloc, root)?;
    let mut folder = HostFolder::new((Host(script), alloc), root);
    Ok(put_and_sync(&mut folder, asked))
}

/// `each NODE ROOT PATH SYNCS CALL ..`: for each call how the folder answers where it fails, which has to be the last one
/// then: `m` for want of memory, `f` for a fault, `o` where it goes on. Then what it answers where none fails, and how
/// many calls it made.
pub fn push_each(alloc: Global, row: &Row, line: &mut Vec<u8>) -> Result<(), RowFault> {
    let asked = read_asked(alloc, row)?;
    Ok(push_all(alloc, row, &asked, line)?)
}

fn push_all(alloc: Global, row: &Row, asked: &Asked, line: &mut Vec<u8>) -> Result<(), NoMemory> {
    let calls = row.len().saturating_sub(EACH);
    for number in 0..calls {
        line.push(letter_of(alloc, row, asked, number)?)?;
    }
    push(line, " ")?;
    push_run(
        alloc,
        row.word(2),
        &Script::new(row, EACH, calls),
        asked,
        line,
    )
}

fn letter_of(alloc: Global, row: &Row, asked: &Asked, number: usize) -> Result<u8, NoMemory> {
    let script = Script::new(row, EACH, number);
    let answer = answer_of(alloc, &script, row.word(2), asked)?;
    Ok(if script.made() == number.saturating_add(1) {
        letter(answer)
    } else {
        b'?'
    })
}

fn letter(answer: Result<(), FolderError>) -> u8 {
    match answer {
        Ok(()) => b'o',
        Err(FolderError::Failed) => b'f',
        Err(FolderError::NoMemory) => b'm',
    }
}

/// `once NODE ROOT PATH SYNCS FAILS CALL ..`: what the folder answers where the call of this number fails, counted from 0,
/// and how many calls it made.
pub fn push_once(alloc: Global, row: &Row, line: &mut Vec<u8>) -> Result<(), RowFault> {
    let asked = read_asked(alloc, row)?;
    let fails_at = row.word(5).parse::<usize>().unwrap_or(usize::MAX);
    let script = Script::new(row, ONCE, fails_at);
    Ok(push_run(alloc, row.word(2), &script, &asked, line)?)
}

fn push_run(
    alloc: Global,
    root: &str,
    script: &Script<'_>,
    asked: &Asked,
    line: &mut Vec<u8>,
) -> Result<(), NoMemory> {
    let answer = answer_of(alloc, script, root, asked)?;
    push(line, word_of_answer(answer))?;
    push(line, " ")?;
    push_count(line, script.made())
}
