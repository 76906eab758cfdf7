use crate::lines::{copied, count_at, push, push_bool, push_count};
use folder_core::{After, Blob, Failed, FolderError, Node, Touch, TreeError};
use folder_memory::{ImageFault, PutFault};
use folder_rows::{
    RowFault, push_image_fault, push_node, push_path, read_node, read_path, read_touch, word_of,
};
use osgi_version::{List, NoMemory, Twin, push_field};
use std::alloc::Global;
use std::fmt;
use suite_row::Row;

/// Answers a row of nodes and what they are made of, by its second word.
pub fn answer(alloc: Global, row: &Row, line: &mut Vec<u8>) -> Result<bool, RowFault> {
    match row.word(1) {
        "of" => of(alloc, row, line)?,
        "equal" => equal(alloc, row, line)?,
        "may" => may(alloc, row, line)?,
        "touch" => touch(alloc, row, line)?,
        "touches" => touches(alloc, row, line)?,
        "blob" => blob(alloc, row, line)?,
        "zeros" => zeros(alloc, row, line)?,
        "after" => after(row, line)?,
        "says" => says(row, line)?,
        "from" => from(row, line)?,
        "image" => image_fault(row, line)?,
        "put" => put_fault(row, line)?,
        _ => return Ok(false),
    }
    Ok(true)
}

fn some_node(alloc: Global, row: &Row, place: usize) -> Result<Node, RowFault> {
    match read_node(alloc, row.field(place))? {
        Some(node) => Ok(node),
        None => Err(RowFault::Spelling),
    }
}

fn of(alloc: Global, row: &Row, line: &mut Vec<u8>) -> Result<(), RowFault> {
    let node = some_node(alloc, row, 2)?;
    Ok(push_copy(&node, line)?)
}

fn push_copy(node: &Node, line: &mut Vec<u8>) -> Result<(), NoMemory> {
    let twin = node.copy()?;
    push_node(line, Some(&twin))
}

fn equal(alloc: Global, row: &Row, line: &mut Vec<u8>) -> Result<(), RowFault> {
    Ok(push_bool(line, are_equal(alloc, row)?)?)
}

fn are_equal(alloc: Global, row: &Row) -> Result<bool, RowFault> {
    let first = some_node(alloc, row, 2)?;
    let second = some_node(alloc, row, 3)?;
    Ok(first == second)
}

// Whether a node may stand at a path.
fn may(alloc: Global, row: &Row, line: &mut Vec<u8>) -> Result<(), RowFault> {
    Ok(push_bool(line, may_stand(alloc, row)?)?)
}

fn may_stand(alloc: Global, row: &Row) -> Result<bool, RowFault> {
    let path = read_path(alloc, row.field(2))?;
    let node = some_node(alloc, row, 3)?;
    Ok(node.may_stand_at(&path))
}

fn touch(alloc: Global, row: &Row, line: &mut Vec<u8>) -> Result<(), RowFault> {
    let touch = read_touch(alloc, row.field(2))?;
    Ok(push_touch(&touch, line)?)
}

fn push_touch(touch: &Touch, line: &mut Vec<u8>) -> Result<(), NoMemory> {
    let twin = touch.copy()?;
    push_spelled(&twin, line)
}

fn push_spelled(touch: &Touch, line: &mut Vec<u8>) -> Result<(), NoMemory> {
    push_path(line, &touch.path)?;
    line.push(b'=')?;
    push_node(line, touch.node.as_ref())
}

fn touches(alloc: Global, row: &Row, line: &mut Vec<u8>) -> Result<(), RowFault> {
    Ok(push_bool(line, are_equal_touches(alloc, row)?)?)
}

fn are_equal_touches(alloc: Global, row: &Row) -> Result<bool, RowFault> {
    let first = read_touch(alloc, row.field(2))?;
    let second = read_touch(alloc, row.field(3))?;
    Ok(first == second)
}

fn blob_of(alloc: Global, text: &str) -> Result<Blob, RowFault> {
    let bytes = copied(alloc, text.as_bytes())?;
    match Blob::new(List::from_vec(bytes)) {
        Some(blob) => Ok(blob),
        None => Err(RowFault::Spelling),
    }
}

fn blob(alloc: Global, row: &Row, line: &mut Vec<u8>) -> Result<(), RowFault> {
    let blob = blob_of(alloc, row.word(2))?;
    Ok(push_blob(&blob, line)?)
}

fn push_blob(blob: &Blob, line: &mut Vec<u8>) -> Result<(), NoMemory> {
    let twin = blob.copy()?;
    push_compared(&twin, blob, line)
}

fn push_compared(twin: &Blob, blob: &Blob, line: &mut Vec<u8>) -> Result<(), NoMemory> {
    push_field(line, twin.bytes())?;
    line.push(b' ')?;
    push_bool(line, *twin == *blob)
}

// A blob of so many zeros: how many it has.
fn zeros(alloc: Global, row: &Row, line: &mut Vec<u8>) -> Result<(), RowFault> {
    let bytes = zeros_of(alloc, count_at(row, 2)?)?;
    match Blob::new(List::from_vec(bytes)) {
        Some(blob) => Ok(push_count(line, blob.bytes().len() as u64)?),
        None => Ok(push(line, b"no-blob")?),
    }
}

fn zeros_of(alloc: Global, count: u64) -> Result<Vec<u8>, NoMemory> {
    Ok(vec![in alloc; 0u8; count as usize]?)
}

fn after(row: &Row, line: &mut Vec<u8>) -> Result<(), RowFault> {
    let after = match row.word(2) {
        "unchanged" => After::Unchanged,
        "recover" => After::Recover,
        "either" => After::Either,
        _ => return Err(RowFault::Spelling),
    };
    Ok(push(line, word_after(after.copy()?).as_bytes())?)
}

fn word_after(after: After) -> &'static str {
    match after {
        After::Unchanged => "unchanged",
        After::Recover => "recover",
        After::Either => "either",
    }
}

// What a fault says.
fn says(row: &Row, line: &mut Vec<u8>) -> Result<(), RowFault> {
    match row.word(2) {
        "outside" => Ok(push_said(line, &Failed)?),
        "folder-failed" => Ok(push_said(line, &FolderError::Failed)?),
        "folder-no-memory" => Ok(push_said(line, &FolderError::NoMemory)?),
        "tree-failed" => Ok(push_said(line, &TreeError::Failed)?),
        "tree-too-large" => Ok(push_said(line, &TreeError::TooLarge)?),
        "tree-no-memory" => Ok(push_said(line, &TreeError::NoMemory)?),
        _ => says_of_memory(row, line),
    }
}

fn says_of_memory(row: &Row, line: &mut Vec<u8>) -> Result<(), RowFault> {
    match row.word(2) {
        "not-touched" => {
            let place = count_at(row, 3)?;
            Ok(push_said(line, &ImageFault::NotTouched { place })?)
        }
        "not-well-formed" => Ok(push_said(line, &ImageFault::NotWellFormed)?),
        "image-no-memory" => Ok(push_said(line, &ImageFault::NoMemory)?),
        "not-a-folder" => Ok(push_said(line, &PutFault::NotAFolder)?),
        "put-no-memory" => Ok(push_said(line, &PutFault::NoMemory)?),
        _ => Err(RowFault::Spelling),
    }
}

fn push_said(line: &mut Vec<u8>, said: &impl fmt::Display) -> Result<(), NoMemory> {
    let text = format!(in *line.allocator(); "{said}")?;
    push(line, text.as_bytes())
}

// What a fault of the outside or of memory is to a folder or a tree.
fn from(row: &Row, line: &mut Vec<u8>) -> Result<(), RowFault> {
    let word = match row.word(2) {
        "failed" => word_of(FolderError::from(Failed)),
        "no-memory" => word_of(FolderError::from(NoMemory)),
        "tree-no-memory" => word_of_tree(TreeError::from(NoMemory)),
        _ => return Err(RowFault::Spelling),
    };
    Ok(push(line, word.as_bytes())?)
}

/// The word for why a call of a tree gave up.
pub fn word_of_tree(error: TreeError) -> &'static str {
    match error {
        TreeError::Failed => "failed",
        TreeError::TooLarge => "too-large",
        TreeError::NoMemory => "no-memory",
    }
}

fn image_fault(row: &Row, line: &mut Vec<u8>) -> Result<(), RowFault> {
    let fault = match row.word(2) {
        "not-touched" => ImageFault::NotTouched {
            place: count_at(row, 3)?,
        },
        "not-well-formed" => ImageFault::NotWellFormed,
        "no-memory" => ImageFault::from(NoMemory),
        _ => return Err(RowFault::Spelling),
    };
    Ok(push_image_fault(line, fault.copy()?)?)
}

fn put_fault(row: &Row, line: &mut Vec<u8>) -> Result<(), RowFault> {
    let fault = match row.word(2) {
        "not-a-folder" => PutFault::NotAFolder,
        "no-memory" => PutFault::from(NoMemory),
        _ => return Err(RowFault::Spelling),
    };
    Ok(push(line, word_of_put(fault.copy()?).as_bytes())?)
}

/// The word for why a file wasn't put.
pub fn word_of_put(fault: PutFault) -> &'static str {
    match fault {
        PutFault::NotAFolder => "not-a-folder",
        PutFault::NoMemory => "no-memory",
    }
}
