ghost use Rattle.std.specs.Prelude.{IfSome};
ghost use Rattle.std.specs.Option.{option_copied};
ghost use Rattle.folder_core.specs.Folder.{CanSet};
ghost use Rattle.folder_core.specs.Node.{IsNode, IsSmallAt};
ghost use Rattle.folder_core.specs.Step.{OnTold};

use crate::lines::{push, push_bool, push_count};
use folder_core::{Failed, Folder, FolderError, Name, Node, Path, Touch};
use folder_memory::MemoryFolder;
use folder_rows::{
    RowFault, arm, may_put, push_contents, push_image_fault, push_names, push_node, push_path,
    read_choice, read_node, read_path, word_of,
};
use osgi_version::{List, NoMemory};
use std::alloc::Global;
use suite_row::Row;

/// Answers a row that acts on the folder.
pub fn answer(
    alloc: Global,
    folder: &mut MemoryFolder,
    row: &Row,
    line: &mut Vec<u8>,
) -> Result<bool, RowFault> {
    match row.word(0) {
        "new" => {
            *folder = MemoryFolder::new(alloc);
            push(line, b"ok")?;
        }
        "put" => set(alloc, folder, row, line)?,
        "look" => look(alloc, folder, row, line)?,
        "kids" => kids(alloc, folder, row, line)?,
        "sync" => push(line, word_of_sync(sync_of(folder)).as_bytes())?,
        "crash" => crash(alloc, folder, row, line)?,
        "fuse" | "fail" => {
            arm(alloc, folder, row)?;
            push(line, b"ok")?;
        }
        _ => return told(alloc, folder, row, line),
    }
    Ok(true)
}

/// Answers a row that asks what the folder has, which counts as no call.
fn told(
    alloc: Global,
    folder: &MemoryFolder,
    row: &Row,
    line: &mut Vec<u8>,
) -> Result<bool, RowFault> {
    match row.word(0) {
        "stands" => stands(alloc, folder, row, line)?,
        "can" => can(alloc, folder, row, line)?,
        "show" => show(folder, line)?,
        "touched" => touched(folder, line)?,
        "calls" => push_count(line, folder.calls())?,
        "image" => image(alloc, folder, row, line)?,
        _ => return Ok(false),
    }
    Ok(true)
}

// The calls go through the trait, as its users make them.

fn look_of<F: Folder>(
    alloc: Global,
    folder: &mut F,
    path: &Path,
) -> Result<Option<Node>, FolderError> {
    folder.look(alloc, path)
}

fn kids_of<F: Folder>(
    alloc: Global,
    folder: &mut F,
    path: &Path,
) -> Result<List<Name>, FolderError> {
    folder.kids(alloc, path)
}

fn set_of<F: Folder>(folder: &mut F, path: &Path, node: Option<&Node>) -> Result<(), FolderError>
    requires place { OnTold (F.told folder.old) (λ s. CanSet s.now path.now) }
    requires node { IfSome (option_copied node) IsNode }
    requires small { IfSome (option_copied node) (IsSmallAt path.now) }
{
    folder.set(path, node)
}

fn sync_of<F: Folder>(folder: &mut F) -> Result<(), Failed> {
    folder.sync()
}

fn set(
    alloc: Global,
    folder: &mut MemoryFolder,
    row: &Row,
    line: &mut Vec<u8>,
) -> Result<(), RowFault> {
    Ok(push(line, word_of_set(alloc, folder, row)?.as_bytes())?)
}

fn word_of_set(
    alloc: Global,
    folder: &mut MemoryFolder,
    row: &Row,
) -> Result<&'static str, RowFault> {
    let path = read_path(alloc, row.field(1))?;
    let node = read_node(alloc, row.field(2))?;
    Ok(set_where_allowed(folder, &path, node.as_ref()))
}

fn set_where_allowed(folder: &mut MemoryFolder, path: &Path, node: Option<&Node>) -> &'static str {
    if !may_put(folder, path, node) {
        return "refused";
    }
    match set_of(folder, path, node) {
        Ok(()) => "ok",
        Err(error) => word_of(error),
    }
}

fn look(
    alloc: Global,
    folder: &mut MemoryFolder,
    row: &Row,
    line: &mut Vec<u8>,
) -> Result<(), RowFault> {
    let path = read_path(alloc, row.field(1))?;
    Ok(push_looked(line, look_of(alloc, folder, &path))?)
}

fn push_looked(
    line: &mut Vec<u8>,
    looked: Result<Option<Node>, FolderError>,
) -> Result<(), NoMemory> {
    match looked {
        Ok(node) => push_node(line, node.as_ref()),
        Err(error) => push(line, word_of(error).as_bytes()),
    }
}

fn kids(
    alloc: Global,
    folder: &mut MemoryFolder,
    row: &Row,
    line: &mut Vec<u8>,
) -> Result<(), RowFault> {
    let path = read_path(alloc, row.field(1))?;
    Ok(push_told_kids(line, kids_of(alloc, folder, &path))?)
}

fn push_told_kids(
    line: &mut Vec<u8>,
    told: Result<List<Name>, FolderError>,
) -> Result<(), NoMemory> {
    match told {
        Ok(names) => push_kids(line, &names),
        Err(error) => push(line, word_of(error).as_bytes()),
    }
}

/// Adds how many names there are, and the names.
pub fn push_kids(line: &mut Vec<u8>, names: &List<Name>) -> Result<(), NoMemory> {
    push_count(line, names.len() as u64)?;
    push_names(line, names)
}

fn word_of_sync(synced: Result<(), Failed>) -> &'static str {
    match synced {
        Ok(()) => "ok",
        Err(Failed) => "failed",
    }
}

/// What a crash leaves takes the place of the folder, where it may be left.
fn crash(
    alloc: Global,
    folder: &mut MemoryFolder,
    row: &Row,
    line: &mut Vec<u8>,
) -> Result<(), RowFault> {
    let choice = read_choice(alloc, folder, row, 1)?;
    Ok(become_image(alloc, folder, &choice, line)?)
}

fn become_image(
    alloc: Global,
    folder: &mut MemoryFolder,
    choice: &List<Touch>,
    line: &mut Vec<u8>,
) -> Result<(), NoMemory> {
    match folder.image(alloc, choice) {
        Ok(image) => {
            *folder = image;
            push(line, b"ok")
        }
        Err(fault) => push_image_fault(line, fault),
    }
}

fn image(
    alloc: Global,
    folder: &MemoryFolder,
    row: &Row,
    line: &mut Vec<u8>,
) -> Result<(), RowFault> {
    let choice = read_choice(alloc, folder, row, 1)?;
    Ok(show_image(alloc, folder, &choice, line)?)
}

fn show_image(
    alloc: Global,
    folder: &MemoryFolder,
    choice: &List<Touch>,
    line: &mut Vec<u8>,
) -> Result<(), NoMemory> {
    match folder.image(alloc, choice) {
        Ok(image) => show(&image, line),
        Err(fault) => push_image_fault(line, fault),
    }
}

fn show(folder: &MemoryFolder, line: &mut Vec<u8>) -> Result<(), NoMemory> {
    push(line, b"root")?;
    push_contents(line, folder)
}

fn stands(
    alloc: Global,
    folder: &MemoryFolder,
    row: &Row,
    line: &mut Vec<u8>,
) -> Result<(), RowFault> {
    let path = read_path(alloc, row.field(1))?;
    Ok(push_node(line, folder.node(&path))?)
}

fn can(
    alloc: Global,
    folder: &MemoryFolder,
    row: &Row,
    line: &mut Vec<u8>,
) -> Result<(), RowFault> {
    let path = read_path(alloc, row.field(1))?;
    Ok(push_bool(line, folder.can_set(&path))?)
}

fn touched(folder: &MemoryFolder, line: &mut Vec<u8>) -> Result<(), NoMemory> {
    push_count(line, folder.touched().len() as u64)?;
    for path in folder.touched() {
        line.push(b' ')?;
        push_path(line, path)?;
    }
    Ok(())
}
