use crate::read::read_now;
use crate::write::{push_node, push_path};
use folder_core::{Folder, Name, Path};
use folder_memory::MemoryFolder;
use osgi_version::{List, NoMemory, Twin};
use std::alloc::Global;

// More paths than the folder of any suite has.
const MOST_PATHS: u32 = 1_000_000;

/// Adds what stands in a folder but for its root, in the order of paths: a field `PATH=NODE` each, with a blank before it.
/// It counts as no call of the folder.
pub fn push_contents(line: &mut Vec<u8>, folder: &MemoryFolder) -> Result<(), NoMemory> {
    let alloc = *line.allocator();
    let mut copy = copy_of(alloc, folder)?;
    let mut waiting = Vec::new(alloc);
    push_kids(&mut copy, &Path::root(alloc), &mut waiting)?;
    for _ in 0..MOST_PATHS {
        let Some(path) = waiting.pop() else {
            break;
        };
        push_place(line, &copy, &path)?;
        push_kids(&mut copy, &path, &mut waiting)?;
    }
    Ok(())
}

/// What stands now is an image of each folder, so that memory alone is missing where there is none.
fn copy_of(alloc: Global, folder: &MemoryFolder) -> Result<MemoryFolder, NoMemory> {
    let choice = read_now(alloc, folder)?;
    match folder.image(alloc, &choice) {
        Ok(copy) => Ok(copy),
        Err(_) => Err(NoMemory),
    }
}

fn push_place(line: &mut Vec<u8>, folder: &MemoryFolder, path: &Path) -> Result<(), NoMemory> {
    line.push(b' ')?;
    push_path(line, path)?;
    line.push(b'=')?;
    push_node(line, folder.node(path))
}

/// Adds the paths directly below one, the first of them last.
fn push_kids(
    folder: &mut MemoryFolder,
    path: &Path,
    waiting: &mut Vec<Path>,
) -> Result<(), NoMemory> {
    let names = kids_of(*waiting.allocator(), folder, path)?;
    for name in names.items().iter().rev() {
        waiting.push(kid(path, name)?)?;
    }
    Ok(())
}

fn kids_of(alloc: Global, folder: &mut MemoryFolder, path: &Path) -> Result<List<Name>, NoMemory> {
    match folder.kids(alloc, path) {
        Ok(names) => Ok(names),
        Err(_) => Err(NoMemory),
    }
}

fn kid(path: &Path, name: &Name) -> Result<Path, NoMemory> {
    let name = name.copy()?;
    let mut path = path.copy()?;
    path.push(name)?;
    Ok(path)
}
