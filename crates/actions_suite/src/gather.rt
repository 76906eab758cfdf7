//! The shape of a call: what a folder has at, above and below each of the call's places.

use action_core::{ActionFault, Shape, is_at_or_below};
use folder_core::{Folder, Name, Node, Path, Touch};
use folder_memory::MemoryFolder;
use folder_rows::{RowFault, read_path};
use instr_parser::{Call, Value};
use osgi_version::{List, NoMemory, Text, Twin};
use std::alloc::Global;

// More paths than the folder of any row has.
const MOST_PATHS: u32 = 1_000_000;

/// A shape of the profile `ide` and of a unit with an artifact, that knows nothing of the folder yet.
pub fn bare_shape(alloc: Global) -> Result<Shape, RowFault> {
    let install = path_of(alloc, "installs/ide")?;
    let artifact = path_of(alloc, "pool/osgi.bundle/a_1.0.0")?;
    Ok(Shape {
        nodes: List::new(alloc),
        noted: List::new(alloc),
        install,
        artifact: Some(artifact),
    })
}

fn path_of(alloc: Global, spelling: &str) -> Result<Path, RowFault> {
    let text = Text::from_str(alloc, spelling)?;
    read_path(alloc, &text)
}

/// What stands in the folder, in the order of paths.
pub fn nodes_of(alloc: Global, folder: &mut MemoryFolder) -> Result<List<Touch>, NoMemory> {
    let mut nodes = List::new(alloc);
    let mut waiting = Vec::new(alloc);
    waiting.push(Path::root(alloc))?;
    for _ in 0..MOST_PATHS {
        let Some(path) = waiting.pop() else {
            break;
        };
        push_kids(folder, &path, &mut waiting)?;
        let node = copied(folder, &path)?;
        nodes.push(Touch { path, node })?;
    }
    Ok(nodes)
}

/// The node that stands at the path, as a value of its own.
pub fn copied(folder: &MemoryFolder, path: &Path) -> Result<Option<Node>, NoMemory> {
    match folder.node(path) {
        Some(node) => Ok(Some(node.copy()?)),
        None => Ok(None),
    }
}

/// Adds the paths directly below one, the first of them last.
fn push_kids(
    folder: &mut MemoryFolder,
    path: &Path,
    waiting: &mut Vec<Path>,
) -> Result<(), NoMemory> {
    let Ok(names) = folder.kids(*waiting.allocator(), path) else {
        return Err(NoMemory);
    };
    for name in names.items().iter().rev() {
        waiting.push(kid(path, name)?)?;
    }
    Ok(())
}

fn kid(path: &Path, name: &Name) -> Result<Path, NoMemory> {
    let name = name.copy()?;
    let mut path = path.copy()?;
    path.push(name)?;
    Ok(path)
}

/// The places of a call: each that a parameter gives, and the first of them with the names that one gives. Of one that is
/// too deep the first names.
pub fn places_of(call: &Call, bare: &Shape) -> Result<List<Path>, NoMemory> {
    let first = first_place(call);
    let mut places = List::new(bare.nodes.allocator());
    for param in call.params.items() {
        match &param.value {
            Value::Place { .. } => places.push(front_of(bare.place(call, param.code))?)?,
            Value::Names(_) => {
                places.push(front_of(bare.place_of_names(call, first, param.code))?)?
            }
            _ => {}
        }
    }
    Ok(places)
}

/// The code of the first parameter that is a place.
fn first_place(call: &Call) -> u16 {
    for param in call.params.items() {
        if matches!(&param.value, Value::Place { .. }) {
            return param.code;
        }
    }
    0
}

fn front_of(place: Result<Path, ActionFault>) -> Result<Path, NoMemory> {
    match place {
        Ok(path) | Err(ActionFault::TooDeep(path)) => Ok(path),
        Err(_) => Err(NoMemory),
    }
}

/// Those of the nodes that stand at, above or below one of the places, in their order.
pub fn near(nodes: &[Touch], places: &List<Path>) -> Result<List<Touch>, NoMemory> {
    let mut kept = List::new(places.allocator());
    for touch in nodes {
        if is_near(touch, places) {
            kept.push(touch.copy()?)?;
        }
    }
    Ok(kept)
}

fn is_near(touch: &Touch, places: &List<Path>) -> bool {
    places.items().iter().any(|place| is_near_one(touch, place))
}

fn is_near_one(touch: &Touch, place: &Path) -> bool {
    is_at_or_below(place, &touch.path) || is_at_or_below(&touch.path, place)
}
