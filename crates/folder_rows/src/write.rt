use folder_core::{FolderError, Name, Node, Path};
use folder_memory::ImageFault;
use osgi_version::{List, NoMemory, push_field};

const USUAL_MODE: u16 = 0o644;

// A longer file stands as its number of bytes.
const MOST_SPELLED: usize = 4096;

/// Adds a node, or `none`, to a line.
pub fn push_node(line: &mut Vec<u8>, node: Option<&Node>) -> Result<(), NoMemory> {
    match node {
        None => push(line, b"none"),
        Some(Node::Dir) => push(line, b"dir"),
        Some(Node::Link { target }) => {
            line.push(b'>')?;
            push_escaped(line, target.bytes())
        }
        Some(Node::File { mode, blob }) => push_file(line, *mode, blob.bytes()),
    }
}

fn push(line: &mut Vec<u8>, bytes: &[u8]) -> Result<(), NoMemory> {
    line.extend_from_slice(bytes)?;
    Ok(())
}

/// The empty text has a field of its own, which stands for no part of one.
fn push_escaped(line: &mut Vec<u8>, bytes: &[u8]) -> Result<(), NoMemory> {
    if bytes.is_empty() {
        return Ok(());
    }
    push_field(line, bytes)
}

fn push_file(line: &mut Vec<u8>, mode: u16, bytes: &[u8]) -> Result<(), NoMemory> {
    push_mode(line, mode)?;
    if bytes.len() > MOST_SPELLED {
        line.push(b'*')?;
        push_count(line, bytes.len())
    } else {
        line.push(b'#')?;
        push_escaped(line, bytes)
    }
}

fn push_mode(line: &mut Vec<u8>, mode: u16) -> Result<(), NoMemory> {
    if mode == USUAL_MODE {
        return Ok(());
    }
    let digits = format!(in *line.allocator(); "{mode:03o}")?;
    push(line, digits.as_bytes())
}

fn push_count(line: &mut Vec<u8>, count: usize) -> Result<(), NoMemory> {
    let digits = count.to_string(*line.allocator())?;
    push(line, digits.as_bytes())
}

/// Adds a path to a line as one field.
pub fn push_path(line: &mut Vec<u8>, path: &Path) -> Result<(), NoMemory> {
    let text = path.text()?;
    push_field(line, text.bytes())
}

/// Adds names to a line, a field each with a blank before it.
pub fn push_names(line: &mut Vec<u8>, names: &List<Name>) -> Result<(), NoMemory> {
    for name in names.items() {
        line.push(b' ')?;
        push_field(line, name.text().bytes())?;
    }
    Ok(())
}

/// The word for why a call of a folder gave up.
pub fn word_of(error: FolderError) -> &'static str {
    match error {
        FolderError::Failed => "failed",
        FolderError::NoMemory => "no-memory",
    }
}

/// Adds why no image was made.
pub fn push_image_fault(line: &mut Vec<u8>, fault: ImageFault) -> Result<(), NoMemory> {
    match fault {
        ImageFault::NotTouched { place } => {
            push(line, b"not-touched ")?;
            push_count(line, place as usize)
        }
        ImageFault::NotWellFormed => push(line, b"not-well-formed"),
        ImageFault::NoMemory => push(line, b"no-memory"),
    }
}
