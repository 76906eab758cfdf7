//! Steps and refusals as they are printed.

use crate::line::say;
use action_core::{ActionFault, Step};
use folder_core::Path;
use folder_rows::{push_node, push_path};
use osgi_version::{List, NoMemory};

/// `does` and the steps: `PATH=NODE` for a node that is set, or `none` for one that goes, and `note` with a field `@PATH`
/// for each path that is noted.
pub fn push_steps(line: &mut Vec<u8>, steps: &List<Step>) -> Result<(), NoMemory> {
    say(line, "does")?;
    for step in steps.items() {
        push_step(line, step)?;
    }
    Ok(())
}

fn push_step(line: &mut Vec<u8>, step: &Step) -> Result<(), NoMemory> {
    match step {
        Step::Set { path, node } => {
            line.push(b' ')?;
            push_path(line, path)?;
            line.push(b'=')?;
            push_node(line, node.as_ref())
        }
        Step::Note { paths } => push_note(line, paths),
    }
}

fn push_note(line: &mut Vec<u8>, paths: &List<Path>) -> Result<(), NoMemory> {
    say(line, "note")?;
    for path in paths.items() {
        say(line, "@")?;
        push_path(line, path)?;
    }
    Ok(())
}

/// `refuses`, the refusal's word, and the path that it names.
pub fn push_refusal(line: &mut Vec<u8>, fault: &ActionFault) -> Result<(), NoMemory> {
    say(line, "refuses")?;
    say(line, word_of(fault))?;
    match path_of(fault) {
        Some(path) => {
            line.push(b' ')?;
            push_path(line, path)
        }
        None => Ok(()),
    }
}

fn word_of(fault: &ActionFault) -> &'static str {
    match fault {
        ActionFault::TooDeep(_) => "TooDeep",
        ActionFault::InstallFolder(_) => "InstallFolder",
        ActionFault::ThroughLink(_) => "ThroughLink",
        ActionFault::NoParent(_) => "NoParent",
        ActionFault::NotThere(_) => "NotThere",
        ActionFault::Present(_) => "Present",
        ActionFault::NotDirectory(_) => "NotDirectory",
        ActionFault::NotEmpty(_) => "NotEmpty",
        ActionFault::NotFile(_) => "NotFile",
        ActionFault::IntoItself(_) => "IntoItself",
        ActionFault::NoMemory => "NoMemory",
    }
}

fn path_of(fault: &ActionFault) -> Option<&Path> {
    match fault {
        ActionFault::TooDeep(path)
        | ActionFault::InstallFolder(path)
        | ActionFault::ThroughLink(path)
        | ActionFault::NoParent(path)
        | ActionFault::NotThere(path)
        | ActionFault::Present(path)
        | ActionFault::NotDirectory(path)
        | ActionFault::NotEmpty(path)
        | ActionFault::NotFile(path)
        | ActionFault::IntoItself(path) => Some(path),
        ActionFault::NoMemory => None,
    }
}
