ghost use Rattle.std.specs.Prelude.{◌≢◌, [], IsTrue};
ghost use Rattle.backup_store.specs.Held.{IsOpen as OpensGate};
ghost use Rattle.backup_store.specs.Places.{IsOutside};
ghost use Rattle.folder_memory.specs.Memory.{told_by};

use crate::{Outcome, set_in_turn};
use folder_core::{Folder, Node, Path, Touch};
use folder_memory::MemoryFolder;
use install_journal::{Gate, read_gate};
use osgi_version::{NoMemory, Text};
use std::alloc::Global;
use std::test::Fail;

fn is_outside(path: &Path) -> bool
    ensures { IsTrue result → (path.now ≢ []) × IsOutside path.now }
{
    match path.names().items() {
        [first, ..] => first.text().as_str() != ".p2",
        [] => false,
    }
}

fn is_shut(alloc: Global, folder: &mut MemoryFolder) -> bool
    ensures { IsTrue result → ¬ (OpensGate (told_by folder.new).now) }
{
    match read_gate(alloc, folder) {
        Ok(gate) => gate == Gate::IsClosed,
        Err(_) => false,
    }
}

/// What comes of one touch. Old where it can't be made.
fn outcome_of(alloc: Global, folder: &mut MemoryFolder, touch: Touch) -> Outcome {
    let node = touch.node.as_ref();
    let may = node.is_none_or(|node| node.may_stand_at(&touch.path));
    if !may || !is_outside(&touch.path) || !is_shut(alloc, folder) || !folder.can_set(&touch.path) {
        return Outcome::Old;
    }
    set_in_turn(alloc, folder, &[touch])
}

/// The node of a word: `none`, `dir`, or a link's target.
fn node_of(alloc: Global, word: &str) -> Result<Option<Node>, NoMemory> {
    match word {
        "none" => Ok(None),
        "dir" => Ok(Some(Node::Dir)),
        target => Ok(Some(Node::Link {
            target: Text::from_str(alloc, target)?,
        })),
    }
}

fn touch_of(alloc: Global, at: &str, word: &str) -> Result<Touch, Fail> {
    let text = Text::from_str(alloc, at)?;
    let path = Path::read(alloc, &text)?.ok_or("no path")?;
    let node = node_of(alloc, word)?;
    Ok(Touch { path, node })
}

fn has(folder: &mut MemoryFolder, alloc: Global, touch: &Touch) -> bool {
    match folder.look(alloc, &touch.path) {
        Ok(found) => found == touch.node,
        Err(_) => false,
    }
}

/// Whether a row holds: what is done, at which path, with which node.
fn holds(alloc: Global, folder: &mut MemoryFolder, row: &str) -> Result<bool, Fail> {
    let mut words = row.split(' ');
    let (Some(does), Some(at), Some(word)) = (words.next(), words.next(), words.next()) else {
        return Ok(false);
    };
    let touch = touch_of(alloc, at, word)?;
    Ok(match does {
        "new" => outcome_of(alloc, folder, touch) == Outcome::New,
        "old" => outcome_of(alloc, folder, touch) == Outcome::Old,
        "has" => has(folder, alloc, &touch),
        _ => false,
    })
}

const ROWS: &str = "old d/f link
new d dir
new d/f link
old d none
has d/f link
new d/g other
new d/f none
has d/f none
has d/g other
old .p2/x dir";

#[test]
fn all_or_none_is_set(rt: HostRuntime) -> Result<(), Fail> {
    let alloc = rt.alloc();
    let mut folder = MemoryFolder::new(alloc);
    for row in ROWS.lines() {
        assert!(rt; holds(alloc, &mut folder, row)?, "{row}");
    }
    folder.fuse(0);
    assert!(rt; holds(alloc, &mut folder, "old d/g none")?);
    Ok(())
}
