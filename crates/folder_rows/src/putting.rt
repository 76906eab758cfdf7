ghost use Rattle.std.specs.Prelude.{◌≡◌, IfSome, IsTrue};
ghost use Rattle.std.specs.Option.{option_copied};
ghost use Rattle.folder_core.specs.Folder.{CanSet};
ghost use Rattle.folder_core.specs.Node.{IsNode, IsSmallAt};
ghost use Rattle.folder_memory.specs.Memory.{told_by};

use crate::fault::RowFault;
use crate::read::read_numbers;
use folder_core::{Folder, FolderError, Node, Path};
use folder_memory::MemoryFolder;
use std::alloc::Global;
use suite_row::Row;

/// What came of a node that was to be put.
#[derive(Clone, Copy, Debug, PartialEq, Eq)]
pub enum PutAnswer {
    Done,
    /// It may not stand there, so `set` wasn't called.
    Refused,
    Failed(FolderError),
}

/// Whether `set` may be called with this node, or with none, at this path.
pub fn may_put(folder: &MemoryFolder, path: &Path, node: Option<&Node>) -> bool
    ensures place { IsTrue result → CanSet (told_by folder.now).now path.now }
    ensures node { IsTrue result → IfSome (option_copied node.entry) IsNode }
    ensures small { IsTrue result → IfSome (option_copied node.entry) (IsSmallAt path.now) }
{
    let may_stand = match node {
        Some(node) => node.may_stand_at(path),
        None => true,
    };
    may_stand && folder.can_set(path)
}

/// Puts a node at a path, or takes the one there away, where that may be done.
pub fn put(folder: &mut MemoryFolder, path: &Path, node: Option<&Node>) -> PutAnswer {
    if !may_put(folder, path, node) {
        return PutAnswer::Refused;
    }
    match folder.set(path, node) {
        Ok(()) => PutAnswer::Done,
        Err(error) => PutAnswer::Failed(error),
    }
}

/// Arms a folder by a row `fuse PASSES` or `fail CALL CALL ..`. False for a row of another first word.
pub fn arm(alloc: Global, folder: &mut MemoryFolder, row: &Row) -> Result<bool, RowFault>
    ensures { told_by folder.new ≡ told_by folder.old }
{
    match row.word(0) {
        "fuse" => light(folder, row.number(1)),
        "fail" => {
            let calls = read_numbers(alloc, row, 1)?;
            folder.fail_at(calls);
            Ok(true)
        }
        _ => Ok(false),
    }
}

fn light(folder: &mut MemoryFolder, passes: Option<u64>) -> Result<bool, RowFault>
    ensures { told_by folder.new ≡ told_by folder.old }
{
    match passes {
        Some(passes) => {
            folder.fuse(passes);
            Ok(true)
        }
        None => Err(RowFault::Spelling),
    }
}
