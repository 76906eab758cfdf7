ghost use Rattle.std.specs.Prelude.{◌↔◌, IfOk, IfSome, IsErrOf, IsTrue, MatchOption};
ghost use Rattle.folder_core.specs.Cause.{HasCause};
ghost use Rattle.folder_core.specs.Crash.{IsImage, Elapses};
ghost use Rattle.folder_core.specs.Step.{OnTold, Step};
ghost use Rattle.backup_store.specs.Entry.{IsOldNode};
ghost use Rattle.backup_store.specs.Held.{Counts, CanRestore, IsDamaged, IsFileOf, mark_text};
ghost use Rattle.backup_store.specs.Looking.{IsStill};
ghost use Rattle.backup_store.specs.Places.{IsOutside};
ghost use Rattle.backup_store.specs.PuttingBack.{IsRestorable, IsNoRestorable};

use crate::entry::{Entry, EntryNumber};
use crate::places::{entry_path, mark_path};
use crate::reading::read_entry;
use folder_core::{Folder, FolderError, Node, Path};
use osgi_version::NoMemory;
use std::alloc::Global;

/// Whether the entry of this number counts, which it does exactly where its mark is a file with the bytes `ok` and LF, of any
/// mode. It looks at the mark alone.
pub fn counts<F: Folder>(
    alloc: Global,
    folder: &mut F,
    number: EntryNumber,
) -> Result<bool, FolderError>
    ensures counts { IfOk result (λ counts. OnTold (F.told folder.old) (λ s. IsTrue counts ↔ Counts s.now number.0)) }
    ensures still { Step (F.told folder.old) (F.told folder.new) IsStill }
    ensures time { Step (F.told folder.old) (F.told folder.new)
        (λ s t. Elapses s.moment t.moment (F.left_since folder.old) (F.left_since folder.new) (IsImage t)) }
    ensures cause { HasCause (F.faults folder.old) (F.faults folder.new) (IsErrOf result FolderError.Failed) }
{
    let found = folder.look(alloc, &mark_path(alloc, number)?)?;
    Ok(is_mark(&found))
}

/// Whether the node is a file with the bytes of a mark.
fn is_mark(node: &Option<Node>) -> bool
    ensures { IsTrue result ↔ IsFileOf mark_text node.now }
{
    match node {
        Some(Node::File { blob, .. }) => blob.bytes() == b"ok\n".as_slice(),
        _ => false,
    }
}

/// The entry of this number, where `put_back` could put it back. None exactly where its file is no entry's text, or its path
/// is `.p2` or lies below it. Whether it counts isn't looked at.
pub fn read_kept<F: Folder>(
    alloc: Global,
    folder: &mut F,
    number: EntryNumber,
) -> Result<Option<Entry>, FolderError>
    ensures found { IfOk result (λ found. OnTold (F.told folder.old)
        (λ s. MatchOption found (IsDamaged s.now number.0) (λ e. CanRestore s.now number.0 e.path e.before))) }
    ensures old { IfOk result (λ found. IfSome found (λ e. IfSome e.before IsOldNode)) }
    ensures still { Step (F.told folder.old) (F.told folder.new) IsStill }
    ensures time { Step (F.told folder.old) (F.told folder.new)
        (λ s t. Elapses s.moment t.moment (F.left_since folder.old) (F.left_since folder.new) (IsImage t)) }
    ensures cause { HasCause (F.faults folder.old) (F.faults folder.new) (IsErrOf result FolderError.Failed) }
{
    let node = folder.look(alloc, &entry_path(alloc, number)?)?;
    Ok(entry_in(alloc, node)?)
}

/// The entry that this node holds, where it can be put back.
fn entry_in(alloc: Global, node: Option<Node>) -> Result<Option<Entry>, NoMemory>
    ensures { IfOk result (λ entry. MatchOption entry (IsNoRestorable node) (λ e. IsRestorable node e.path e.before)) }
{
    let Some(Node::File { blob, .. }) = node else {
        return Ok(None);
    };
    match read_entry(alloc, blob.bytes())? {
        Some(entry) if is_outside(&entry.path) => Ok(Some(entry)),
        _ => Ok(None),
    }
}

/// Whether the path neither is `.p2` nor lies below it.
pub(crate) fn is_outside(path: &Path) -> bool
    ensures { IsTrue result ↔ IsOutside path.now }
{
    match path.names().items() {
        [first, ..] => first.text().as_str() != ".p2",
        [] => true,
    }
}
