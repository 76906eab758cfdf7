ghost use Rattle.std.specs.Fs.{metadata_mode};
ghost use Rattle.std.specs.Prelude.{◌≡◌, ◌≤◌, ◌↔◌, bit_and, length, None, IfErr, IfOk, IfSome, IsOk, IsTrue};
ghost use Rattle.folder_core.specs.Name.{AreRising};
ghost use Rattle.folder_core.specs.Node.{IsNode, IsSmallAt, entries_path};
ghost use Rattle.folder_core.specs.Path.{IsBelow};

use crate::faults::{Faults, HostFault};
use crate::host_lock::Lockable;
use crate::host_place::{below, find};
use crate::host_read::{read_file, read_names};
use crate::host_root::HostRoot;
use crate::host_touched::Touched;
use crate::host_write::{changed, put};
use folder_core::{Failed, Folder, FolderError, Name, Node, Path};
use osgi_version::{List, Text};
use std::alloc::Global;
use std::fs::{Files, Metadata};
use std::os::unix::fs::PermissionsExt;

const MOST_FILE_BYTES: u64 = 67_108_864;

const MOST_ENTRY_BYTES: u64 = 67_174_400;

const MOST_TARGET_BYTES: usize = 4096;

const PERMISSION_BITS: u32 = 0o777;

/// The bits that change as whom a file runs, and the one that holds it in memory. A node can't tell them.
const SPECIAL_BITS: u32 = 0o7000;

/// A folder of the host: what stands at its root and below.
///
/// A root that isn't there reads as an empty directory, and the first `set` makes it, with what is missing above it. The
/// root itself may be a link to a directory. No other link is followed: below a link there is nothing.
///
/// One process at a time has the folder: its root is locked where it is first found or made, without waiting, until this
/// value is gone. Where another process has the lock, each call is a fault.
///
/// Each error of the host is a fault, but for want of memory, which is told as such where nothing has been changed: in a
/// `set` only before its first change, and not where the root has to be made. So are a name that is no `Name`, a special
/// file, a file that is longer than its path allows or whose mode has a bit above 0777, a link whose target isn't
/// UTF-8, a root where another node stands, and a root with no text. The host makes no link with an empty target, and
/// reads a file only where its mode lets this user.
#[derive(Drop)]
pub struct HostFolder<R, F> {
    root: HostRoot<R, F>,
    touched: Touched,
    faults: Faults,
}

impl<R: Files<File = F> + AllocGlobal + Clone + Drop, F: Lockable + Drop> HostFolder<R, F> {
    pub fn new(runtime: R, root: String) -> HostFolder<R, F>
        ensures { ⟦<HostFolder<R, F> as Folder>⟧.faults result ≡ 0 }
    {
        let touched = Touched::new(runtime.alloc());
        HostFolder {
            root: HostRoot::new(runtime, root),
            touched,
            faults: Faults::new(),
        }
    }
}

impl<R: Files<File = F> + AllocGlobal + Clone + Drop, F: Lockable + Drop> Folder
    for HostFolder<R, F> {
    ghost told = { λ _. None };

    ghost left_since = { λ _ _ _. ⊥ };

    ghost faults = { λ f. f.faults };

    ghost image_now = { λ _. tt };

    ghost counts_now = { λ _. tt };

    ghost only_now = { λ _. tt };

    fn look(&mut self, alloc: Global, path: &Path) -> Result<Option<Node>, FolderError> {
        let outcome = look_at(&mut self.root, alloc, path);
        Ok(self.faults.counted(outcome)?)
    }

    fn kids(&mut self, alloc: Global, path: &Path) -> Result<List<Name>, FolderError> {
        let outcome = kids_at(&mut self.root, alloc, path);
        Ok(self.faults.counted(outcome)?)
    }

    /// What stood there is taken away first.
    fn set(&mut self, path: &Path, node: Option<&Node>) -> Result<(), FolderError> {
        let outcome = set_at(&mut self.root, &mut self.touched, path, node);
        Ok(self.faults.counted(outcome)?)
    }

    /// Answers Ok once each node that was set is on the disk, and its name in the directory that holds it.
    fn sync(&mut self) -> Result<(), Failed> {
        match sync_all(&mut self.root, &mut self.touched) {
            Ok(()) => Ok(()),
            Err(_) => Err(self.faults.failed()),
        }
    }
}

fn look_at<R: Files<File = F> + AllocGlobal + Clone + Drop, F: Lockable + Drop>(
    root: &mut HostRoot<R, F>,
    alloc: Global,
    path: &Path,
) -> Result<Option<Node>, HostFault>
    ensures node { IfOk result (λ found. IfSome found IsNode) }
    ensures small { IfOk result (λ found. IfSome found (IsSmallAt path.now)) }
{
    let names = path.names().items();
    if !root.take()? || names.is_empty() {
        return Ok(names.is_empty().then_some(Node::Dir));
    }
    look_below(&root.runtime, alloc, root.text.as_str(), path)
}

/// What stands at a path below a root that is there.
fn look_below<R: Files>(
    files: &R,
    alloc: Global,
    root: &str,
    path: &Path,
) -> Result<Option<Node>, HostFault>
    ensures node { IfOk result (λ found. IfSome found IsNode) }
    ensures small { IfOk result (λ found. IfSome found (IsSmallAt path.now)) }
{
    let place = find(files, alloc, root, path.names().items())?;
    let Some(found) = &place.found else {
        return Ok(None);
    };
    if found.is_dir() {
        return Ok(Some(Node::Dir));
    }
    if found.is_symlink() {
        let target = read_target(files, alloc, place.text.as_str())?;
        return Ok(Some(Node::Link { target }));
    }
    if !found.is_file() {
        return Err(HostFault::Failed);
    }
    Ok(Some(read_node(files, alloc, place.text.as_str(), found, path)?))
}

fn read_node<R: Files>(
    files: &R,
    alloc: Global,
    text: &str,
    found: &Metadata,
    path: &Path,
) -> Result<Node, HostFault>
    ensures node { IfOk result IsNode }
    ensures small { IfOk result (IsSmallAt path.now) }
{
    let mode = mode_of(found)?;
    match read_file(files, alloc, text, found.len(), most_bytes(path))? {
        Some(blob) => Ok(Node::File { mode, blob }),
        None => Err(HostFault::Failed),
    }
}

/// The mode of a file, which has to be no more than its permissions.
fn mode_of(found: &Metadata) -> Result<u16, HostFault>
    ensures mode { IfOk result (λ mode. mode ≡ bit_and (metadata_mode found.now) 0o777) }
    ensures only { IsOk result ↔ bit_and (metadata_mode found.now) 0o7000 ≡ 0 }
    ensures cause { IfErr result (λ e. e ≡ HostFault.Failed) }
{
    let mode = found.permissions().mode();
    if mode & SPECIAL_BITS != 0 {
        return Err(HostFault::Failed);
    }
    Ok((mode & PERMISSION_BITS) as u16)
}

fn read_target<R: Files>(files: &R, alloc: Global, text: &str) -> Result<Text, HostFault>
    ensures { IfOk result (λ target. length target ≤ 4096) }
{
    let target = files.read_link(alloc, text)?;
    let target = Text::from_str(alloc, target.as_str())?;
    if target.bytes().len() > MOST_TARGET_BYTES {
        return Err(HostFault::Failed);
    }
    Ok(target)
}

fn most_bytes(path: &Path) -> u64
    ensures entry { IsBelow entries_path path.now → result ≡ 67174400 }
    ensures other { ¬ (IsBelow entries_path path.now) → result ≡ 67108864 }
{
    if is_entry(path) {
        MOST_ENTRY_BYTES
    } else {
        MOST_FILE_BYTES
    }
}

/// The path is below `.p2/e`, where the entries of the journal stand.
fn is_entry(path: &Path) -> bool
    ensures { IsTrue result ↔ IsBelow entries_path path.now }
{
    match path.names().items() {
        [first, second, _, ..] => {
            first.text().as_str() == ".p2" && second.text().as_str() == "e"
        }
        _ => false,
    }
}

fn kids_at<R: Files<File = F> + AllocGlobal + Clone + Drop, F: Lockable + Drop>(
    root: &mut HostRoot<R, F>,
    alloc: Global,
    path: &Path,
) -> Result<List<Name>, HostFault>
    ensures { IfOk result AreRising }
{
    if !root.take()? {
        return Ok(List::new(alloc));
    }
    kids_below(&root.runtime, alloc, root.text.as_str(), path)
}

fn kids_below<R: Files + AllocGlobal + Clone + Drop>(
    runtime: &R,
    alloc: Global,
    root: &str,
    path: &Path,
) -> Result<List<Name>, HostFault>
    ensures { IfOk result AreRising }
{
    let place = find(runtime, alloc, root, path.names().items())?;
    if place.is_directory() {
        read_names(runtime, alloc, place.text.as_str())
    } else {
        Ok(List::new(alloc))
    }
}

fn set_at<R: Files<File = F> + AllocGlobal + Clone + Drop, F: Lockable + Drop>(
    root: &mut HostRoot<R, F>,
    touched: &mut Touched,
    path: &Path,
    node: Option<&Node>,
) -> Result<(), HostFault> {
    let Some((name, holders)) = path.names().items().split_last() else {
        return Err(HostFault::Failed);
    };
    let alloc = root.runtime.alloc();
    if !root.take()? {
        // Of what is missing only the root is made.
        if !holders.is_empty() {
            return Err(HostFault::Failed);
        }
        let text = below(alloc, root.text.as_str(), name)?;
        root.make()?;
        changed(touched.note(&root.runtime, alloc, root.text.as_str(), text.as_str()))?;
        return Ok(changed(put(&root.runtime, text.as_str(), node))?);
    }
    let holder = find(&root.runtime, alloc, root.text.as_str(), holders)?;
    if !holder.is_directory() {
        return Err(HostFault::Failed);
    }
    let text = below(alloc, holder.text.as_str(), name)?;
    touched.note(&root.runtime, alloc, holder.text.as_str(), text.as_str())?;
    put(&root.runtime, text.as_str(), node)
}

/// A root that isn't there has nothing to sync.
fn sync_all<R: Files<File = F> + AllocGlobal + Clone + Drop, F: Lockable + Drop>(
    root: &mut HostRoot<R, F>,
    touched: &mut Touched,
) -> Result<(), HostFault> {
    if !root.take()? {
        return Ok(());
    }
    touched.sync(&root.runtime, root.text.as_str())
}
