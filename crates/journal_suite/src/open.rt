//! A change that is open, and which of its calls may follow.

ghost use Rattle.std.specs.Prelude.{◌≡◌, ◌≢◌, ◌≤◌, [], true, IfSome, IsTrue};
ghost use Rattle.std.specs.Option.{option_copied};
ghost use Rattle.folder_core.specs.Node.{IsNode, IsSmallAt};
ghost use Rattle.backup_store.specs.Places.{IsOutside};
ghost use Rattle.backup_store.specs.Turns.{AreTouches, IsTouch};
ghost use Rattle.install_journal.specs.Open.{IsReady, IsSpoiled, left_of};

use crate::quiet::Quiet;
use backup_store::{EntryNumber, StoreFault};
use folder_core::{FolderError, Name, Node, Path, Touch};
use install_journal::{Change, FinishFault, JournalFault, TouchFault};
use osgi_version::List;
use std::alloc::Global;

pub struct Open {
    change: Change,
    /// A touch may follow, or `finish`.
    ready: bool,
    /// It may be left.
    failed: bool,
    /// So many entries at least aren't put back.
    left: u32,
    ghost may_touch: { ready ≡ true → IsReady change },
    ghost may_leave: { failed ≡ true → IsSpoiled change },
    ghost has_left: { left ≤ left_of change },
}

/// How a change ended, or that it goes on.
pub enum End {
    Finished,
    /// It wasn't to be finished.
    Kept(Open),
    HandedBack(Open),
    Closing,
    NoMemory(Open),
}

impl Open {
    pub fn begin(alloc: Global, folder: &mut Quiet) -> Result<Open, JournalFault> {
        match Change::begin(alloc, folder) {
            Ok(change) => Ok(Open {
                change,
                ready: true,
                failed: false,
                left: 0,
            }),
            Err(fault) => Err(fault),
        }
    }

    /// None where it mayn't be touched.
    pub fn touch(
        &mut self,
        alloc: Global,
        folder: &mut Quiet,
        touch: &Touch,
    ) -> Option<Result<EntryNumber, TouchFault>> {
        if !self.ready || !may_touch(folder, touch) {
            return None;
        }
        self.ready = false;
        match self
            .change
            .touch(alloc, folder, &touch.path, touch.node.as_ref())
        {
            Ok(number) => {
                self.ready = true;
                self.left = self.left.saturating_add(1);
                Some(Ok(number))
            }
            Err(TouchFault::TooManyEntries) => Some(Err(TouchFault::TooManyEntries)),
            Err(TouchFault::Failed) => {
                self.failed = true;
                Some(Err(TouchFault::Failed))
            }
            Err(TouchFault::NoMemory) => {
                self.failed = true;
                Some(Err(TouchFault::NoMemory))
            }
        }
    }

    /// None where one of them mayn't be touched.
    pub fn touch_all(
        &mut self,
        alloc: Global,
        folder: &mut Quiet,
        touches: &[Touch],
    ) -> Option<Result<(), TouchFault>> {
        if !self.ready || !are_touches(touches) {
            return None;
        }
        self.ready = false;
        match self.change.touch_all(alloc, folder, touches) {
            Ok(()) => {
                self.ready = true;
                self.left = self.left.saturating_add(touches.len() as u32);
                Some(Ok(()))
            }
            Err(TouchFault::TooManyEntries) => Some(Err(TouchFault::TooManyEntries)),
            Err(TouchFault::Failed) => {
                self.failed = true;
                Some(Err(TouchFault::Failed))
            }
            Err(TouchFault::NoMemory) => {
                self.failed = true;
                Some(Err(TouchFault::NoMemory))
            }
        }
    }

    /// None where there is no such entry.
    pub fn undo(
        &mut self,
        alloc: Global,
        folder: &mut Quiet,
        number: u32,
    ) -> Option<Result<(), StoreFault>> {
        if number == 0 || self.left < number {
            return None;
        }
        self.ready = false;
        match self.change.undo_last(alloc, folder, EntryNumber(number)) {
            Ok(()) => {
                self.left = number - 1;
                Some(Ok(()))
            }
            Err(fault) => {
                self.left = number;
                self.failed = true;
                Some(Err(fault))
            }
        }
    }

    pub fn look(
        &mut self,
        alloc: Global,
        folder: &mut Quiet,
        path: &Path,
    ) -> Result<Option<Node>, FolderError> {
        match self.change.look(alloc, folder, path) {
            Ok(found) => Ok(found),
            Err(fault) => {
                self.failed = true;
                Err(fault)
            }
        }
    }

    pub fn kids(
        &mut self,
        alloc: Global,
        folder: &mut Quiet,
        path: &Path,
    ) -> Result<List<Name>, FolderError> {
        match self.change.kids(alloc, folder, path) {
            Ok(names) => Ok(names),
            Err(fault) => {
                self.failed = true;
                Err(fault)
            }
        }
    }

    pub fn finish(self, alloc: Global, folder: &mut Quiet) -> End {
        if !self.ready {
            return End::Kept(self);
        }
        let Open {
            change,
            ready: _,
            failed: _,
            left,
        } = self;
        match change.finish(alloc, folder) {
            Ok(_) => End::Finished,
            Err(FinishFault::Before(change)) => End::HandedBack(handed_back(change, left)),
            Err(FinishFault::NoMemory(change)) => End::NoMemory(handed_back(change, left)),
            Err(FinishFault::Closing) => End::Closing,
        }
    }

    pub fn abandon(self, alloc: Global, folder: &mut Quiet) -> Result<(), JournalFault> {
        let Open {
            change,
            ready: _,
            failed: _,
            left: _,
        } = self;
        change.abandon(alloc, folder)
    }

    /// It is handed back where it mayn't be left.
    pub fn leave(self) -> Option<Open> {
        if !self.failed {
            return Some(self);
        }
        let Open {
            change,
            ready: _,
            failed: _,
            left: _,
        } = self;
        change.leave();
        None
    }
}

/// It may be finished again.
fn handed_back(change: Change, left: u32) -> Open
    requires ready { IsReady change }
    requires spoiled { IsSpoiled change }
    requires left { left ≤ left_of change }
{
    Open {
        change,
        ready: true,
        failed: true,
        left,
    }
}

fn may_touch(folder: &Quiet, touch: &Touch) -> bool
    ensures not_root { IsTrue result → touch.now.path ≢ [] }
    ensures outside { IsTrue result → IsOutside touch.now.path }
    ensures node { IsTrue result → IfSome touch.now.node IsNode }
    ensures small { IsTrue result → IfSome touch.now.node (IsSmallAt touch.now.path) }
{
    may_stand(touch) && is_outside(&touch.path) && folder.inner.can_set(&touch.path)
}

/// Whether each path may be touched with its node. Whether it can be set when its turn comes is for the folder to refuse.
pub fn are_touches(touches: &[Touch]) -> bool
    ensures { IsTrue result → AreTouches touches.now }
{
    touches.iter().all(|touch| is_touch(touch))
}

fn is_touch(touch: &Touch) -> bool
    ensures { IsTrue result → IsTouch touch.now }
{
    may_stand(touch) && is_outside(&touch.path)
}

fn may_stand(touch: &Touch) -> bool
    ensures node { IsTrue result → IfSome touch.now.node IsNode }
    ensures small { IsTrue result → IfSome touch.now.node (IsSmallAt touch.now.path) }
{
    match &touch.node {
        Some(node) => node.may_stand_at(&touch.path),
        None => true,
    }
}

/// Whether the path neither is the root nor `.p2` nor below it.
pub fn is_outside(path: &Path) -> bool
    ensures { IsTrue result → (path.now ≢ []) × IsOutside path.now }
{
    match path.names().items() {
        [first, ..] => first.text().as_str() != ".p2",
        [] => false,
    }
}
