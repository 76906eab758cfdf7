ghost use Rattle.std.specs.Prelude.{◌≡◌, Some};
ghost use Rattle.folder_core.specs.Folder.{IsFormed};
ghost use Rattle.folder_memory.specs.State.{state_of, LeftSince};

use crate::history::History;
use crate::image::{ImageFault, first_untouched};
use crate::nodes::{copied, is_directory};
use crate::places::{has_below, kids_of};
use crate::schedule::Schedule;
use folder_core::{Failed, Folder, FolderError, Name, Node, Path, Touch};
use osgi_version::List;
use std::alloc::Global;

/// A folder in memory. It keeps a record of its calls, so that it tells every moment.
///
/// A look-up costs the logarithm of the number of its paths, and so do `can_set` and a `set`.
#[derive(Debug, Drop)]
pub struct MemoryFolder {
    history: History,
    schedule: Schedule,
    ghost formed: { ∥ IsFormed (state_of history.events.items).now ∥₁ },
}

impl MemoryFolder {
    ghost use Rattle.std.specs.Prelude.{[], ◌↔◌, IfOk, IsTrue, None};
    ghost use Rattle.std.specs.Option.{option_copied};
    ghost use Rattle.folder_core.specs.Crash.{IsImage};
    ghost use Rattle.folder_core.specs.Folder.{CanSet, Map};
    ghost use Rattle.folder_memory.specs.Image.{Admits, BeginsWith, IsChoiceOf, OkOrNoMemory, chosen_of};
    ghost use Rattle.folder_memory.specs.Memory.{schedule_of, told_by};
    ghost use Rattle.folder_memory.specs.Schedule.{quiet};
    ghost use Rattle.folder_memory.specs.State.{first_state};

    /// A folder with nothing in it. No call fails.
    pub fn new(alloc: Global) -> MemoryFolder
        ensures state { told_by result ≡ first_state }
        ensures schedule { schedule_of result ≡ quiet }
    {
        MemoryFolder {
            history: History::new(alloc),
            schedule: Schedule::new(alloc),
        }
    }

    /// These calls fail, counted from 1, from now on. They take the place of earlier ones. Each call goes through this list.
    pub fn fail_at(&mut self, calls: List<u64>)
        ensures state { told_by self.new ≡ told_by self.old }
        ensures schedule { schedule_of self.new
            ≡ record (schedule_of self.old) { listed = calls; listed_after = (schedule_of self.old).calls } }
    {
        self.schedule.fail_at(calls);
    }

    /// After so many calls from now on every call fails. It takes the place of an earlier fuse.
    pub fn fuse(&mut self, passes: u64)
        ensures state { told_by self.new ≡ told_by self.old }
        ensures schedule { schedule_of self.new
            ≡ record (schedule_of self.old) { fuse = Some passes; fused_after = (schedule_of self.old).calls } }
    {
        self.schedule.fuse(passes);
    }

    /// How often a method of the trait was called. The count ends with its type.
    pub fn calls(&self) -> u64
        ensures { result ≡ (schedule_of self.now).calls }
    {
        self.schedule.calls
    }

    /// The paths that were set since the last sync, in turn.
    pub fn touched(&self) -> &[Path]
        ensures { result.now ≡ (told_by self.now).touched }
    {
        self.history.touched.as_slice()
    }

    /// The node at a path now. It counts as no call, and never fails.
    pub fn node(&self, path: &Path) -> Option<&Node>
        ensures { (told_by self.now).now path.now ≡ option_copied result }
    {
        self.history.node(path)
    }

    /// Whether a node may be put at a path.
    pub fn can_set(&self, path: &Path) -> bool
        ensures { IsTrue result ↔ CanSet (told_by self.now).now path.now }
    {
        let Some((_, parent)) = path.names().items().split_last() else {
            return false;
        };
        self.history.has_directory(parent, path) && !has_below(&self.history.nodes, path)
    }

    /// The folder as a crash may leave it: with these nodes at touched paths, and with what was synced at the others. Of
    /// two choices for one path the later counts. Nothing is touched in it, and no call fails. It goes through the whole
    /// record, and for each choice through the touched paths.
    pub fn image(&self, alloc: Global, choice: &List<Touch>) -> Result<MemoryFolder, ImageFault>
        ensures begins { IfOk result (λ image. BeginsWith (told_by image) (chosen_of (told_by self.now) choice.now)) }
        ensures image { IfOk result (λ image. IsImage (told_by self.now) (told_by image).now) }
        ensures schedule { IfOk result (λ image. schedule_of image ≡ quiet) }
        ensures admits { Admits (told_by self.now) choice.now result }
        // Each image is made by the choices that say what it has at touched paths.
        ensures each { (m : Map) → IsImage (told_by self.now) m → IsChoiceOf (told_by self.now) m choice.now
            → OkOrNoMemory (λ image. (told_by image).now ≡ m) result }
    {
        let choice = choice.items();
        if let Some(place) = first_untouched(self.touched(), choice) {
            return Err(ImageFault::NotTouched {
                place: place as u64,
            });
        }
        let mut history = self.history.synced(alloc)?;
        history.set_all(choice)?;
        let is_formed = history.is_formed(alloc)?;
        if !is_formed {
            return Err(ImageFault::NotWellFormed);
        }
        history.sync();
        Ok(MemoryFolder {
            history,
            schedule: Schedule::new(alloc),
        })
    }
}

impl Folder for MemoryFolder {
    ghost use Rattle.std.specs.Prelude.{◌≡◌, ◌↔◌, [], Contains, IfOk, IfSome, OnOk, OnErr, IsErr, IsErrOf, Some};
    ghost use Rattle.std.specs.Option.{option_copied};
    ghost use Rattle.folder_core.specs.Cause.{HasCause};
    ghost use Rattle.folder_core.specs.Crash.{IsImage, Touches, Narrows, Elapses};
    ghost use Rattle.folder_core.specs.Folder.{CanSet, IsKid, SameBut, set_at};
    ghost use Rattle.folder_core.specs.Name.{AreRising, AreThose};
    ghost use Rattle.folder_core.specs.Node.{IsNode, IsSmallAt};
    ghost use Rattle.folder_core.specs.Step.{Step};
    ghost use Rattle.folder_memory.specs.Memory.{schedule_of, told_by};
    ghost use Rattle.folder_memory.specs.Obeys.{Obeys};
    ghost use Rattle.folder_memory.specs.Schedule.{Counts, FailsNext};
    ghost use Rattle.folder_memory.specs.State.{state_of, LeftSince};
    ghost use Rattle.folder_core.specs.Formed.{IsFormed-had};
    ghost use Rattle.folder_memory.specs.Moments.{image_now, counts_now, only_now};

    ghost told = { λ f. Some (state_of f.history.events.items) };

    ghost left_since = { λ f moment m. LeftSince f.history.events.items moment m };

    ghost faults = { λ f. f.schedule.faults };

    ghost image_now = { λ f. image_now f.history.events.items (IsFormed-had (state_of f.history.events.items).now f.formed) };

    ghost counts_now = { λ f moment m earlier image. counts_now f.history.events.items moment m earlier image };

    ghost only_now = { λ f m left. only_now f.history.events.items m left };

    fn look(&mut self, _alloc: Global, path: &Path) -> Result<Option<Node>, FolderError>
        ensures found { IfOk result (λ found. (told_by self.old).now path.now ≡ found) }
        ensures node { IfOk result (λ found. IfSome found IsNode) }
        ensures small { IfOk result (λ found. IfSome found (IsSmallAt path.now)) }
        ensures stays { Step (⟦<MemoryFolder as Folder>⟧.told self.old) (⟦<MemoryFolder as Folder>⟧.told self.new) (λ s t. t.now ≡ s.now) }
        ensures unsynced { Step (⟦<MemoryFolder as Folder>⟧.told self.old) (⟦<MemoryFolder as Folder>⟧.told self.new) (λ s t. t.synced ≡ s.synced) }
        ensures untouched { Step (⟦<MemoryFolder as Folder>⟧.told self.old) (⟦<MemoryFolder as Folder>⟧.told self.new) (λ s t. t.touched ≡ s.touched) }
        ensures crash { Step (⟦<MemoryFolder as Folder>⟧.told self.old) (⟦<MemoryFolder as Folder>⟧.told self.new) Narrows }
        ensures time { Step (⟦<MemoryFolder as Folder>⟧.told self.old) (⟦<MemoryFolder as Folder>⟧.told self.new)
            (λ s t. Elapses s.moment t.moment (⟦<MemoryFolder as Folder>⟧.left_since self.old) (⟦<MemoryFolder as Folder>⟧.left_since self.new) (IsImage t)) }
        ensures cause { HasCause (schedule_of self.old).faults (schedule_of self.new).faults (IsErrOf result FolderError.Failed) }

        // It fails exactly where it is told to, but for want of memory.
        ensures fails { Obeys (FailsNext (schedule_of self.old)) result }
        ensures counts { Counts (FailsNext (schedule_of self.old)) (schedule_of self.old) (schedule_of self.new) }
    {
        if self.schedule.next() {
            return Err(FolderError::Failed);
        }
        Ok(copied(self.node(path))?)
    }

    /// Goes through what stands below the path.
    fn kids(&mut self, alloc: Global, path: &Path) -> Result<List<Name>, FolderError>
        ensures kids { IfOk result (λ names. AreThose (IsKid (told_by self.old).now path.now) names) }
        ensures rising { IfOk result AreRising }
        ensures stays { Step (⟦<MemoryFolder as Folder>⟧.told self.old) (⟦<MemoryFolder as Folder>⟧.told self.new) (λ s t. t.now ≡ s.now) }
        ensures unsynced { Step (⟦<MemoryFolder as Folder>⟧.told self.old) (⟦<MemoryFolder as Folder>⟧.told self.new) (λ s t. t.synced ≡ s.synced) }
        ensures untouched { Step (⟦<MemoryFolder as Folder>⟧.told self.old) (⟦<MemoryFolder as Folder>⟧.told self.new) (λ s t. t.touched ≡ s.touched) }
        ensures crash { Step (⟦<MemoryFolder as Folder>⟧.told self.old) (⟦<MemoryFolder as Folder>⟧.told self.new) Narrows }
        ensures time { Step (⟦<MemoryFolder as Folder>⟧.told self.old) (⟦<MemoryFolder as Folder>⟧.told self.new)
            (λ s t. Elapses s.moment t.moment (⟦<MemoryFolder as Folder>⟧.left_since self.old) (⟦<MemoryFolder as Folder>⟧.left_since self.new) (IsImage t)) }
        ensures cause { HasCause (schedule_of self.old).faults (schedule_of self.new).faults (IsErrOf result FolderError.Failed) }

        // It fails exactly where it is told to, but for want of memory.
        ensures fails { Obeys (FailsNext (schedule_of self.old)) result }
        ensures counts { Counts (FailsNext (schedule_of self.old)) (schedule_of self.old) (schedule_of self.new) }
    {
        if self.schedule.next() {
            return Err(FolderError::Failed);
        }
        if is_directory(self.node(path)) {
            Ok(kids_of(alloc, &self.history.nodes, path)?)
        } else {
            Ok(List::new(alloc))
        }
    }

    /// A `set` that fails leaves its path as it was.
    fn set(&mut self, path: &Path, node: Option<&Node>) -> Result<(), FolderError>
        requires place { CanSet (told_by self.old).now path.now }
        requires node { IfSome (option_copied node) IsNode }
        requires small { IfSome (option_copied node) (IsSmallAt path.now) }

        ensures ok { OnOk result (Step (⟦<MemoryFolder as Folder>⟧.told self.old) (⟦<MemoryFolder as Folder>⟧.told self.new)
            (λ s t. t.now ≡ set_at s.now path.now (option_copied node.entry))) }
        ensures no_memory { IsErrOf result FolderError.NoMemory
            → Step (⟦<MemoryFolder as Folder>⟧.told self.old) (⟦<MemoryFolder as Folder>⟧.told self.new) (λ s t. (t.now ≡ s.now) × (t.touched ≡ s.touched)) }
        ensures elsewhere { Step (⟦<MemoryFolder as Folder>⟧.told self.old) (⟦<MemoryFolder as Folder>⟧.told self.new) (λ s t. SameBut path.now s.now t.now) }
        ensures unsynced { Step (⟦<MemoryFolder as Folder>⟧.told self.old) (⟦<MemoryFolder as Folder>⟧.told self.new) (λ s t. t.synced ≡ s.synced) }
        ensures touched { ¬ (IsErrOf result FolderError.NoMemory)
            → Step (⟦<MemoryFolder as Folder>⟧.told self.old) (⟦<MemoryFolder as Folder>⟧.told self.new) (λ s t. Contains t.touched path.now) }
        ensures crash { Step (⟦<MemoryFolder as Folder>⟧.told self.old) (⟦<MemoryFolder as Folder>⟧.told self.new) (Touches path.now) }
        ensures time { Step (⟦<MemoryFolder as Folder>⟧.told self.old) (⟦<MemoryFolder as Folder>⟧.told self.new)
            (λ s t. Elapses s.moment t.moment (⟦<MemoryFolder as Folder>⟧.left_since self.old) (⟦<MemoryFolder as Folder>⟧.left_since self.new) (IsImage t)) }
        ensures cause { HasCause (schedule_of self.old).faults (schedule_of self.new).faults (IsErrOf result FolderError.Failed) }

        // It fails exactly where it is told to, but for want of memory.
        ensures fails { Obeys (FailsNext (schedule_of self.old)) result }
        ensures counts { Counts (FailsNext (schedule_of self.old)) (schedule_of self.old) (schedule_of self.new) }
        // Where it fails, its path stays as it was.
        ensures failed { OnErr result ((told_by self.new).now ≡ (told_by self.old).now) }
    {
        if self.schedule.next() {
            let there = copied(self.node(path))?;
            self.history.set(path, there.as_ref())?;
            return Err(FolderError::Failed);
        }
        Ok(self.history.set(path, node)?)
    }

    /// Takes no memory.
    fn sync(&mut self) -> Result<(), Failed>
        ensures stays { Step (⟦<MemoryFolder as Folder>⟧.told self.old) (⟦<MemoryFolder as Folder>⟧.told self.new) (λ s t. t.now ≡ s.now) }
        ensures synced { OnOk result (Step (⟦<MemoryFolder as Folder>⟧.told self.old) (⟦<MemoryFolder as Folder>⟧.told self.new) (λ s t. t.synced ≡ s.now)) }
        ensures settled { OnOk result (Step (⟦<MemoryFolder as Folder>⟧.told self.old) (⟦<MemoryFolder as Folder>⟧.told self.new) (λ s t. t.touched ≡ [])) }
        ensures failed { OnErr result (Step (⟦<MemoryFolder as Folder>⟧.told self.old) (⟦<MemoryFolder as Folder>⟧.told self.new) (λ s t. t.synced ≡ s.synced)) }
        ensures untouched { OnErr result (Step (⟦<MemoryFolder as Folder>⟧.told self.old) (⟦<MemoryFolder as Folder>⟧.told self.new) (λ s t. t.touched ≡ s.touched)) }
        ensures crash { Step (⟦<MemoryFolder as Folder>⟧.told self.old) (⟦<MemoryFolder as Folder>⟧.told self.new) Narrows }
        ensures time { Step (⟦<MemoryFolder as Folder>⟧.told self.old) (⟦<MemoryFolder as Folder>⟧.told self.new)
            (λ s t. Elapses s.moment t.moment (⟦<MemoryFolder as Folder>⟧.left_since self.old) (⟦<MemoryFolder as Folder>⟧.left_since self.new) (IsImage t)) }
        ensures cause { HasCause (schedule_of self.old).faults (schedule_of self.new).faults (IsErr result) }

        // It fails exactly where it is told to.
        ensures fails { IsErr result ↔ FailsNext (schedule_of self.old) }
        ensures counts { Counts (FailsNext (schedule_of self.old)) (schedule_of self.old) (schedule_of self.new) }
    {
        if self.schedule.next() {
            return Err(Failed);
        }
        self.history.sync();
        Ok(())
    }
}
