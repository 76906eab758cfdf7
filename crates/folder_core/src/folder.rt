ghost use Rattle.std.specs.Prelude.{◌≡◌, ℕ, ◌≤◌, [], Contains, Option, IfOk, IfSome, OnOk, OnErr, IsErr, IsErrOf};
ghost use Rattle.std.specs.Option.{option_copied};
ghost use Rattle.folder_core.specs.Cause.{HasCause};
ghost use Rattle.folder_core.specs.Crash.{IsImage, Touches, Narrows, Elapses};
ghost use Rattle.folder_core.specs.Folder.{Map, Told, CanSet, IsKid, SameBut, set_at};
ghost use Rattle.folder_core.specs.Name.{AreRising, AreThose};
ghost use Rattle.folder_core.specs.Node.{IsNode, IsSmallAt};
ghost use Rattle.folder_core.specs.Step.{OnTold, Step};

use crate::fault::{Failed, FolderError};
use crate::name::Name;
use crate::node::Node;
use crate::path::Path;
use osgi_version::List;
use std::alloc::Global;

/// A folder that this program owns: nodes by path.
pub trait Folder {
    /// What stands where and what a crash leaves, for a folder that tells it. Whether it does stays the same over every
    /// call.
    ghost told: { Self → Option Told };

    /// What a crash at some moment from that one on may have left, during a call or between two.
    ghost left_since: { Self → ℕ → Map → Type 0 };

    /// How often the folder has failed.
    ghost faults: { Self → ℕ };

    /// The node at a path, or None where there is none.
    fn look(&mut self, alloc: Global, path: &Path) -> Result<Option<Node>, FolderError>
        ensures found { IfOk result (λ found. OnTold (told self.old) (λ s. s.now path.now ≡ found)) }
        ensures node { IfOk result (λ found. IfSome found IsNode) }
        ensures small { IfOk result (λ found. IfSome found (IsSmallAt path.now)) }
        ensures stays { Step (told self.old) (told self.new) (λ s t. t.now ≡ s.now) }
        ensures unsynced { Step (told self.old) (told self.new) (λ s t. t.synced ≡ s.synced) }
        ensures untouched { Step (told self.old) (told self.new) (λ s t. t.touched ≡ s.touched) }
        ensures crash { Step (told self.old) (told self.new) Narrows }
        ensures time { Step (told self.old) (told self.new)
            (λ s t. Elapses s.moment t.moment (left_since self.old) (left_since self.new) (IsImage t)) }
        ensures cause { HasCause (faults self.old) (faults self.new) (IsErrOf result FolderError.Failed) };

    /// The names directly below a directory, in rising order. At any other path there are none.
    fn kids(&mut self, alloc: Global, path: &Path) -> Result<List<Name>, FolderError>
        ensures kids { IfOk result (λ names. OnTold (told self.old) (λ s. AreThose (IsKid s.now path.now) names)) }
        ensures rising { IfOk result AreRising }
        ensures stays { Step (told self.old) (told self.new) (λ s t. t.now ≡ s.now) }
        ensures unsynced { Step (told self.old) (told self.new) (λ s t. t.synced ≡ s.synced) }
        ensures untouched { Step (told self.old) (told self.new) (λ s t. t.touched ≡ s.touched) }
        ensures crash { Step (told self.old) (told self.new) Narrows }
        ensures time { Step (told self.old) (told self.new)
            (λ s t. Elapses s.moment t.moment (left_since self.old) (left_since self.new) (IsImage t)) }
        ensures cause { HasCause (faults self.old) (faults self.new) (IsErrOf result FolderError.Failed) };

    /// Puts a node at a path, or takes the one there away. Where the folder failed, any node or none may stand there.
    fn set(&mut self, path: &Path, node: Option<&Node>) -> Result<(), FolderError>
        requires place { OnTold (told self.old) (λ s. CanSet s.now path.now) }
        requires node { IfSome (option_copied node) IsNode }
        requires small { IfSome (option_copied node) (IsSmallAt path.now) }

        ensures ok { OnOk result (Step (told self.old) (told self.new)
            (λ s t. t.now ≡ set_at s.now path.now (option_copied node.entry))) }
        ensures no_memory { IsErrOf result FolderError.NoMemory
            → Step (told self.old) (told self.new) (λ s t. (t.now ≡ s.now) × (t.touched ≡ s.touched)) }
        ensures elsewhere { Step (told self.old) (told self.new) (λ s t. SameBut path.now s.now t.now) }
        ensures unsynced { Step (told self.old) (told self.new) (λ s t. t.synced ≡ s.synced) }
        ensures touched { ¬ (IsErrOf result FolderError.NoMemory)
            → Step (told self.old) (told self.new) (λ s t. Contains t.touched path.now) }
        ensures crash { Step (told self.old) (told self.new) (Touches path.now) }
        ensures time { Step (told self.old) (told self.new)
            (λ s t. Elapses s.moment t.moment (left_since self.old) (left_since self.new) (IsImage t)) }
        ensures cause { HasCause (faults self.old) (faults self.new) (IsErrOf result FolderError.Failed) };

    /// Makes what stands now survive a crash.
    fn sync(&mut self) -> Result<(), Failed>
        ensures stays { Step (told self.old) (told self.new) (λ s t. t.now ≡ s.now) }
        ensures synced { OnOk result (Step (told self.old) (told self.new) (λ s t. t.synced ≡ s.now)) }
        ensures settled { OnOk result (Step (told self.old) (told self.new) (λ s t. t.touched ≡ [])) }
        ensures failed { OnErr result (Step (told self.old) (told self.new) (λ s t. t.synced ≡ s.synced)) }
        ensures untouched { OnErr result (Step (told self.old) (told self.new) (λ s t. t.touched ≡ s.touched)) }
        ensures crash { Step (told self.old) (told self.new) Narrows }
        ensures time { Step (told self.old) (told self.new)
            (λ s t. Elapses s.moment t.moment (left_since self.old) (left_since self.new) (IsImage t)) }
        ensures cause { HasCause (faults self.old) (faults self.new) (IsErr result) };

    /// What stands now is an image, so it is well formed.
    ghost image_now: { (f : Self) → OnTold (told f) (λ s. IsImage s s.now) };

    /// This moment is one of those since an earlier one.
    ghost counts_now: { (f : Self) → OnTold (told f)
        (λ s. (moment : ℕ) (m : Map) → moment ≤ s.moment → IsImage s m → left_since f moment m) };

    /// Since this moment there is no other.
    ghost only_now: { (f : Self) → OnTold (told f) (λ s. (m : Map) → left_since f s.moment m → IsImage s m) };
}
