ghost use Rattle.std.specs.Prelude.{◌≡◌, ◌≤◌, ⊤};
ghost use Rattle.folder_core.specs.Cause.{HasCause};
ghost use Rattle.folder_core.specs.Crash.{LeavesOnly};
ghost use Rattle.folder_core.specs.Step.{OnTold, Step};
ghost use Rattle.backup_store.specs.Held.{IsOpen as OpensGate};
ghost use Rattle.journal_caller.specs.Calls.{AreTouches, CanSetInTurn, IsLeftOrOld, IsLeftOldOrNew, set_in_turn};
ghost use Rattle.install_journal.specs.Closing.{OldOrNew};
ghost use Rattle.install_journal.specs.Open.{IsOpen, IsReady};
ghost use Rattle.install_journal.specs.Overlay.{SameOutside};
ghost use Rattle.install_journal.specs.Restored.{IsSettled, RestoresSame};

use folder_core::{Folder, Touch};
use install_journal::{Change, FinishFault};
use std::alloc::Global;

/// Which installation a crash or a recovery gives from then on: the old one, the new one, or either.
#[derive(Clone, Copy, Debug, PartialEq, Eq)]
pub enum Outcome {
    Old,
    New,
    Either,
}

/// Sets the nodes in turn, all or none of them.
///
/// At `Old` whatever crash came or comes leaves the old installation, once recovered; at `New` the new one stands for good.
/// Below `.p2` no crash leaves more than stood there, but at the journal's own places.
/// `Either` comes only where the folder failed in this call, as the change was closed.
pub fn set_in_turn<F: Folder>(alloc: Global, folder: &mut F, touches: &[Touch]) -> Outcome
    requires closed { OnTold (F.told folder.old) (λ s. ¬ (OpensGate s.now)) }
    requires touches { AreTouches touches.now }
    requires can_set { OnTold (F.told folder.old) (λ s. CanSetInTurn touches.now s.now) }
    ensures leaves { OnTold (F.told folder.old) (λ s. LeavesOnly F.told F.left_since folder.old folder.new (IsLeftOldOrNew (set_in_turn touches.now s.now) s)) }
    ensures old { result ≡ Outcome.Old → OnTold (F.told folder.old) (λ s. LeavesOnly F.told F.left_since folder.old folder.new (IsLeftOrOld s)) }
    ensures new { result ≡ Outcome.New → Step (F.told folder.old) (F.told folder.new) (λ s t. IsSettled (set_in_turn touches.now s.now) t) }
    ensures cause { HasCause (F.faults folder.old) (F.faults folder.new) (result ≡ Outcome.Either) }
{
    let Ok(mut change) = Change::begin(alloc, folder) else {
        return Outcome::Old;
    };
    for touch in touches {
        if change
            .touch(alloc, folder, &touch.path, touch.node.as_ref())
            .is_err()
        {
            return give_up_any(alloc, folder, change);
        }
    }
    complete_any(alloc, folder, change)
}

fn give_up_any<F: Folder>(alloc: Global, folder: &mut F, change: Change) -> Outcome
    requires { OnTold (F.told folder.old) (IsOpen change) }
    ensures restores { RestoresSame F.told F.left_since folder.old folder.new }
    ensures tells { Step (F.told folder.old) (F.told folder.new) (λ s t. ⊤) }
    ensures old { result ≡ Outcome.Old }
    ensures later { F.faults folder.old ≤ F.faults folder.new }
{
    let _ = change.abandon(alloc, folder);
    Outcome::Old
}

fn complete_any<F: Folder>(alloc: Global, folder: &mut F, change: Change) -> Outcome
    requires ready { IsReady change }
    requires open { OnTold (F.told folder.old) (IsOpen change) }
    ensures leaves { OnTold (F.told folder.old) (λ s. LeavesOnly F.told F.left_since folder.old folder.new (OldOrNew s.now)) }
    ensures tells { Step (F.told folder.old) (F.told folder.new) (λ s t. ⊤) }
    ensures old { result ≡ Outcome.Old → RestoresSame F.told F.left_since folder.old folder.new }
    ensures new { result ≡ Outcome.New → Step (F.told folder.old) (F.told folder.new) (λ s t. IsSettled s.now t) }
    ensures cause { HasCause (F.faults folder.old) (F.faults folder.new) (result ≡ Outcome.Either) }
{
    match change.finish(alloc, folder) {
        Ok(_) => Outcome::New,
        Err(FinishFault::Before(change)) => give_up_any(alloc, folder, change),
        Err(FinishFault::NoMemory(change)) => give_up_any(alloc, folder, change),
        Err(FinishFault::Closing) => Outcome::Either,
    }
}
