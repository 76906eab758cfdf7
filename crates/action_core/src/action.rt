ghost use Rattle.std.specs.Prelude.{◌≡◌, ◌≢◌, ℕ, ◌+◌, ◌<◌, ◌≤◌, length, IfOk, IfErr, OnOk, MatchOption};
ghost use Rattle.folder_core.specs.Folder.{Map, IsFormed};
ghost use Rattle.instr_parser.specs.Given.{IsCall};
ghost use Rattle.action_core.specs.Effect.{HasEffect, StandsFor};
ghost use Rattle.action_core.specs.Seen.{Seen, with_ticket, without_tickets};
ghost use Rattle.action_core.specs.Standing.{IsShape, site_of};
ghost use Rattle.action_core.specs.Steps.{CanPerform, Undoes};

use crate::fault::ActionFault;
use crate::shape::Shape;
use crate::step::Step;
use backup_store::EntryNumber;
use install_journal::Receipt;
use instr_parser::{ActionKind, Call};
use osgi_version::{List, NoMemory};

/// An action of a touchpoint. It touches no folder: it says what a call of its kind does, and keeps a ticket for each thing
/// that was done, the number of the journal's entry.
pub trait Action: Drop {
    /// Its kind, which no call changes, and its tickets.
    ghost action_seen: { Self → Seen };

    /// How many tickets more are sure to find room.
    ghost spare: { Self → ℕ };

    fn kind(&self) -> ActionKind
        ensures { result ≡ (action_seen self.now).kind };

    /// What a call does to a folder that the shape stands for: the steps, in order, or the refusal. It takes time linear in
    /// the shape and the steps, but where a kind says more of itself.
    fn begin(&mut self, call: &Call, shape: &Shape) -> Result<List<Step>, ActionFault>
        requires kind { call.now.kind ≡ (action_seen self.old).kind }
        requires call { IsCall call.now }
        requires shape { IsShape shape.now }

        ensures seen { action_seen self.new ≡ action_seen self.old }
        ensures steps { IfOk result (λ steps. (m : Map) → StandsFor shape.now call.now m → HasEffect (site_of shape.now) call.now m shape.now.noted (Ok steps)) }
        ensures refused { IfErr result (λ fault. fault ≢ ActionFault.NoMemory → (m : Map) → StandsFor shape.now call.now m → HasEffect (site_of shape.now) call.now m shape.now.noted (Err fault)) }
        // `set`'s condition is met for each step when its turn comes.
        ensures settable { IfOk result (λ steps. (m : Map) → StandsFor shape.now call.now m → IsFormed m → CanPerform shape.now.install m steps) }
        // Undone the newest first, the steps leave the map before.
        ensures undone { IfOk result (λ steps. (m : Map) → Undoes m steps) };

    /// Makes sure that there is room for one more ticket.
    fn room(&mut self) -> Result<(), NoMemory>
        ensures seen { action_seen self.new ≡ action_seen self.old }
        ensures ok { OnOk result (0 < spare self.new) };

    /// Takes one more ticket, in the room that there is.
    fn keep(&mut self, entry: EntryNumber)
        requires { 0 < spare self.old }
        ensures seen { action_seen self.new ≡ with_ticket (action_seen self.old) entry }
        ensures spare { spare self.old ≤ spare self.new + 1 };

    /// Takes the newest ticket off. None exactly where there is none.
    fn undo(&mut self) -> Option<EntryNumber>
        ensures { MatchOption result
            ((action_seen self.old ≡ without_tickets (action_seen self.old)) × (action_seen self.new ≡ action_seen self.old))
            (λ entry. action_seen self.old ≡ with_ticket (action_seen self.new) entry) };

    /// How many tickets there are. It is at rest where there are none.
    fn held(&self) -> u64
        ensures { result ≡ length (action_seen self.now).tickets };

    /// Lets all tickets go, once the change that they belong to is finished.
    fn settle(&mut self, receipt: &Receipt)
        ensures { action_seen self.new ≡ without_tickets (action_seen self.old) };
}
