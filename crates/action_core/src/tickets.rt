ghost use Rattle.std.specs.Prelude.{◌≡◌, ◌+◌, ◌<◌, ◌≤◌, [], ◌∷◌, ◌++◌, length, OnOk, MatchOption};
ghost use Rattle.action_core.specs.Tickets.{tickets_in, spare_in};

use backup_store::EntryNumber;
use osgi_version::NoMemory;
use std::alloc::Global;

/// The numbers of the entries that were kept for an action's calls, the newest last.
#[derive(Debug, Drop)]
pub struct Tickets {
    held: Vec<EntryNumber>,
}

impl Tickets {
    pub fn new(alloc: Global) -> Tickets
        ensures { tickets_in result ≡ [] }
    {
        Tickets {
            held: Vec::new(alloc),
        }
    }

    /// Makes sure that there is room for one more.
    pub fn room(&mut self) -> Result<(), NoMemory>
        ensures same { tickets_in self.new ≡ tickets_in self.old }
        ensures room { OnOk result (0 < spare_in self.new) }
    {
        self.held.reserve(1)?;
        Ok(())
    }

    /// Takes one more, in the room that there is.
    pub fn keep(&mut self, entry: EntryNumber)
        requires { 0 < spare_in self.old }
        ensures kept { tickets_in self.new ≡ tickets_in self.old ++ entry ∷ [] }
        ensures spare { spare_in self.old ≤ spare_in self.new + 1 }
    {
        if self.held.push(entry).is_err() {
            unreachable!()
        }
    }

    /// Takes the newest one off. None exactly where there is none.
    pub fn undo(&mut self) -> Option<EntryNumber>
        ensures { MatchOption result ((tickets_in self.old ≡ []) × (tickets_in self.new ≡ []))
            (λ entry. tickets_in self.old ≡ tickets_in self.new ++ entry ∷ []) }
    {
        self.held.pop()
    }

    pub fn held(&self) -> u64
        ensures { result ≡ length (tickets_in self.now) }
    {
        self.held.len() as u64
    }

    /// Lets all of them go.
    pub fn settle(&mut self)
        ensures { tickets_in self.new ≡ [] }
    {
        self.held.clear();
    }
}
