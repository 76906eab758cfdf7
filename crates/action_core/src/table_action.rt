ghost use Rattle.std.specs.Prelude.{◌≡◌};
ghost use Rattle.action_core.specs.Seen.{resting};
ghost use Rattle.action_core.specs.Tickets.{seen_with, spare_in};

use crate::action::Action;
use crate::fault::ActionFault;
use crate::row::Row;
use crate::shape::Shape;
use crate::step::Step;
use crate::tickets::Tickets;
use backup_store::EntryNumber;
use install_journal::Receipt;
use instr_parser::{ActionKind, Call};
use osgi_version::{List, NoMemory};
use std::alloc::Global;
use std::marker::PhantomData;

/// The action whose calls do what a row of the table says.
#[derive(Drop)]
pub struct TableAction<R> {
    tickets: Tickets,
    row: PhantomData<R>,
}

impl<R: Row> TableAction<R> {
    /// At rest.
    pub fn new(alloc: Global) -> TableAction<R>
        ensures { ⟦<TableAction<R> as Action>⟧.action_seen result ≡ resting R.KIND }
    {
        TableAction {
            tickets: Tickets::new(alloc),
            row: PhantomData,
        }
    }
}

impl<R: Row> Action for TableAction<R> {
    ghost action_seen = { λ a. seen_with R.KIND a.tickets };

    ghost spare = { λ a. spare_in a.tickets };

    fn kind(&self) -> ActionKind {
        ActionKind(R::KIND)
    }

    fn begin(&mut self, call: &Call, shape: &Shape) -> Result<List<Step>, ActionFault> {
        R::steps(call, shape)
    }

    fn room(&mut self) -> Result<(), NoMemory> {
        self.tickets.room()
    }

    fn keep(&mut self, entry: EntryNumber) {
        self.tickets.keep(entry);
    }

    fn undo(&mut self) -> Option<EntryNumber> {
        self.tickets.undo()
    }

    fn held(&self) -> u64 {
        self.tickets.held()
    }

    fn settle(&mut self, _receipt: &Receipt) {
        self.tickets.settle();
    }
}
