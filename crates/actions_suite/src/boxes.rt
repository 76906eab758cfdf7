//! What one box is asked.

ghost use Rattle.action_core.specs.Standing.{IsShape};
ghost use Rattle.instr_parser.specs.Given.{IsCall};

use action_core::{Action, ActionFault, Shape, Step};
use backup_store::EntryNumber;
use instr_parser::Call;
use osgi_version::{List, NoMemory};

/// Where the box of the call's kind stands.
pub fn place_of(actions: &[Box<dyn Action>], call: &Call) -> Option<usize> {
    for place in 0..actions.len() {
        if actions[place].kind() == call.kind {
            return Some(place);
        }
    }
    None
}

/// What the call does by this box. None where it is of another kind.
pub fn begin_in(
    action: &mut Box<dyn Action>,
    call: &Call,
    shape: &Shape,
) -> Option<Result<List<Step>, ActionFault>>
    requires call { IsCall call.now }
    requires shape { IsShape shape.now }
{
    if action.kind() != call.kind {
        return None;
    }
    Some(action.begin(call, shape))
}

/// Keeps a ticket, with room made for it.
pub fn keep_in(action: &mut Box<dyn Action>, ticket: EntryNumber) -> Result<(), NoMemory> {
    action.room()?;
    action.keep(ticket);
    Ok(())
}

pub fn undo_in(action: &mut Box<dyn Action>) -> Option<EntryNumber> {
    action.undo()
}

/// Whether none of them holds a ticket.
pub fn are_at_rest(actions: &[Box<dyn Action>]) -> bool {
    for place in 0..actions.len() {
        if actions[place].held() > 0 {
            return false;
        }
    }
    true
}
