//! Calls done one after the other on a folder, and undone from their end.

ghost use Rattle.std.specs.Prelude.{All};
ghost use Rattle.action_core.specs.Standing.{IsShape};
ghost use Rattle.instr_parser.specs.Given.{IsCall};

use crate::boxes::{are_at_rest, begin_in, keep_in, place_of, undo_in};
use crate::gather::{bare_shape, copied, near, nodes_of, places_of};
use crate::shape::is_shape;
use action_core::{Action, ActionFault, Shape, Step};
use backup_store::EntryNumber;
use folder_core::{Node, Path, Touch};
use folder_memory::MemoryFolder;
use folder_rows::{PutAnswer, RowFault, push_contents, put};
use instr_parser::{ActionKind, Call};
use osgi_version::{List, NoMemory, Twin};
use std::alloc::Global;

/// What a call does, or its refusal.
pub type Outcome = Result<List<Step>, ActionFault>;

/// A call of this kind, and what came of it.
#[derive(Drop)]
pub struct Performed {
    pub kind: ActionKind,
    pub outcome: Outcome,
}

/// A node that was put: which box has its ticket, and what stood there before.
#[derive(Drop)]
struct Done {
    place: usize,
    before: Touch,
}

/// The paths that are noted for a source and a target.
#[derive(Drop)]
struct Noted {
    source: Path,
    target: Path,
    paths: List<Path>,
}

/// What was done since the session began.
#[derive(Drop)]
pub struct Session {
    done: Vec<Done>,
    notes: Vec<Noted>,
    /// What stood in the folder then.
    contents: Vec<u8>,
    /// Each step was one that the folder takes.
    pub is_whole: bool,
}

impl Session {
    pub fn start(alloc: Global, folder: &MemoryFolder) -> Result<Session, NoMemory> {
        let contents = contents_of(alloc, folder)?;
        Ok(Session {
            done: Vec::new(alloc),
            notes: Vec::new(alloc),
            contents,
            is_whole: true,
        })
    }

    fn alloc(&self) -> Global {
        *self.done.allocator()
    }

    /// The number of the next entry.
    fn ticket(&self) -> EntryNumber {
        EntryNumber(u32::try_from(self.done.len()).unwrap_or(u32::MAX))
    }

    /// What is noted for the source and the target.
    fn noted(&self, source: &Path, target: &Path) -> Result<List<Path>, NoMemory> {
        for note in self.notes.as_slice() {
            if note.source == *source && note.target == *target {
                return note.paths.copy();
            }
        }
        Ok(List::new(self.alloc()))
    }

    fn note(&mut self, source: Path, target: Path, paths: &List<Path>) -> Result<(), NoMemory> {
        let paths = paths.copy()?;
        self.notes
            .retain(|note| note.source != source || note.target != target);
        self.notes.push(Noted {
            source,
            target,
            paths,
        })?;
        Ok(())
    }
}

/// What stands in the folder, as it is printed.
pub fn contents_of(alloc: Global, folder: &MemoryFolder) -> Result<Vec<u8>, NoMemory> {
    let mut contents = Vec::new(alloc);
    push_contents(&mut contents, folder)?;
    Ok(contents)
}

/// What the calls do one after the other. A call that is refused changes nothing.
pub fn perform_all(
    session: &mut Session,
    actions: &mut Vec<Box<dyn Action>>,
    folder: &mut MemoryFolder,
    calls: &List<Call>,
) -> Result<List<Performed>, RowFault>
    requires { All IsCall calls.now }
{
    let mut performed = List::new(session.alloc());
    let calls = calls.items();
    for call in calls {
        performed.push(perform(session, actions, folder, call)?)?;
    }
    Ok(performed)
}

fn perform(
    session: &mut Session,
    actions: &mut Vec<Box<dyn Action>>,
    folder: &mut MemoryFolder,
    call: &Call,
) -> Result<Performed, RowFault>
    requires { IsCall call.now }
{
    let Some(place) = place_of(actions, call) else {
        return Err(RowFault::Spelling);
    };
    let shape = gather(session, folder, call)?;
    let outcome = answer_of(actions, place, call, &shape)?;
    if let Ok(steps) = &outcome {
        apply(session, actions, folder, place, steps)?;
        keep_notes(session, call, &shape, steps)?;
    }
    Ok(Performed {
        kind: call.kind,
        outcome,
    })
}

/// What the call's places look like in the folder.
fn gather(session: &Session, folder: &mut MemoryFolder, call: &Call) -> Result<Shape, RowFault> {
    let alloc = session.alloc();
    let mut shape = bare_shape(alloc)?;
    let places = places_of(call, &shape)?;
    let nodes = nodes_of(alloc, folder)?;
    shape.nodes = near(nodes.items(), &places)?;
    shape.noted = noted_for(session, call, &shape)?;
    Ok(shape)
}

fn noted_for(session: &Session, call: &Call, shape: &Shape) -> Result<List<Path>, NoMemory> {
    let source = source_of(call, shape)?;
    let target = target_of(call, shape)?;
    session.noted(&source, &target)
}

/// The source of a copy. Of a call without one it is the root.
fn source_of(call: &Call, shape: &Shape) -> Result<Path, NoMemory> {
    shape.place(call, 1).map_err(|_| NoMemory)
}

fn target_of(call: &Call, shape: &Shape) -> Result<Path, NoMemory> {
    shape.place(call, 2).map_err(|_| NoMemory)
}

fn answer_of(
    actions: &mut Vec<Box<dyn Action>>,
    place: usize,
    call: &Call,
    shape: &Shape,
) -> Result<Outcome, RowFault>
    requires { IsCall call.now }
{
    if place >= actions.len() || !is_shape(shape) {
        return Err(RowFault::Spelling);
    }
    match begin_in(&mut actions[place], call, shape) {
        Some(outcome) => Ok(outcome),
        None => Err(RowFault::Spelling),
    }
}

fn apply(
    session: &mut Session,
    actions: &mut Vec<Box<dyn Action>>,
    folder: &mut MemoryFolder,
    place: usize,
    steps: &List<Step>,
) -> Result<(), RowFault> {
    for step in steps.items() {
        if let Step::Set { path, node } = step {
            take_ticket(session, actions, place)?;
            set(session, folder, place, path, node.as_ref())?;
        }
    }
    Ok(())
}

fn take_ticket(
    session: &Session,
    actions: &mut Vec<Box<dyn Action>>,
    place: usize,
) -> Result<(), RowFault> {
    if place >= actions.len() {
        return Err(RowFault::Spelling);
    }
    Ok(keep_in(&mut actions[place], session.ticket())?)
}

fn set(
    session: &mut Session,
    folder: &mut MemoryFolder,
    place: usize,
    path: &Path,
    node: Option<&Node>,
) -> Result<(), NoMemory> {
    let before = touch_now(folder, path)?;
    if put(folder, path, node) != PutAnswer::Done {
        session.is_whole = false;
    }
    session.done.push(Done { place, before })?;
    Ok(())
}

fn touch_now(folder: &MemoryFolder, path: &Path) -> Result<Touch, NoMemory> {
    let node = copied(folder, path)?;
    let path = path.copy()?;
    Ok(Touch { path, node })
}

/// The note that the steps end with, where there is one, takes the place of the one before.
fn keep_notes(
    session: &mut Session,
    call: &Call,
    shape: &Shape,
    steps: &List<Step>,
) -> Result<(), NoMemory> {
    for step in steps.items() {
        if let Step::Note { paths } = step {
            session.note(source_of(call, shape)?, target_of(call, shape)?, paths)?;
        }
    }
    Ok(())
}

/// Undoes all from the end. Answers whether each box gave its tickets in that order and holds none, and the folder is as
/// it was when the session began.
pub fn undo_all(
    session: &mut Session,
    actions: &mut Vec<Box<dyn Action>>,
    folder: &mut MemoryFolder,
) -> Result<bool, NoMemory> {
    let mut is_whole = session.is_whole;
    for _ in 0..session.done.len() {
        if let Some(done) = session.done.pop() {
            is_whole &= undo_one(session.ticket(), actions, folder, &done);
        }
    }
    let contents = contents_of(session.alloc(), folder)?;
    Ok(is_whole && are_at_rest(actions) && contents == session.contents)
}

fn undo_one(
    ticket: EntryNumber,
    actions: &mut Vec<Box<dyn Action>>,
    folder: &mut MemoryFolder,
    done: &Done,
) -> bool {
    if done.place >= actions.len() {
        return false;
    }
    let is_newest = undo_in(&mut actions[done.place]) == Some(ticket);
    let answer = put(folder, &done.before.path, done.before.node.as_ref());
    is_newest && answer == PutAnswer::Done
}
