ghost use Rattle.std.specs.Prelude.{◌≡◌, ◌≢◌, ℕ, ◌<◌, ◌≤◌, false, true, [], length, map, reverse, IfOk, IfErr, MatchOption, get_or};
ghost use Rattle.std.specs.List.{remove};
ghost use Rattle.action_core.specs.Places.{place_at};
ghost use Rattle.action_core.specs.Rows.{cleanupcopy};
ghost use Rattle.action_core.specs.Standing.{AreRising, site_of, under_in};
ghost use Rattle.native_actions.specs.Cleared.{ArePathsRising, can_leave, cleared, paths_of, without};

use crate::codes::{CLEAN_UP_COPY, TARGET};
use action_core::{ActionFault, Row, Shape, Step, TableAction, is_at_or_below, stands_under};
use folder_core::{Path, Touch};
use instr_parser::Call;
use osgi_version::{List, NoMemory, Twin};
use std::alloc::Global;

/// Takes away what a copy of the same unit, source and target noted, but for directories that hold something else.
/// A path that goes moves up those that stand behind it: at worst this costs the square of what stands below the target.
pub type CleanUpCopy = TableAction<CleanUpCopyRow>;

/// `cleanupcopy(source,target)`.
pub struct CleanUpCopyRow;

impl Row for CleanUpCopyRow {
    ghost KIND = { 4 };

    const KIND: u16 = CLEAN_UP_COPY;

    fn steps(call: &Call, shape: &Shape) -> Result<List<Step>, ActionFault> {
        clean_up_copy(call, shape)
    }
}

/// What the row says where the map is the shape's. A call's own target is never too deep.
fn clean_up_copy(call: &Call, shape: &Shape) -> Result<List<Step>, ActionFault>
    requires rising { AreRising shape.now.nodes }
    requires target { length (place_at (site_of shape.now) call.now 2) ≤ 64 }
    ensures steps { IfOk result (λ steps. cleanupcopy (under_in shape.now.nodes (place_at (site_of shape.now) call.now 2)) shape.now.noted ≡ Ok steps) }
    ensures refused { IfErr result (λ fault. fault ≢ ActionFault.NoMemory → cleanupcopy (under_in shape.now.nodes (place_at (site_of shape.now) call.now 2)) shape.now.noted ≡ Err fault) }
{
    let target = shape.place(call, TARGET)?;
    let alloc = shape.nodes.allocator();
    let left = standing(alloc, shape.nodes.items(), &target)?;
    let mut steps = cleared(alloc, shape.noted.items(), left)?;
    let paths = List::new(alloc);
    steps.push(Step::Note { paths })?;
    Ok(steps)
}

/// The paths of what stands at or below the place, in their order.
fn standing(alloc: Global, nodes: &[Touch], place: &Path) -> Result<Vec<Path>, NoMemory>
    ensures { IfOk result (λ standing. standing.items ≡ paths_of (under_in nodes.now place.now)) }
{
    let mut standing = Vec::new(alloc);
    for touch in nodes {
        if stands_under(place, touch) {
            standing.push(touch.path.copy()?)?;
        }
    }
    Ok(standing)
}

/// Each noted path goes when its turn comes, the last of them first, where it stands and nothing stands below it. What
/// a copy has noted stands at the end of what stands at its target, or near it, so that little moves up for it.
fn cleared(alloc: Global, noted: &[Path], left: Vec<Path>) -> Result<List<Step>, NoMemory>
    requires { ArePathsRising left.items }
    ensures { IfOk result (λ steps. steps ≡ cleared (reverse noted.now) left.items) }
{
    let mut left = left;
    let mut steps = List::new(alloc);
    let mut count = noted.len();
    while count > 0 {
        count -= 1;
        if let Some(place) = place_to_leave(left.as_slice(), &noted[count]) {
            let path = left.remove(place);
            let node = None;
            steps.push(Step::Set { path, node })?;
        }
    }
    Ok(steps)
}

/// Where the path stands among these, where nothing of them lies below it. That would come right behind it.
fn place_to_leave(left: &[Path], path: &Path) -> Option<usize>
    requires { ArePathsRising left.now }
    ensures { MatchOption result (can_leave path.now left.now ≡ false)
        (λ place. (place < length left.now) × (get_or left.now place path.now ≡ path.now) × (can_leave path.now left.now ≡ true) × (remove left.now place ≡ without path.now left.now)) }
{
    match left.binary_search(path) {
        Ok(place) => {
            if place + 1 < left.len() && is_at_or_below(path, &left[place + 1]) {
                None
            } else {
                Some(place)
            }
        }
        Err(_) => None,
    }
}
