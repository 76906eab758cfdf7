ghost use Rattle.std.specs.Prelude.{◌≡◌, ◌≢◌, ℕ, IfOk, IfErr};
ghost use Rattle.action_core.specs.Places.{place_at};
ghost use Rattle.action_core.specs.Rows.{remove};
ghost use Rattle.action_core.specs.Standing.{AreRising, map_of, site_of, under_in};
ghost use Rattle.native_actions.specs.Removals.{removals};

use crate::codes::{PATH, REMOVE};
use action_core::{ActionFault, Row, Shape, Step, TableAction, stands_under};
use folder_core::{Path, Touch};
use instr_parser::Call;
use osgi_version::{List, NoMemory, Twin};
use std::alloc::Global;

/// Takes all away that stands at or below a path.
pub type Remove = TableAction<RemoveRow>;

/// `remove(path)`.
pub struct RemoveRow;

impl Row for RemoveRow {
    ghost KIND = { 2 };

    const KIND: u16 = REMOVE;

    fn steps(call: &Call, shape: &Shape) -> Result<List<Step>, ActionFault> {
        remove(call, shape)
    }
}

/// What the row says where the map is the shape's.
fn remove(call: &Call, shape: &Shape) -> Result<List<Step>, ActionFault>
    requires { AreRising shape.now.nodes }
    ensures steps { IfOk result (λ steps. remove (site_of shape.now) (map_of shape.now) (under_in shape.now.nodes (place_at (site_of shape.now) call.now 0)) (place_at (site_of shape.now) call.now 0) ≡ Ok steps) }
    ensures refused { IfErr result (λ fault. fault ≢ ActionFault.NoMemory → remove (site_of shape.now) (map_of shape.now) (under_in shape.now.nodes (place_at (site_of shape.now) call.now 0)) (place_at (site_of shape.now) call.now 0) ≡ Err fault) }
{
    let path = shape.place(call, PATH)?;
    remove_at(shape, path)
}

/// The same for a path.
fn remove_at(shape: &Shape, path: Path) -> Result<List<Step>, ActionFault>
    requires { AreRising shape.now.nodes }
    ensures steps { IfOk result (λ steps. remove (site_of shape.now) (map_of shape.now) (under_in shape.now.nodes path) path ≡ Ok steps) }
    ensures refused { IfErr result (λ fault. fault ≢ ActionFault.NoMemory → remove (site_of shape.now) (map_of shape.now) (under_in shape.now.nodes path) path ≡ Err fault) }
{
    shape.check_way(&path)?;
    Ok(removals(shape.nodes.allocator(), shape.nodes.items(), &path)?)
}

/// All that stands at or below the path goes, the deepest first.
fn removals(alloc: Global, nodes: &[Touch], path: &Path) -> Result<List<Step>, NoMemory>
    ensures { IfOk result (λ steps. steps ≡ removals (under_in nodes.now path.now)) }
{
    let mut steps = List::new(alloc);
    let mut left = nodes.len();
    while left > 0 {
        left -= 1;
        let touch = &nodes[left];
        if stands_under(path, touch) {
            steps.push(removal(&touch.path)?)?;
        }
    }
    Ok(steps)
}

fn removal(path: &Path) -> Result<Step, NoMemory>
    ensures { IfOk result (λ step. step ≡ Step.Set path.now None) }
{
    let path = path.copy()?;
    let node = None;
    Ok(Step::Set { path, node })
}
