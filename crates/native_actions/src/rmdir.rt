ghost use Rattle.std.specs.Prelude.{◌≡◌, ◌≢◌, ℕ, IfOk, IfErr};
ghost use Rattle.action_core.specs.Places.{place_at};
ghost use Rattle.action_core.specs.Rows.{rmdir};
ghost use Rattle.action_core.specs.Standing.{AreRising, map_of, site_of, under_in};

use crate::codes::{PATH, RMDIR};
use crate::steps::one_step;
use action_core::{ActionFault, Row, Shape, Step, TableAction};
use folder_core::{Node, Path};
use instr_parser::Call;
use osgi_version::List;

/// Takes an empty directory away.
pub type RmDir = TableAction<RmDirRow>;

/// `rmdir(path)`.
pub struct RmDirRow;

impl Row for RmDirRow {
    ghost KIND = { 1 };

    const KIND: u16 = RMDIR;

    fn steps(call: &Call, shape: &Shape) -> Result<List<Step>, ActionFault> {
        rmdir(call, shape)
    }
}

/// What the row says where the map is the shape's.
fn rmdir(call: &Call, shape: &Shape) -> Result<List<Step>, ActionFault>
    requires { AreRising shape.now.nodes }
    ensures steps { IfOk result (λ steps. rmdir (site_of shape.now) (map_of shape.now) (under_in shape.now.nodes (place_at (site_of shape.now) call.now 0)) (place_at (site_of shape.now) call.now 0) ≡ Ok steps) }
    ensures refused { IfErr result (λ fault. fault ≢ ActionFault.NoMemory → rmdir (site_of shape.now) (map_of shape.now) (under_in shape.now.nodes (place_at (site_of shape.now) call.now 0)) (place_at (site_of shape.now) call.now 0) ≡ Err fault) }
{
    let path = shape.place(call, PATH)?;
    rmdir_at(shape, path)
}

/// The same for a path.
fn rmdir_at(shape: &Shape, path: Path) -> Result<List<Step>, ActionFault>
    requires { AreRising shape.now.nodes }
    ensures steps { IfOk result (λ steps. rmdir (site_of shape.now) (map_of shape.now) (under_in shape.now.nodes path) path ≡ Ok steps) }
    ensures refused { IfErr result (λ fault. fault ≢ ActionFault.NoMemory → rmdir (site_of shape.now) (map_of shape.now) (under_in shape.now.nodes path) path ≡ Err fault) }
{
    shape.check(&path)?;
    match shape.look(path.names().items()) {
        None => return Err(ActionFault::NotThere(path)),
        Some(Node::Dir) => {}
        Some(_) => return Err(ActionFault::NotDirectory(path)),
    }
    if shape.has_below(&path) {
        return Err(ActionFault::NotEmpty(path));
    }
    let node = None;
    Ok(one_step(shape.nodes.allocator(), Step::Set { path, node })?)
}
