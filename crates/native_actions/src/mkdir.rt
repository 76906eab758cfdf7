ghost use Rattle.std.specs.Prelude.{◌≡◌, ◌≢◌, ℕ, IfOk, IfErr};
ghost use Rattle.action_core.specs.Places.{place_at};
ghost use Rattle.action_core.specs.Rows.{mkdir};
ghost use Rattle.action_core.specs.Standing.{AreRising, map_of, site_of};

use crate::codes::{MKDIR, PATH};
use crate::steps::one_step;
use action_core::{ActionFault, Row, Shape, Step, TableAction};
use folder_core::{Node, Path};
use instr_parser::Call;
use osgi_version::List;

/// Makes a directory, where none stands yet.
pub type MkDir = TableAction<MkDirRow>;

/// `mkdir(path)`.
pub struct MkDirRow;

impl Row for MkDirRow {
    ghost KIND = { 0 };

    const KIND: u16 = MKDIR;

    fn steps(call: &Call, shape: &Shape) -> Result<List<Step>, ActionFault> {
        mkdir(call, shape)
    }
}

/// What the row says where the map is the shape's.
fn mkdir(call: &Call, shape: &Shape) -> Result<List<Step>, ActionFault>
    requires { AreRising shape.now.nodes }
    ensures steps { IfOk result (λ steps. mkdir (site_of shape.now) (map_of shape.now) (place_at (site_of shape.now) call.now 0) ≡ Ok steps) }
    ensures refused { IfErr result (λ fault. fault ≢ ActionFault.NoMemory → mkdir (site_of shape.now) (map_of shape.now) (place_at (site_of shape.now) call.now 0) ≡ Err fault) }
{
    let path = shape.place(call, PATH)?;
    mkdir_at(shape, path)
}

/// The same for a path.
fn mkdir_at(shape: &Shape, path: Path) -> Result<List<Step>, ActionFault>
    requires { AreRising shape.now.nodes }
    ensures steps { IfOk result (λ steps. mkdir (site_of shape.now) (map_of shape.now) path ≡ Ok steps) }
    ensures refused { IfErr result (λ fault. fault ≢ ActionFault.NoMemory → mkdir (site_of shape.now) (map_of shape.now) path ≡ Err fault) }
{
    let alloc = shape.nodes.allocator();
    if shape.is_directory(path.names().items()) {
        return Ok(List::new(alloc));
    }
    shape.check(&path)?;
    if shape.look(path.names().items()).is_some() {
        return Err(ActionFault::Present(path));
    }
    let node = Some(Node::Dir);
    Ok(one_step(alloc, Step::Set { path, node })?)
}
