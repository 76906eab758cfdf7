ghost use Rattle.std.specs.Prelude.{◌≡◌, ◌≢◌, ℕ, ◌++◌, IfOk, IfErr};
ghost use Rattle.action_core.specs.Places.{mode_at, names_at, place_at};
ghost use Rattle.action_core.specs.Rows.{chmod};
ghost use Rattle.action_core.specs.Standing.{AreRising, map_of, site_of};

use crate::codes::{CHMOD, PERMISSIONS, TARGET_DIR, TARGET_FILE};
use crate::steps::one_step;
use action_core::{ActionFault, Row, Shape, Step, TableAction, mode_of};
use folder_core::{Node, Path};
use instr_parser::Call;
use osgi_version::{List, Twin};

/// Gives a file another mode. A link is not followed.
pub type ChMod = TableAction<ChModRow>;

/// `chmod(targetDir,targetFile,permissions)`.
pub struct ChModRow;

impl Row for ChModRow {
    ghost KIND = { 5 };

    const KIND: u16 = CHMOD;

    fn steps(call: &Call, shape: &Shape) -> Result<List<Step>, ActionFault> {
        chmod(call, shape)
    }
}

/// What the row says where the map is the shape's.
fn chmod(call: &Call, shape: &Shape) -> Result<List<Step>, ActionFault>
    requires { AreRising shape.now.nodes }
    ensures steps { IfOk result (λ steps. chmod (site_of shape.now) (map_of shape.now) (place_at (site_of shape.now) call.now 4 ++ names_at call.now 5) (mode_at call.now 6) ≡ Ok steps) }
    ensures refused { IfErr result (λ fault. fault ≢ ActionFault.NoMemory → chmod (site_of shape.now) (map_of shape.now) (place_at (site_of shape.now) call.now 4 ++ names_at call.now 5) (mode_at call.now 6) ≡ Err fault) }
{
    let path = shape.place_of_names(call, TARGET_DIR, TARGET_FILE)?;
    chmod_at(shape, path, mode_of(call, PERMISSIONS))
}

/// The same for a path and a mode.
fn chmod_at(shape: &Shape, path: Path, mode: u16) -> Result<List<Step>, ActionFault>
    requires { AreRising shape.now.nodes }
    ensures steps { IfOk result (λ steps. chmod (site_of shape.now) (map_of shape.now) path mode ≡ Ok steps) }
    ensures refused { IfErr result (λ fault. fault ≢ ActionFault.NoMemory → chmod (site_of shape.now) (map_of shape.now) path mode ≡ Err fault) }
{
    shape.check_way(&path)?;
    let blob = match shape.look(path.names().items()) {
        None => return Err(ActionFault::NotThere(path)),
        Some(Node::File { blob, .. }) => blob.copy()?,
        Some(_) => return Err(ActionFault::NotFile(path)),
    };
    let node = Some(Node::File { mode, blob });
    Ok(one_step(shape.nodes.allocator(), Step::Set { path, node })?)
}
