ghost use Rattle.std.specs.Prelude.{◌≡◌, ◌≢◌, ℕ, ◌++◌, IfOk, IfErr};
ghost use Rattle.action_core.specs.Places.{names_at, place_at, text_at};
ghost use Rattle.action_core.specs.Rows.{ln};
ghost use Rattle.action_core.specs.Standing.{AreRising, map_of, site_of};

use crate::codes::{LINK_NAME, LINK_TARGET, LN, TARGET_DIR};
use crate::steps::one_step;
use action_core::{ActionFault, Row, Shape, Step, TableAction};
use folder_core::{Node, Path};
use instr_parser::Call;
use osgi_version::{List, Text};

/// Makes a link, where nothing stands.
pub type Link = TableAction<LinkRow>;

/// `ln(targetDir,linkTarget,linkName)`.
pub struct LinkRow;

impl Row for LinkRow {
    ghost KIND = { 6 };

    const KIND: u16 = LN;

    fn steps(call: &Call, shape: &Shape) -> Result<List<Step>, ActionFault> {
        ln(call, shape)
    }
}

/// What the row says where the map is the shape's.
fn ln(call: &Call, shape: &Shape) -> Result<List<Step>, ActionFault>
    requires { AreRising shape.now.nodes }
    ensures steps { IfOk result (λ steps. ln (site_of shape.now) (map_of shape.now) (place_at (site_of shape.now) call.now 4 ++ names_at call.now 8) (text_at call.now 7) ≡ Ok steps) }
    ensures refused { IfErr result (λ fault. fault ≢ ActionFault.NoMemory → ln (site_of shape.now) (map_of shape.now) (place_at (site_of shape.now) call.now 4 ++ names_at call.now 8) (text_at call.now 7) ≡ Err fault) }
{
    let path = shape.place_of_names(call, TARGET_DIR, LINK_NAME)?;
    let target = shape.text(call, LINK_TARGET)?;
    ln_at(shape, path, target)
}

/// The same for a path and a target.
fn ln_at(shape: &Shape, path: Path, target: Text) -> Result<List<Step>, ActionFault>
    requires { AreRising shape.now.nodes }
    ensures steps { IfOk result (λ steps. ln (site_of shape.now) (map_of shape.now) path target ≡ Ok steps) }
    ensures refused { IfErr result (λ fault. fault ≢ ActionFault.NoMemory → ln (site_of shape.now) (map_of shape.now) path target ≡ Err fault) }
{
    shape.check(&path)?;
    if shape.look(path.names().items()).is_some() {
        return Err(ActionFault::Present(path));
    }
    let node = Some(Node::Link { target });
    Ok(one_step(shape.nodes.allocator(), Step::Set { path, node })?)
}
