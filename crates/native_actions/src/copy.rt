ghost use Rattle.std.specs.Prelude.{◌≡◌, ◌≢◌, ◌≤◌, [], ◌∷◌, ◌++◌, drop, length, IfOk, IfErr, OnOk};
ghost use Rattle.std.specs.Option.{option_copied};
ghost use Rattle.action_core.specs.Places.{flag_at, place_at};
ghost use Rattle.action_core.specs.Rows.{copied_set, copy, copy_directory, copy_file, copy_source, file_target, moved, too_deep_from};
ghost use Rattle.action_core.specs.Standing.{AreRising, map_of, site_of, under_in};
ghost use Rattle.action_core.specs.Tests.{too_deep};
ghost use Rattle.native_actions.specs.Copied.{copied_sets, directory_target, set_paths, source_node};

use crate::codes::{COPY, OVERWRITE, SOURCE, TARGET};
use action_core::{
    ActionFault, Row, Shape, Step, TableAction, flag_of, is_at_or_below, lengthened, stands_under,
};
use folder_core::{Name, Node, Path, Touch};
use instr_parser::Call;
use osgi_version::{List, NoMemory, Twin};
use std::alloc::Global;

/// Copies a file, or a directory with all that stands below it, and notes the paths that it sets.
pub type Copy = TableAction<CopyRow>;

/// `copy(source,target,[overwrite])`.
pub struct CopyRow;

impl Row for CopyRow {
    ghost KIND = { 3 };

    const KIND: u16 = COPY;

    fn steps(call: &Call, shape: &Shape) -> Result<List<Step>, ActionFault> {
        copy(call, shape)
    }
}

/// What the row says where the map is the shape's. A call's own places are never too deep.
fn copy(call: &Call, shape: &Shape) -> Result<List<Step>, ActionFault>
    requires rising { AreRising shape.now.nodes }
    requires source { length (place_at (site_of shape.now) call.now 1) ≤ 64 }
    requires target { length (place_at (site_of shape.now) call.now 2) ≤ 64 }
    ensures steps { IfOk result (λ steps. copy (site_of shape.now) (map_of shape.now) (under_in shape.now.nodes (place_at (site_of shape.now) call.now 1)) (place_at (site_of shape.now) call.now 1) (place_at (site_of shape.now) call.now 2) (flag_at call.now 3) ≡ Ok steps) }
    ensures refused { IfErr result (λ fault. fault ≢ ActionFault.NoMemory → copy (site_of shape.now) (map_of shape.now) (under_in shape.now.nodes (place_at (site_of shape.now) call.now 1)) (place_at (site_of shape.now) call.now 1) (place_at (site_of shape.now) call.now 2) (flag_at call.now 3) ≡ Err fault) }
{
    let source = shape.place(call, SOURCE)?;
    let target = shape.place(call, TARGET)?;
    copy_to(shape, source, target, flag_of(call, OVERWRITE))
}

/// The same for two paths.
fn copy_to(
    shape: &Shape,
    source: Path,
    target: Path,
    overwrite: bool,
) -> Result<List<Step>, ActionFault>
    requires { AreRising shape.now.nodes }
    ensures steps { IfOk result (λ steps. copy (site_of shape.now) (map_of shape.now) (under_in shape.now.nodes source) source target overwrite ≡ Ok steps) }
    ensures refused { IfErr result (λ fault. fault ≢ ActionFault.NoMemory → copy (site_of shape.now) (map_of shape.now) (under_in shape.now.nodes source) source target overwrite ≡ Err fault) }
{
    check_source(shape, &source)?;
    shape.check(&target)?;
    if shape.is_directory(source.names().items()) {
        copy_directory(shape, &source, &target)
    } else {
        copy_file(shape, &source, target, overwrite)
    }
}

/// Whether something stands at the source that may be copied, with no link above it.
fn check_source(shape: &Shape, source: &Path) -> Result<(), ActionFault>
    requires { AreRising shape.now.nodes }
    ensures passed { OnOk result (copy_source (map_of shape.now) source.now ≡ None) }
    ensures refused { IfErr result (λ fault. fault ≢ ActionFault.NoMemory → copy_source (map_of shape.now) source.now ≡ Some fault) }
{
    shape.check_links(source)?;
    check_source_node(shape, source)
}

/// Whether what stands at the source may be copied.
fn check_source_node(shape: &Shape, source: &Path) -> Result<(), ActionFault>
    requires { AreRising shape.now.nodes }
    ensures passed { OnOk result (source_node (map_of shape.now source.now) source.now ≡ None) }
    ensures refused { IfErr result (λ fault. fault ≢ ActionFault.NoMemory → source_node (map_of shape.now source.now) source.now ≡ Some fault) }
{
    match shape.look(source.names().items()) {
        None => Err(ActionFault::NotThere(source.copy()?)),
        Some(Node::Link { .. }) => Err(ActionFault::NotFile(source.copy()?)),
        Some(_) => Ok(()),
    }
}

/// What a file at the source is copied by.
fn copy_file(
    shape: &Shape,
    source: &Path,
    target: Path,
    overwrite: bool,
) -> Result<List<Step>, ActionFault>
    requires { AreRising shape.now.nodes }
    ensures steps { IfOk result (λ steps. copy_file (map_of shape.now) source.now target overwrite ≡ Ok steps) }
    ensures refused { IfErr result (λ fault. fault ≢ ActionFault.NoMemory → copy_file (map_of shape.now) source.now target overwrite ≡ Err fault) }
{
    check_file_target(shape, &target, overwrite)?;
    let node = copied(shape.look(source.names().items()))?;
    let mut steps = List::new(shape.nodes.allocator());
    steps.push(Step::Set { path: target, node })?;
    Ok(with_note(steps)?)
}

/// Whether a file may be put at the target.
fn check_file_target(shape: &Shape, target: &Path, overwrite: bool) -> Result<(), ActionFault>
    requires { AreRising shape.now.nodes }
    ensures passed { OnOk result (file_target overwrite (map_of shape.now target.now) target.now ≡ None) }
    ensures refused { IfErr result (λ fault. fault ≢ ActionFault.NoMemory → file_target overwrite (map_of shape.now target.now) target.now ≡ Some fault) }
{
    match shape.look(target.names().items()) {
        None => Ok(()),
        Some(Node::Dir) => Err(ActionFault::NotFile(target.copy()?)),
        Some(_) => {
            if overwrite {
                Ok(())
            } else {
                Err(ActionFault::Present(target.copy()?))
            }
        }
    }
}

/// What a directory at the source is copied by: all that stands at or below it is put at or below the target.
fn copy_directory(shape: &Shape, source: &Path, target: &Path) -> Result<List<Step>, ActionFault>
    requires { AreRising shape.now.nodes }
    ensures steps { IfOk result (λ steps. copy_directory (map_of shape.now) (under_in shape.now.nodes source.now) source.now target.now ≡ Ok steps) }
    ensures refused { IfErr result (λ fault. fault ≢ ActionFault.NoMemory → copy_directory (map_of shape.now) (under_in shape.now.nodes source.now) source.now target.now ≡ Err fault) }
{
    check_directory_target(shape, source, target)?;
    let steps = sets(shape, source, target)?;
    Ok(with_note(steps)?)
}

/// Whether the source may be copied to the target: not into itself, and not over something.
fn check_directory_target(shape: &Shape, source: &Path, target: &Path) -> Result<(), ActionFault>
    requires { AreRising shape.now.nodes }
    ensures passed { OnOk result (directory_target (map_of shape.now target.now) source.now target.now ≡ None) }
    ensures refused { IfErr result (λ fault. fault ≢ ActionFault.NoMemory → directory_target (map_of shape.now target.now) source.now target.now ≡ Some fault) }
{
    if is_at_or_below(source, target) && source != target {
        return Err(ActionFault::IntoItself(target.copy()?));
    }
    if shape.look(target.names().items()).is_some() {
        return Err(ActionFault::Present(target.copy()?));
    }
    Ok(())
}

/// The nodes at or below the source, each at its path at or below the target.
fn sets(shape: &Shape, source: &Path, target: &Path) -> Result<List<Step>, ActionFault>
    ensures sets { IfOk result (λ steps. steps ≡ copied_sets source.now target.now (under_in shape.now.nodes source.now)) }
    ensures passed { OnOk result (too_deep_from source.now target.now (under_in shape.now.nodes source.now) ≡ None) }
    ensures refused { IfErr result (λ fault. fault ≢ ActionFault.NoMemory → too_deep_from source.now target.now (under_in shape.now.nodes source.now) ≡ Some fault) }
{
    let mut steps = List::new(shape.nodes.allocator());
    let nodes = shape.nodes.items();
    for touch in nodes {
        if stands_under(source, touch) {
            steps.push(copied_set(source, target, touch)?)?;
        }
    }
    Ok(steps)
}

fn copied_set(source: &Path, target: &Path, touch: &Touch) -> Result<Step, ActionFault>
    ensures set { IfOk result (λ step. step ≡ copied_set source.now target.now touch.now) }
    ensures passed { OnOk result (too_deep (moved source.now target.now touch.now.path) ≡ None) }
    ensures refused { IfErr result (λ fault. fault ≢ ActionFault.NoMemory → too_deep (moved source.now target.now touch.now.path) ≡ Some fault) }
{
    let path = moved(source, target, &touch.path)?;
    let node = copied(touch.node.as_ref())?;
    Ok(Step::Set { path, node })
}

/// A path at or below the source as it is below the target.
fn moved(source: &Path, target: &Path, path: &Path) -> Result<Path, ActionFault>
    ensures moved { IfOk result (λ there. there ≡ moved source.now target.now path.now) }
    ensures passed { OnOk result (too_deep (moved source.now target.now path.now) ≡ None) }
    ensures refused { IfErr result (λ fault. fault ≢ ActionFault.NoMemory → too_deep (moved source.now target.now path.now) ≡ Some fault) }
{
    let moved = lengthened(target.copy()?, behind(source, path))?;
    let is_short = moved.names().len() <= 64;
    prove!(is_short);
    Ok(moved)
}

/// The names of a path behind as many as the source has.
fn behind<'a>(source: &Path, path: &'a Path) -> &'a [Name]
    ensures { result.now ≡ drop (length source.now) path.now }
{
    let names = path.names().items();
    &names[source.names().len().min(names.len())..]
}

fn copied(node: Option<&Node>) -> Result<Option<Node>, NoMemory>
    ensures { IfOk result (λ copied. copied ≡ option_copied node.entry) }
{
    match node {
        Some(node) => Ok(Some(node.copy()?)),
        None => Ok(None),
    }
}

/// The steps, and a note of the paths that they set.
fn with_note(mut steps: List<Step>) -> Result<List<Step>, NoMemory>
    ensures { IfOk result (λ noted. noted ≡ steps ++ Step.Note (set_paths steps) ∷ []) }
{
    let paths = set_paths(steps.allocator(), steps.items())?;
    steps.push(Step::Note { paths })?;
    Ok(steps)
}

/// The paths that the steps set, in their order.
fn set_paths(alloc: Global, steps: &[Step]) -> Result<List<Path>, NoMemory>
    ensures { IfOk result (λ paths. paths ≡ set_paths steps.now) }
{
    let mut paths = List::new(alloc);
    for step in steps {
        if let Step::Set { path, .. } = step {
            paths.push(path.copy()?)?;
        }
    }
    Ok(paths)
}
