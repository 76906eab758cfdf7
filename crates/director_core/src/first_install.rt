ghost use Rattle.std.specs.Prelude.{◌≡◌, ◌≤◌, length, map, All, IfOk, Some};
ghost use Rattle.unit_model.specs.Profile.{IsProfile};
ghost use Rattle.folder_core.specs.Name.{IsName};
ghost use Rattle.director_core.specs.FirstInstall.{directory, directories, file, first_touches};
ghost use Rattle.director_core.specs.Planned.{IsReady};

use crate::plan::Plan;
use director_source::path_of;
use folder_core::{Blob, Node, Touch};
use osgi_version::{List, NoMemory, Twin};
use std::alloc::Global;

/// What the owner of a file may do, and all others: read, and the owner write.
const FILE_MODE: u16 = 0o644;

/// The nodes of the first install of one unit, in the order in which they are put.
pub(crate) fn first_touches(alloc: Global, plan: &Plan) -> Result<List<Touch>, NoMemory>
    requires { IsReady plan.now }
    ensures { IfOk result (λ touches. touches ≡ first_touches plan.now.profile plan.now.unit) }
{
    let profile = plan.profile.as_str();
    let mut touches = directories(alloc, profile)?;
    let state = plan.state.copy()?;
    touches.push(file(alloc, &["profiles", profile, "1.state"], state)?)?;
    let current = List::from_vec(Vec::from_slice(alloc, b"1\n")?);
    touches.push(file(alloc, &["profiles", profile, "current"], current)?)?;
    Ok(List::from_vec(touches))
}

/// The directories of the first profile.
fn directories(alloc: Global, profile: &str) -> Result<Vec<Touch>, NoMemory>
    requires { IsProfile profile.now }
    ensures { IfOk result (λ touches. touches.items ≡ directories profile.now) }
{
    let mut touches = Vec::new(alloc);
    touches.push(directory(alloc, &["profiles"])?)?;
    touches.push(directory(alloc, &["profiles", profile])?)?;
    touches.push(directory(alloc, &["installs"])?)?;
    touches.push(directory(alloc, &["installs", profile])?)?;
    touches.push(directory(alloc, &["pool"])?)?;
    Ok(touches)
}

fn directory(alloc: Global, names: &[&str]) -> Result<Touch, NoMemory>
    requires names { All IsName (map (λ name. name.now) names.now) }
    requires short { length names.now ≤ 64 }
    ensures { IfOk result (λ touch. touch ≡ directory (map (λ name. name.now) names.now)) }
{
    Ok(Touch {
        path: path_of(alloc, names)?,
        node: Some(Node::Dir),
    })
}

fn file(alloc: Global, names: &[&str], bytes: List<u8>) -> Result<Touch, NoMemory>
    requires names { All IsName (map (λ name. name.now) names.now) }
    requires short { length names.now ≤ 64 }
    requires small { length bytes ≤ 67108864 }
    ensures { IfOk result (λ touch. touch ≡ file (map (λ name. name.now) names.now) bytes) }
{
    let path = path_of(alloc, names)?;
    let Some(blob) = Blob::new(bytes) else {
        unreachable!()
    };
    let mode = FILE_MODE;
    Ok(Touch {
        path,
        node: Some(Node::File { mode, blob }),
    })
}
