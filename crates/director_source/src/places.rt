ghost use Rattle.std.specs.Prelude.{◌≡◌, ◌≤◌, ◌<◌, ◌++◌, ◌∷◌, [], length, map, All, IfOk};
ghost use Rattle.folder_core.specs.Name.{IsName};

use folder_core::{Name, Path};
use osgi_version::{NoMemory, Text};
use std::alloc::Global;

/// The path of these names, from the root down. Its conditions: they are names, and at most 64.
pub fn path_of(alloc: Global, names: &[&str]) -> Result<Path, NoMemory>
    requires names { All IsName (map (λ name. name.now) names.now) }
    requires short { length names.now ≤ 64 }
    ensures { IfOk result (λ path. path ≡ map (λ name. name.now) names.now) }
{
    let mut path = Path::root(alloc);
    for name in names {
        path = joined(path, name_of(alloc, name)?)?;
    }
    Ok(path)
}

fn name_of(alloc: Global, text: &str) -> Result<Name, NoMemory>
    requires { IsName text.now }
    ensures { IfOk result (λ name. name ≡ text.now) }
{
    match Name::new(&Text::from_str(alloc, text)?)? {
        Some(name) => Ok(name),
        None => unreachable!(),
    }
}

fn joined(mut path: Path, name: Name) -> Result<Path, NoMemory>
    requires { length path < 64 }
    ensures { IfOk result (λ longer. longer ≡ path ++ name ∷ []) }
{
    if path.push(name)? {
        Ok(path)
    } else {
        unreachable!()
    }
}
