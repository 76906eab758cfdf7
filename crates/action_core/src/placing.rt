//! What a call gives to its action.

ghost use Rattle.std.specs.Prelude.{◌≡◌, ◌≢◌, ◌++◌, IfOk, IfErr};
ghost use Rattle.std.specs.Option.{option_copied};
ghost use Rattle.action_core.specs.Places.{base_path, flag_at, mode_at, names_at, place_at, text_at, value_of};
ghost use Rattle.action_core.specs.Standing.{site_of};
ghost use Rattle.action_core.specs.Tests.{too_deep};

use crate::fault::ActionFault;
use crate::shape::Shape;
use folder_core::{Name, Path};
use instr_parser::{Base, Call, Value};
use osgi_version::{NoMemory, Text, Twin};

impl Shape {
    /// Where the place of a parameter is. The root stands for one that the call hasn't.
    pub fn place(&self, call: &Call, code: u16) -> Result<Path, ActionFault>
        ensures place { IfOk result (λ path. path ≡ place_at (site_of self.now) call.now code) }
        ensures refused { IfErr result (λ fault. fault ≢ ActionFault.NoMemory → too_deep (place_at (site_of self.now) call.now code) ≡ Some fault) }
    {
        match value_of(call, code) {
            Some(Value::Place { base, names }) => lengthened(self.base(*base)?, names.items()),
            _ => Ok(Path::root(self.nodes.allocator())),
        }
    }

    /// The place of a parameter, lengthened by the names of another.
    pub fn place_of_names(&self, call: &Call, code: u16, names: u16) -> Result<Path, ActionFault>
        ensures place { IfOk result (λ path. path ≡ place_at (site_of self.now) call.now code ++ names_at call.now names) }
        ensures refused { IfErr result (λ fault. fault ≢ ActionFault.NoMemory → too_deep (place_at (site_of self.now) call.now code ++ names_at call.now names) ≡ Some fault) }
    {
        let path = self.place(call, code)?;
        match value_of(call, names) {
            Some(Value::Names(names)) => lengthened(path, names.items()),
            _ => Ok(path),
        }
    }

    fn base(&self, base: Base) -> Result<Path, NoMemory>
        ensures { IfOk result (λ path. path ≡ base_path (site_of self.now) base) }
    {
        match base {
            Base::Install => self.install.copy(),
            Base::Artifact => match &self.artifact {
                Some(path) => path.copy(),
                None => Ok(Path::root(self.nodes.allocator())),
            },
        }
    }

    /// The text of a parameter.
    pub fn text(&self, call: &Call, code: u16) -> Result<Text, NoMemory>
        ensures { IfOk result (λ text. text ≡ text_at call.now code) }
    {
        match value_of(call, code) {
            Some(Value::Plain(text)) => text.copy(),
            _ => Text::from_str(self.nodes.allocator(), ""),
        }
    }
}

/// The mode of a parameter.
pub fn mode_of(call: &Call, code: u16) -> u16
    ensures { result ≡ mode_at call.now code }
{
    match value_of(call, code) {
        Some(Value::Mode(mode)) => *mode,
        _ => 0,
    }
}

/// Whether a parameter is there and true.
pub fn flag_of(call: &Call, code: u16) -> bool
    ensures { result ≡ flag_at call.now code }
{
    match value_of(call, code) {
        Some(Value::Flag(flag)) => *flag,
        _ => false,
    }
}

/// The path with these names at its end. A path of 64 names can't be made longer.
pub fn lengthened(path: Path, names: &[Name]) -> Result<Path, ActionFault>
    ensures longer { IfOk result (λ longer. longer ≡ path ++ names.now) }
    ensures refused { IfErr result (λ fault. fault ≢ ActionFault.NoMemory → too_deep (path ++ names.now) ≡ Some fault) }
{
    let mut longer = path;
    for name in names {
        if !longer.push(name.copy()?)? {
            return Err(ActionFault::TooDeep(longer));
        }
    }
    Ok(longer)
}

/// The value of the parameter with this code.
fn value_of(call: &Call, code: u16) -> Option<&Value>
    ensures { option_copied result ≡ value_of call.now code }
{
    let params = call.params.items();
    for param in params {
        if param.code == code {
            return Some(&param.value);
        }
    }
    None
}
