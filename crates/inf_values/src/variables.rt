//! The variables in values.

ghost use Rattle.std.specs.Prelude.{◌≡◌, ◌++◌, codes, nat_eq, IfOk, IfSome, IfNone, not, MatchOption};
ghost use Rattle.std.specs.List.{starts_with};
ghost use Rattle.std.specs.Option.{option_map};
ghost use Rattle.osgi_version.specs.VersionText.{IsVersion, version_text};
ghost use Rattle.inf_values.specs.Replaced.{replaced};
ghost use Rattle.inf_values.specs.Variable.{ReadsVariable, name_text, value_text};

use osgi_version::{NoMemory, Text};
use std::alloc::Global;
use unit_model::UnitName;

/// What a value may speak of.
#[derive(Clone, Copy, Debug, PartialEq, Eq)]
pub(crate) enum Variable {
    Version,
    Qualifier,
}

impl Variable {
    /// What the variable stands for.
    fn value(self, alloc: Global, host: &UnitName) -> Result<Text, NoMemory>
        requires { IsVersion host.now.version }
        ensures { IfOk result (λ text. text ≡ value_text self host.now) }
    {
        match self {
            Variable::Version => host.version.text(alloc),
            Variable::Qualifier => Text::from_str(alloc, host.version.qualifier.as_str()),
        }
    }
}

/// The variable whose name, behind its first `$`, the text begins with, and what stands behind it.
fn read_variable(text: &str) -> Option<(Variable, &str)>
    ensures { ReadsVariable text.now (option_map (λ found. (found.0, found.1.now)) result) }
{
    if let Some(rest) = text.strip_prefix("version$") {
        Some((Variable::Version, rest))
    } else if let Some(rest) = text.strip_prefix("qualifier$") {
        Some((Variable::Qualifier, rest))
    } else {
        None
    }
}

/// The value with what its variables stand for. None where it has a variable and there is no host.
pub fn replaced(
    alloc: Global,
    host: Option<&UnitName>,
    text: &str,
) -> Result<Option<Text>, NoMemory>
    requires { IfSome host (λ h. IsVersion h.now.version) }
    ensures { IfOk result (λ found. found ≡ replaced (option_map (λ h. h.now) host.entry) text.now) }
{
    let mut found = String::new(alloc);
    let mut rest = text;
    while let Some((before, behind)) = rest.split_once('$') {
        found.push_str(before)?;
        rest = match read_variable(behind) {
            Some((variable, behind)) => {
                let Some(host) = host else {
                    return Ok(None);
                };
                found.push_str(variable.value(alloc, host)?.as_str())?;
                behind
            }
            None => {
                found.push('$')?;
                behind
            }
        };
    }
    found.push_str(rest)?;
    Ok(Some(Text::from_str(alloc, found.as_str())?))
}
