ghost use Rattle.std.specs.Prelude.{◌≡◌, IfOk};
ghost use Rattle.pb_rows.specs.Rows.{label};

use osgi_version::{NoMemory, Text};
use std::alloc::Global;
use unit_model::UnitName;

/// The label of a unit's variable, `id/version`.
pub fn label_of(alloc: Global, name: &UnitName) -> Result<Text, NoMemory>
    ensures { IfOk result (λ text. text ≡ label name.now) }
{
    let version = &name.version;
    let numbers = format!(in alloc;
        "{}/{}.{}.{}",
        name.id.as_str(),
        version.major,
        version.minor,
        version.micro
    )?;
    if version.qualifier.bytes().is_empty() {
        return Text::from_str(alloc, numbers.as_str());
    }
    let text = format!(in alloc; "{}.{}", numbers, version.qualifier.as_str())?;
    Text::from_str(alloc, text.as_str())
}
