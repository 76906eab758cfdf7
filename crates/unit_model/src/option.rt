ghost use Rattle.std.specs.Prelude.{◌≡◌, IfOk};

use osgi_version::{NoMemory, Twin};

pub(crate) fn copy_option<T: Twin>(value: &Option<T>) -> Result<Option<T>, NoMemory>
    ensures { IfOk result (λ twin. twin ≡ value.now) }
{
    match value {
        Some(value) => Ok(Some(value.copy()?)),
        None => Ok(None),
    }
}
