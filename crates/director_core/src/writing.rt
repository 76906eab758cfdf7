ghost use Rattle.std.specs.Prelude.{◌≡◌, ◌++◌, OnOk, OnErr, IsErr};
ghost use Rattle.folder_core.specs.Cause.{HasCause};
ghost use Rattle.folder_core.specs.Step.{Step};
ghost use Rattle.director_core.specs.Printed.{IsFront};
ghost use Rattle.director_core.specs.Writes.{WritesFront};

use folder_core::{Failed, Sink};

/// Writes all of the bytes. Where the sink fails, a front of them is written.
pub(crate) fn write_all<K: Sink>(out: &mut K, bytes: &[u8]) -> Result<(), Failed>
    ensures ok { OnOk result (Step (K.told out.old) (K.told out.new) (λ s t. t ≡ s ++ bytes.now)) }
    ensures front { Step (K.told out.old) (K.told out.new) (λ s t. WritesFront s bytes.now t) }
    ensures cause { HasCause (K.faults out.old) (K.faults out.new) (IsErr result) }
{
    let mut rest = bytes;
    while !rest.is_empty() {
        let taken = out.write(rest)?;
        rest = &rest[taken..];
    }
    Ok(())
}
