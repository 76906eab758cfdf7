//! One line of a digest file.

ghost use Rattle.std.specs.Prelude.{IfOk, MatchOption};
ghost use Rattle.artifact_pool.specs.DigestLine.{Says, SaysNothing, IsMarked, HasNoMark};

use crate::artifact_path::read_artifact_path;
use folder_core::Path;
use hex::FromHex;
use osgi_version::NoMemory;
use std::alloc::Global;

const DIGITS: usize = 64;

/// The SHA-256 digest of the file at a path below the folder of artifacts.
#[derive(Drop)]
pub(crate) struct KnownDigest {
    pub path: Path,
    pub digest: [u8; 32],
}

/// What stands behind a blank and the mark of how the file was read: a blank for text, `*` for bytes.
fn behind_mark(rest: &[u8]) -> Option<&[u8]>
    ensures { MatchOption result (HasNoMark rest.now) (λ text. IsMarked rest.now text.now) }
{
    match rest {
        [b' ', b' ' | b'*', text @ ..] => Some(text),
        _ => None,
    }
}

/// What a line says that isn't empty: 64 hexadecimal digits, two blanks or a blank and `*`, and an artifact's path.
/// None exactly where it says nothing of that form.
pub(crate) fn read_line(alloc: Global, line: &[u8]) -> Result<Option<KnownDigest>, NoMemory>
    ensures { IfOk result (λ known. MatchOption known (SaysNothing line.now) (Says line.now)) }
{
    let Some((digits, rest)) = line.split_at_checked(DIGITS) else {
        return Ok(None);
    };
    let Some(text) = behind_mark(rest) else {
        return Ok(None);
    };
    let Ok(digest) = <[u8; 32] as FromHex>::from_hex(digits) else {
        return Ok(None);
    };
    let Some(path) = read_artifact_path(alloc, text)? else {
        return Ok(None);
    };
    Ok(Some(KnownDigest { path, digest }))
}
