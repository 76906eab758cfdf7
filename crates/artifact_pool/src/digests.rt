//! The digests that a source names.

ghost use Rattle.std.specs.Prelude.{◌≡◌, ◌++◌, ◌∷◌, [], ℕ, List, IfOk, IfErr, OnOk, map};
ghost use Rattle.std.specs.BTreeMap.{get};
ghost use Rattle.std.specs.Option.{option_copied};
ghost use Rattle.folder_core.specs.PathOrder.{path_cmp};
ghost use Rattle.artifact_pool.specs.DigestText.{lines, pieces_of, seen, without_cr, AreKnown, AreRead, IsDigestFault};
ghost use Rattle.artifact_pool.specs.Noting.{IsNoted, AreNoted};
ghost use Rattle.artifact_pool.specs.declared.digest_line.KnownDigest.{KnownDigest as Known};

use crate::digest_line::{KnownDigest, read_line};
use folder_core::Path;
use osgi_version::NoMemory;
use std::alloc::Global;
use std::collections::BTreeMap;
use thiserror::Error;

/// The digests of artifacts' files, by their paths below the folder of artifacts: of each path the first that its text
/// names. A look-up takes time in line with the logarithm of their number.
#[derive(Drop)]
pub struct Digests {
    known: BTreeMap<Path, [u8; 32]>,
}

/// Why a text is no digest file.
#[derive(Clone, Copy, Debug, PartialEq, Eq, Error)]
pub enum DigestFault {
    /// The first line, from 1, that isn't of the form.
    #[error("line {line} names no digest")]
    BadLine { line: u64 },
    #[error("out of memory")]
    NoMemory,
}

impl From<NoMemory> for DigestFault {
    ghost use Rattle.artifact_pool.specs.declared.digests.DigestFault.TheVariants as fault;

    ghost from_gives = { λ _ e. e ≡ fault.NoMemory };

    fn from(_error: NoMemory) -> DigestFault {
        DigestFault::NoMemory
    }
}

impl Digests {
    /// What the digest of the file at this path has to be. None where the text names none.
    pub fn get(&self, path: &Path) -> Option<[u8; 32]>
        ensures { result ≡ get path_cmp self.now.known path.now }
    {
        self.known.get(path).copied()
    }
}

/// What stands between the LFs of a text.
fn pieces(alloc: Global, text: &[u8]) -> Result<Vec<&[u8]>, NoMemory>
    ensures { IfOk result (λ pieces. seen pieces.items ≡ pieces_of text.now) }
{
    let pieces = text.split(|byte| *byte == b'\n').collect(alloc)?;
    Ok(pieces)
}

/// The line without the CR at its end, where it has one.
fn without_cr(piece: &[u8]) -> &[u8]
    ensures { result.now ≡ without_cr piece.now }
{
    match piece {
        [line @ .., b'\r'] => line,
        _ => piece,
    }
}

/// Notes what a line says, and answers true, or answers false where it isn't of the form. Of a path that is known
/// already the first digest stays.
fn note(alloc: Global, digests: &mut Digests, line: &[u8]) -> Result<bool, NoMemory>
    ensures { IfOk result (λ said. IsNoted said line.now digests.old digests.new) }
{
    if line.is_empty() {
        return Ok(true);
    }
    let Some(known) = read_line(alloc, line)? else {
        return Ok(false);
    };
    add(digests, known)?;
    Ok(true)
}

fn add(digests: &mut Digests, known: KnownDigest) -> Result<(), NoMemory>
    ensures { OnOk result ((before : List Known) → AreKnown before digests.old → AreKnown (before ++ known ∷ []) digests.new) }
{
    let KnownDigest { path, digest } = known;
    if !digests.known.contains_key(&path) {
        digests.known.insert(path, digest)?;
    }
    Ok(())
}

/// Notes what lines say that end with LF. The place of the first that isn't of the form, or None where all are.
fn note_all(
    alloc: Global,
    digests: &mut Digests,
    pieces: &[&[u8]],
) -> Result<Option<usize>, NoMemory>
    requires { AreKnown [] digests.old }
    ensures { IfOk result (λ place. AreNoted place (map without_cr (seen pieces.now)) digests.new) }
{
    for (place, piece) in pieces.iter().enumerate() {
        if !note(alloc, digests, without_cr(piece))? {
            return Ok(Some(place));
        }
    }
    Ok(None)
}

/// Reads a digest file, as `sha256sum` writes one: each line is 64 hexadecimal digits of either case, two blanks or a
/// blank and `*`, and `CLASSIFIER/ID_VERSION`, where the classifier and the id have the form of a unit's id and the
/// version is canonical. Empty lines are skipped, a CR before LF is dropped, and the last line may lack its LF.
/// `BadLine` has the first line, from 1, that isn't of this form. Takes time in line with the text's length, times the
/// logarithm of the lines.
pub fn read_digests(alloc: Global, text: &[u8]) -> Result<Digests, DigestFault>
    ensures read { IfOk result (λ digests. (known : List Known) × AreRead (lines text.now) known × AreKnown known digests) }
    // A text says one list of digests, so there is no other reading.
    ensures only { (known : List Known) → AreRead (lines text.now) known → IfOk result (AreKnown known) }
    ensures refused { IfErr result (IsDigestFault (lines text.now)) }
{
    let pieces = pieces(alloc, text)?;
    let mut digests = Digests {
        known: BTreeMap::new(alloc),
    };
    let Some((last, ended)) = pieces.split_last() else {
        return Ok(digests);
    };
    if let Some(place) = note_all(alloc, &mut digests, ended)? {
        return Err(DigestFault::BadLine {
            line: place as u64 + 1,
        });
    }
    // No CR is dropped where no LF stands behind it.
    if !note(alloc, &mut digests, last)? {
        return Err(DigestFault::BadLine {
            line: ended.len() as u64 + 1,
        });
    }
    Ok(digests)
}
