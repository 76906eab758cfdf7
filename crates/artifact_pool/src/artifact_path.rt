//! The paths of artifacts' files: `CLASSIFIER/ID_VERSION`.

ghost use Rattle.std.specs.Prelude.{◌↔◌, ◌<◌, length, IfOk, IsTrue, MatchOption};
ghost use Rattle.artifact_pool.specs.ArtifactPath.{IsCanonical, IsArtifactName, IsPartedAt, IsArtifactPath, IsPathSpelled, HasNoArtifactPath};

use folder_core::{Name, Path};
use osgi_version::{NoMemory, Text, TextFault, Version, VersionFault};
use std::alloc::Global;
use unit_model::is_unit_id;

/// Whether the bytes are a version's canonical text.
fn is_canonical(alloc: Global, text: &[u8]) -> Result<bool, NoMemory>
    ensures { IfOk result (λ yes. IsTrue yes ↔ IsCanonical text.now) }
{
    let version = match Version::parse(alloc, text) {
        Ok(version) => version,
        Err(VersionFault::NoMemory) => return Err(NoMemory),
        Err(VersionFault::Raw) => return Ok(false),
        Err(VersionFault::Bad { .. }) => return Ok(false),
    };
    let canonical = version.text(alloc)?;
    Ok(canonical.bytes() == text)
}

/// Whether the `_` at this place stands between an id and a canonical version.
fn parts_at(alloc: Global, name: &[u8], place: usize) -> Result<bool, NoMemory>
    requires { place < length name.now }
    ensures { IfOk result (λ yes. IsTrue yes ↔ IsPartedAt name.now place) }
{
    if name[place] != b'_' || !is_unit_id(&name[..place]) {
        return Ok(false);
    }
    is_canonical(alloc, &name[place + 1..])
}

/// Whether the name is an id, `_` and a canonical version. Both may have a `_` of their own, and no name is parted in
/// two ways.
fn is_artifact_name(alloc: Global, name: &[u8]) -> Result<bool, NoMemory>
    ensures { IfOk result (λ yes. IsTrue yes ↔ IsArtifactName name.now) }
{
    for place in 0..name.len() {
        if parts_at(alloc, name, place)? {
            return Ok(true);
        }
    }
    Ok(false)
}

fn is_artifact_path(alloc: Global, names: &[Name]) -> Result<bool, NoMemory>
    ensures { IfOk result (λ yes. IsTrue yes ↔ IsArtifactPath names.now) }
{
    match names {
        [classifier, name] if is_unit_id(classifier.text().bytes()) => {
            is_artifact_name(alloc, name.text().bytes())
        }
        _ => Ok(false),
    }
}

/// The path of the artifact's file with this text. None exactly where no artifact's file has it.
pub(crate) fn read_artifact_path(alloc: Global, text: &[u8]) -> Result<Option<Path>, NoMemory>
    ensures { IfOk result (λ path. MatchOption path (HasNoArtifactPath text.now) (IsPathSpelled text.now)) }
{
    let text = match Text::new(alloc, text) {
        Ok(text) => text,
        Err(TextFault::NoMemory) => return Err(NoMemory),
        Err(TextFault::NotUtf8 { .. }) => return Ok(None),
    };
    let Some(path) = Path::read(alloc, &text)? else {
        return Ok(None);
    };
    if is_artifact_path(alloc, path.names().items())? {
        Ok(Some(path))
    } else {
        Ok(None)
    }
}
