//! The host that a folder's name gives.

ghost use Rattle.std.specs.Prelude.{◌≡◌, ◌≤◌, ◌<◌, length, drop, IfOk, IfSome, IsTrue};
ghost use Rattle.std.specs.List.{list_any};
ghost use Rattle.osgi_version.specs.VersionText.{IsVersion, is_white};
ghost use Rattle.unit_model.specs.UnitId.{IsUnitId};
ghost use Rattle.inf_values.specs.Readings.{Readings, ReadsAll};
ghost use Rattle.inf_values.specs.Host.{stands_alone, version_at, named, host_of, is_id};

use crate::reading::version_of;
use osgi_version::{NoMemory, Text, Version};
use std::alloc::Global;
use unit_model::{UnitName, is_unit_id};

/// Whether the bytes have the form of a unit's id.
pub(crate) fn is_id(id: &[u8]) -> bool
    ensures value { result ≡ is_id id.now }
    ensures form { IsTrue result → IsUnitId id.now }
{
    is_unit_id(id)
}

fn is_white(byte: u8) -> bool
    ensures { result ≡ is_white byte }
{
    matches!(byte, b' ' | b'\t' | b'\n' | b'\x0c' | b'\r')
}

fn has_white(text: &[u8]) -> bool
    ensures { result ≡ list_any is_white text.now }
{
    text.iter().any(|byte| is_white(*byte))
}

/// Not empty, and without white space.
fn stands_alone(text: &[u8]) -> bool
    ensures { result ≡ stands_alone text.now }
{
    !text.is_empty() && !has_white(text)
}

/// The version behind the `_` that the name has at a place.
fn version_at(alloc: Global, folder: &[u8], at: usize) -> Result<Option<Version>, NoMemory>
    requires { at < length folder.now }
    ensures form { IfOk result (λ found. IfSome found IsVersion) }
    ensures value { IfOk result (λ found. (read : Readings) → ReadsAll read → found ≡ version_at read (drop at folder.now)) }
{
    let text = &folder[at + 1..];
    if folder[at] != b'_' || !stands_alone(text) {
        return Ok(None);
    }
    let version = version_of(alloc, text)?;
    Ok(version)
}

/// The host's name: an id, `_` and a version. The version begins behind the first `_` behind which one stands alone.
pub fn host_of(alloc: Global, folder: &[u8]) -> Result<Option<UnitName>, NoMemory>
    ensures form { IfOk result (λ host. IfSome host (λ h. IsVersion h.version)) }
    ensures value { IfOk result (λ host. (read : Readings) → ReadsAll read → host ≡ host_of read folder.now) }
{
    for at in 0..folder.len() {
        if let Some(version) = version_at(alloc, folder, at)? {
            let host = named(alloc, &folder[..at], version)?;
            return Ok(host);
        }
    }
    Ok(None)
}

/// The name of this id and version, where the id has the form of one.
fn named(alloc: Global, id: &[u8], version: Version) -> Result<Option<UnitName>, NoMemory>
    ensures form { IsVersion version → IfOk result (λ host. IfSome host (λ h. IsVersion h.version)) }
    ensures value { IfOk result (λ host. host ≡ named id.now version) }
{
    if !is_id(id) {
        return Ok(None);
    }
    let id = Text::from_ascii(alloc, id)?;
    Ok(Some(UnitName { id, version }))
}
