ghost use Rattle.std.specs.Prelude.{◌≡◌, [], ◌∷◌, IfOk, string_bytes};
ghost use Rattle.host_adapters.specs.PlaceText.{place_text};

use crate::faults::HostFault;
use folder_core::Name;
use std::alloc::{AllocError, Global};
use std::fs::{Files, Metadata};
use std::io;
use std::io::ErrorKind;

/// A place of the host, and what stands there: None where nothing does.
#[derive(Drop)]
pub struct Place {
    pub text: String,
    pub found: Option<Metadata>,
}

impl Place {
    pub fn is_directory(&self) -> bool {
        match &self.found {
            Some(found) => found.is_dir(),
            None => false,
        }
    }
}

/// What stands at a root: a directory, or a link to one. Any other node there is a fault, and so is an empty text,
/// which the host has no place for.
pub fn find_root(files: &impl Files, root: &str) -> Result<Option<Metadata>, HostFault> {
    if root.is_empty() {
        return Err(HostFault::Failed);
    }
    match files.metadata(root) {
        Ok(found) if found.is_dir() => Ok(Some(found)),
        Ok(_) => Err(HostFault::Failed),
        Err(error) if error.kind() == ErrorKind::NotFound => Ok(None),
        Err(error) => Err(HostFault::from(error)),
    }
}

/// What stands at a text. A link isn't followed.
pub fn find_text(files: &impl Files, text: &str) -> io::Result<Option<Metadata>> {
    match files.symlink_metadata(text) {
        Ok(found) => Ok(Some(found)),
        Err(error) if error.kind() == ErrorKind::NotFound => Ok(None),
        Err(error) => Err(error),
    }
}

/// What stands where these names lead from a root that is there. A link on the way isn't followed: below what is no
/// directory there is nothing.
pub fn find(
    files: &impl Files,
    alloc: Global,
    root: &str,
    names: &[Name],
) -> Result<Place, HostFault>
    ensures { IfOk result (λ place. string_bytes place.text ≡ place_text root.now names.now) }
{
    let mut place = Place {
        text: String::from_str(alloc, root)?,
        found: Some(Metadata::of_dir()),
    };
    for name in names {
        let text = below(alloc, place.text.as_str(), name)?;
        let found = if place.is_directory() {
            find_text(files, text.as_str())?
        } else {
            None
        };
        place = Place { text, found };
    }
    Ok(place)
}

/// The text of the place with this name directly below another.
pub fn below(alloc: Global, text: &str, name: &Name) -> Result<String, AllocError>
    ensures { IfOk result (λ joined. string_bytes joined ≡ place_text text.now (name.now ∷ [])) }
{
    let mut joined = String::from_str(alloc, text)?;
    joined.push('/')?;
    joined.push_str(name.text().as_str())?;
    Ok(joined)
}

/// The text of the place to which these names lead from a root.
pub fn text_of(alloc: Global, root: &str, names: &[Name]) -> Result<String, AllocError>
    ensures { IfOk result (λ text. string_bytes text ≡ place_text root.now names.now) }
{
    let mut text = String::from_str(alloc, root)?;
    for name in names {
        let longer = below(alloc, text.as_str(), name)?;
        text = longer;
    }
    Ok(text)
}
