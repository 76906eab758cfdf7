ghost use Rattle.std.specs.Prelude.{◌↔◌, Contains, IsTrue, MatchOption};
ghost use Rattle.folder_memory.specs.Image.{AreTouched, IsFirstUntouched};

use folder_core::{Path, Touch};
use osgi_version::{NoMemory, Twin};
use thiserror::Error;

/// Why no image was made.
#[derive(Clone, Copy, Debug, PartialEq, Eq, Error)]
pub enum ImageFault {
    /// The choice at this place, from 0, is the first for a path that wasn't touched since the last sync.
    #[error("choice {place} is for a path that was not touched")]
    NotTouched { place: u64 },
    /// A node has no directory above it, or may not stand at its path.
    #[error("not well formed")]
    NotWellFormed,
    #[error("out of memory")]
    NoMemory,
}

impl From<NoMemory> for ImageFault {
    ghost use Rattle.std.specs.Prelude.{◌≡◌};
    ghost use Rattle.folder_memory.specs.declared.image.ImageFault.TheVariants as image_fault;

    ghost from_gives = { λ _ e. e ≡ image_fault.NoMemory };

    fn from(_error: NoMemory) -> ImageFault {
        ImageFault::NoMemory
    }
}

impl Twin for ImageFault {
    fn copy(&self) -> Result<ImageFault, NoMemory> {
        Ok(*self)
    }
}

fn is_touched(touched: &[Path], path: &Path) -> bool
    ensures { IsTrue result ↔ Contains touched.now path.now }
{
    touched.contains(path)
}

/// The place of the first choice for a path that isn't one of those.
pub(crate) fn first_untouched(touched: &[Path], choice: &[Touch]) -> Option<usize>
    ensures { MatchOption result (AreTouched touched.now choice.now) (IsFirstUntouched touched.now choice.now) }
{
    for (place, touch) in choice.iter().enumerate() {
        if !is_touched(touched, &touch.path) {
            return Some(place);
        }
    }
    None
}
