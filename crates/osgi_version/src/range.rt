ghost use Rattle.std.specs.Prelude.{◌≡◌, ◌⊎◌, ◌↔◌, [], ◌∷◌, ◌++◌, IsTrue, IfOk, IfErr, Ok, Err};
ghost use Rattle.osgi_version.specs.Holds.{Holds, IsAboveFloor, IsBelowCeiling};
ghost use Rattle.osgi_version.specs.IntervalReading.{AreRead, IsRangeOf};
ghost use Rattle.osgi_version.specs.RangeText.{DenotesRange, IsRangeText, IsRange, range_text, opening, closing};
ghost use Rattle.osgi_version.specs.VersionText.{IsRaw, IsFault, IsVersion, version_text};
ghost use Rattle.osgi_version.specs.declared.range.Range.{Range};
ghost use Rattle.osgi_version.specs.declared.version.VersionFault.TheVariants as fault;

use crate::interval::{RangeReading, read_range};
use crate::memory::NoMemory;
use crate::reading::is_raw;
use crate::text::Text;
use crate::twin::Twin;
use crate::version::{Version, VersionFault};
use std::alloc::Global;
use std::cmp::Ordering;

/// The upper end of a range.
#[derive(Debug, PartialEq, Eq, Drop)]
pub struct Ceiling {
    pub version: Version,
    pub included: bool,
}

/// A range of versions (OSGi Core, "Version Ranges"). With no ceiling it has no upper end.
#[derive(Debug, PartialEq, Eq, Drop)]
pub struct Range {
    pub floor: Version,
    pub floor_included: bool,
    pub ceiling: Option<Ceiling>,
}

impl Range {
    /// The range that a text denotes (OSGi Core, "Version Ranges"): one version, for it and all above it, or an
    /// interval in brackets, which may be one that no version meets. White space is taken around the text and around
    /// each version. A text that begins `raw:` is `Raw`, and each other text outside the grammar `Bad`.
    pub fn parse(alloc: Global, text: &[u8]) -> Result<Range, VersionFault>
        ensures found { IfOk result (DenotesRange text.now) }
        ensures form { IfOk result IsRange }

        // Each text of the grammar is read, unless memory runs out.
        ensures only { (r : Range) → DenotesRange text.now r → (result ≡ Ok r) ⊎ (result ≡ Err fault.NoMemory) }
        ensures raw { IsRaw text.now → result ≡ Err fault.Raw }
        ensures refused { IfErr result (IsFault IsRangeText text.now) }
    {
        if is_raw(text) {
            return Err(VersionFault::Raw);
        }
        match read_range(text) {
            Ok(reading) => Ok(range_of(alloc, &reading)?),
            Err(at) => Err(VersionFault::Bad { at: at as u64 }),
        }
    }

    /// The canonical text: that of the floor alone where there is no ceiling, or else the two versions in brackets.
    pub fn text(&self, alloc: Global) -> Result<Text, NoMemory>
        requires { IsRange self.now }
        ensures canonical { IfOk result (λ text. text ≡ range_text self.now) }

        // It reads back.
        ensures reads_back { IfOk result (λ text. DenotesRange text self.now) }
    {
        let floor = self.floor.text(alloc)?;
        match &self.ceiling {
            Some(ceiling) => interval_text(alloc, self.floor_included, &floor, ceiling),
            None => Ok(floor),
        }
    }

    /// Whether the version is in the range: not below its floor and not above its ceiling, and neither of them where
    /// it is excluded.
    pub fn holds(&self, version: &Version) -> bool
        ensures { IsTrue result ↔ Holds self.now version.now }
    {
        if !self.begins_below(version) {
            return false;
        }
        match &self.ceiling {
            Some(ceiling) => ceiling.is_above(version),
            None => true,
        }
    }

    fn begins_below(&self, version: &Version) -> bool
        ensures { IsTrue result ↔ IsAboveFloor self.now version.now }
    {
        match self.floor.order(version) {
            Ordering::Less => true,
            Ordering::Equal => self.floor_included,
            Ordering::Greater => false,
        }
    }
}

impl Ceiling {
    fn is_above(&self, version: &Version) -> bool
        ensures { IsTrue result ↔ IsBelowCeiling version.now self.now }
    {
        match version.order(&self.version) {
            Ordering::Less => true,
            Ordering::Equal => self.included,
            Ordering::Greater => false,
        }
    }
}

/// The range that was read.
fn range_of(alloc: Global, reading: &RangeReading<'_>) -> Result<Range, NoMemory>
    requires { AreRead reading.now }
    ensures { IfOk result (IsRangeOf reading.now) }
{
    match reading {
        RangeReading::Floor(bound) => Ok(Range {
            floor: bound.version(alloc)?,
            floor_included: true,
            ceiling: None,
        }),
        RangeReading::Interval {
            floor_included,
            bounds,
        } => Ok(Range {
            floor: bounds.floor.version(alloc)?,
            floor_included: *floor_included,
            ceiling: Some(Ceiling {
                version: bounds.ceiling.version(alloc)?,
                included: bounds.ceiling_included,
            }),
        }),
    }
}

/// Two versions in brackets.
fn interval_text(
    alloc: Global,
    floor_included: bool,
    floor: &Text,
    ceiling: &Ceiling,
) -> Result<Text, NoMemory>
    requires { IsVersion ceiling.now.version }
    ensures { IfOk result (λ text. text ≡ opening floor_included ∷ (floor.now ++ 44 ∷ (version_text ceiling.now.version ++ closing ceiling.now.included ∷ []))) }
{
    let top = ceiling.version.text(alloc)?;
    let open = if floor_included { '[' } else { '(' };
    let close = if ceiling.included { ']' } else { ')' };
    let text = format!(in alloc; "{}{},{}{}", open, floor.as_str(), top.as_str(), close)?;
    Text::from_str(alloc, text.as_str())
}

impl Twin for Ceiling {
    fn copy(&self) -> Result<Ceiling, NoMemory> {
        Ok(Ceiling {
            version: self.version.copy()?,
            included: self.included,
        })
    }
}

impl Twin for Range {
    fn copy(&self) -> Result<Range, NoMemory> {
        let ceiling = match &self.ceiling {
            Some(ceiling) => Some(ceiling.copy()?),
            None => None,
        };
        Ok(Range {
            floor: self.floor.copy()?,
            floor_included: self.floor_included,
            ceiling,
        })
    }
}
