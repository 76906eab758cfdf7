//! Reading a range's text, part by part.

ghost use Rattle.std.specs.Prelude.{◌≡◌, ◌<◌, ◌∷◌, length, drop, IfOk, IfErr, IfSome, IfNone, slice_index, false};
ghost use Rattle.osgi_version.specs.Begins.{IsLongestBegin};
ghost use Rattle.osgi_version.specs.VersionText.{DenotesVersion, IsVersionText};
ghost use Rattle.osgi_version.specs.RangeText.{IsRangeText, opening, closing};
ghost use Rattle.osgi_version.specs.Sequence.{IsCeilingText, IsBoundsText, is_opening, is_closing};
ghost use Rattle.osgi_version.specs.IntervalReading.{IsBound, IsCut, IsStuck, IsWhiteLength, IsCeilingOf, AreBoundsOf, IsReadingOf};

use crate::memory::NoMemory;
use crate::reading::{self, Reading, is_white, read_front};
use crate::version::Version;
use std::alloc::Global;

/// A version's text, as it was read.
#[derive(Clone, Copy, Debug)]
pub(crate) struct Bound<'a> {
    pub text: &'a [u8],
    pub reading: Reading,
}

/// A version's text, and what stands behind it.
#[derive(Clone, Copy, Debug)]
struct Cut<'a> {
    bound: Bound<'a>,
    mark: u8,
    rest: &'a [u8],
}

/// What stands behind the comma of an interval.
#[derive(Clone, Copy, Debug)]
struct CeilingReading<'a> {
    bound: Bound<'a>,
    included: bool,
}

/// What stands behind the opening bracket of an interval.
#[derive(Clone, Copy, Debug)]
pub(crate) struct Bounds<'a> {
    pub floor: Bound<'a>,
    pub ceiling: Bound<'a>,
    pub ceiling_included: bool,
}

/// A range's text, as it was read.
#[derive(Clone, Copy, Debug)]
pub(crate) enum RangeReading<'a> {
    /// One version's text.
    Floor(Bound<'a>),
    Interval {
        floor_included: bool,
        bounds: Bounds<'a>,
    },
}

impl Bound<'_> {
    /// The version that the text spells.
    pub(crate) fn version(&self, alloc: Global) -> Result<Version, NoMemory>
        requires { IsBound self.now.text.now self.now.reading }
        ensures { IfOk result (DenotesVersion self.now.text.now) }
    {
        self.reading.version(alloc, self.text)
    }
}

/// How much white space the text begins with.
fn white_length(text: &[u8]) -> usize
    ensures { IsWhiteLength text.now result }
{
    match text.iter().position(|byte| !is_white(*byte)) {
        Some(at) => at,
        None => text.len(),
    }
}

/// Parts the text behind its longest front that some version's text begins with. An `Err` is the length of that
/// front, where it is no version's text or where nothing is behind it.
fn cut_version(text: &[u8]) -> Result<Cut<'_>, usize>
    ensures found { IfOk result (λ cut. IsCut text.now cut.bound.text.now cut.bound.reading cut.mark cut.rest.now) }
    ensures refused { IfErr result (IsStuck text.now) }
{
    let front = read_front(text);
    if !front.is_whole() || front.end == text.len() {
        return Err(front.end);
    }
    Ok(Cut {
        bound: Bound {
            text: &text[..front.end],
            reading: front.reading,
        },
        mark: text[front.end],
        rest: &text[front.end + 1..],
    })
}

/// Reads what stands behind the comma of an interval. An `Err` is the length of the longest front that may stand
/// there.
fn read_ceiling(text: &[u8]) -> Result<CeilingReading<'_>, usize>
    ensures found { IfOk result (λ c. IsCeilingOf text.now c.bound.text.now c.bound.reading c.included) }
    ensures refused { IfErr result (λ at. ¬ (IsCeilingText text.now) × IsLongestBegin IsCeilingText text.now at) }
{
    let cut = cut_version(text)?;
    let Some(included) = closing_bracket(cut.mark) else {
        return Err(cut.bound.text.len());
    };
    let white = white_length(cut.rest);
    if white < cut.rest.len() {
        return Err(cut.bound.text.len() + 1 + white);
    }
    Ok(CeilingReading {
        bound: cut.bound,
        included,
    })
}

/// Reads what stands behind the opening bracket of an interval. An `Err` is the length of the longest front that
/// may stand there.
fn read_bounds(text: &[u8]) -> Result<Bounds<'_>, usize>
    ensures found { IfOk result (λ b. AreBoundsOf text.now b.floor.text.now b.floor.reading b.ceiling.text.now b.ceiling.reading b.ceiling_included) }
    ensures refused { IfErr result (λ at. ¬ (IsBoundsText text.now) × IsLongestBegin IsBoundsText text.now at) }
{
    let cut = cut_version(text)?;
    if cut.mark != b',' {
        return Err(cut.bound.text.len());
    }
    match read_ceiling(cut.rest) {
        Ok(ceiling) => Ok(Bounds {
            floor: cut.bound,
            ceiling: ceiling.bound,
            ceiling_included: ceiling.included,
        }),
        Err(at) => Err(cut.bound.text.len() + 1 + at),
    }
}

/// Reads a whole text. An `Err` is the length of its longest front that a range's text begins with.
pub(crate) fn read_range(text: &[u8]) -> Result<RangeReading<'_>, usize>
    ensures found { IfOk result (IsReadingOf text.now) }
    ensures refused { IfErr result (λ at. ¬ (IsRangeText text.now) × IsLongestBegin IsRangeText text.now at) }
{
    let white = white_length(text);
    let (_, bracketed) = text.split_at(white);
    let Some(floor_included) = opening_bracket(bracketed) else {
        return read_floor(text);
    };
    let (_, bounds) = text.split_at(white + 1);
    match read_bounds(bounds) {
        Ok(bounds) => Ok(RangeReading::Interval {
            floor_included,
            bounds,
        }),
        Err(at) => Err(white + 1 + at),
    }
}

fn read_floor(text: &[u8]) -> Result<RangeReading<'_>, usize>
    ensures found { IfOk result (IsReadingOf text.now) }
    ensures refused { IfErr result (λ at. ¬ (IsVersionText text.now) × IsLongestBegin IsVersionText text.now at) }
{
    let reading = reading::read(text)?;
    Ok(RangeReading::Floor(Bound { text, reading }))
}

/// Whether the ceiling is included, where the byte is a closing bracket.
fn closing_bracket(byte: u8) -> Option<bool>
    ensures closes { IfSome result (λ included. byte ≡ closing included) }
    ensures other { IfNone result (is_closing byte ≡ false) }
{
    match byte {
        b']' => Some(true),
        b')' => Some(false),
        _ => None,
    }
}

/// Whether the floor is included, where the text begins with an opening bracket.
fn opening_bracket(text: &[u8]) -> Option<bool>
    ensures opens { IfSome result (λ included. text.now ≡ opening included ∷ drop 1 text.now) }
    ensures other { IfNone result (0 < length text.now → is_opening (slice_index text.now 0) ≡ false) }
{
    match text {
        [b'[', ..] => Some(true),
        [b'(', ..] => Some(false),
        _ => None,
    }
}
