//! Reading a version's text, byte by byte.

ghost use Rattle.std.specs.Prelude.{◌≡◌, ◌+◌, ◌-◌, ◌<◌, ◌≤◌, ◌↔◌, ◌==◌, ◌&&◌, ◌^◌, if◌then◌else◌, nat_lt, true, false, length, take, Some, None, IsTrue, IfSome, IfOk, IfErr, option_map, slice_index, slice_range};
ghost use Rattle.std.specs.List.{AllPass};
ghost use Rattle.osgi_version.specs.Begins.{IsLongestBegin};
ghost use Rattle.osgi_version.specs.VersionText.{IsRaw, IsVersionText, DenotesVersion, is_white, is_qualifier_byte};
ghost use Rattle.osgi_version.specs.VersionSteps.{with_digit, is_whole, step};
ghost use Rattle.osgi_version.specs.VersionReading.{progress_in, version_in, IsReadingAt};
ghost use Rattle.osgi_version.specs.declared.reading.Stage.TheVariants.{Before, InMajor, InMinor, InMicro, InQualifier, After};

use crate::memory::NoMemory;
use crate::text::{Text, TextFault};
use crate::version::Version;
use std::alloc::Global;

/// The greatest number of a version.
const GREATEST: u64 = 2147483647;

/// How many bytes a qualifier may have.
const LONGEST: usize = 80;

/// What a version's text may go on with.
#[derive(Clone, Copy, Debug, PartialEq, Eq)]
pub(crate) enum Stage {
    /// White space at most so far.
    Before,
    InMajor,
    /// Behind the first dot.
    ToMinor,
    InMinor,
    /// Behind the second dot.
    ToMicro,
    InMicro,
    /// Behind the third dot.
    ToQualifier,
    InQualifier,
    /// In the white space behind the version.
    After,
}

impl Stage {
    /// Whether the text may end here.
    fn is_whole(self) -> bool
        ensures { result ≡ is_whole self }
    {
        !matches!(self, Stage::ToMinor | Stage::ToMicro | Stage::ToQualifier)
    }
}

pub(crate) fn is_white(byte: u8) -> bool
    ensures { result ≡ is_white byte }
{
    matches!(byte, b' ' | b'\t' | b'\n' | b'\x0c' | b'\r')
}

fn is_qualifier_byte(byte: u8) -> bool
    ensures { result ≡ is_qualifier_byte byte }
{
    byte.is_ascii_alphanumeric() || byte == b'_' || byte == b'-'
}

/// The number with one more digit, where that is a digit and the number isn't too great.
fn with_digit(number: u32, byte: u8) -> Option<u32>
    ensures { result ≡ with_digit number byte }
{
    if !byte.is_ascii_digit() {
        return None;
    }
    let longer = 10 * u64::from(number) + u64::from(byte - b'0');
    if longer <= GREATEST {
        Some(longer as u32)
    } else {
        None
    }
}

/// Whether the text begins `raw:`, with white space before it or none.
pub(crate) fn is_raw(text: &[u8]) -> bool
    ensures { IsTrue result ↔ IsRaw text.now }
{
    text.trim_ascii_start().starts_with(b"raw:")
}

/// What is read of a version's text so far.
#[derive(Clone, Copy, Debug)]
pub(crate) struct Reading {
    stage: Stage,
    major: u32,
    minor: u32,
    micro: u32,
    /// Where the qualifier begins and ends in the text.
    start: usize,
    end: usize,
}

impl Reading {
    /// Nothing is read.
    pub(crate) fn new() -> Reading
        ensures { result ≡ record { stage = Before; major = 0; minor = 0; micro = 0; start = 0; end = 0 } }
    {
        Reading {
            stage: Stage::Before,
            major: 0,
            minor: 0,
            micro: 0,
            start: 0,
            end: 0,
        }
    }

    fn at_stage(self, stage: Stage) -> Reading
        ensures { result ≡ record self { stage = stage } }
    {
        Reading { stage, ..self }
    }

    fn major_digit(self, byte: u8) -> Option<Reading>
        ensures { result ≡ option_map (λ n. record self { stage = InMajor; major = n }) (with_digit self.major byte) }
    {
        let major = with_digit(self.major, byte)?;
        Some(Reading {
            stage: Stage::InMajor,
            major,
            ..self
        })
    }

    fn minor_digit(self, byte: u8) -> Option<Reading>
        ensures { result ≡ option_map (λ n. record self { stage = InMinor; minor = n }) (with_digit self.minor byte) }
    {
        let minor = with_digit(self.minor, byte)?;
        Some(Reading {
            stage: Stage::InMinor,
            minor,
            ..self
        })
    }

    fn micro_digit(self, byte: u8) -> Option<Reading>
        ensures { result ≡ option_map (λ n. record self { stage = InMicro; micro = n }) (with_digit self.micro byte) }
    {
        let micro = with_digit(self.micro, byte)?;
        Some(Reading {
            stage: Stage::InMicro,
            micro,
            ..self
        })
    }

    /// The byte at a place in the qualifier that begins at `start`.
    fn qualifier_byte(self, byte: u8, start: usize, at: usize) -> Option<Reading>
        requires ordered { start ≤ at }
        requires fits { at + 1 < 2 ^ 64 }
        ensures { result ≡ (if is_qualifier_byte byte && nat_lt (at - start) 80 then Some (record self { stage = InQualifier; start = start; end = at + 1 }) else None) }
    {
        if is_qualifier_byte(byte) && at - start < LONGEST {
            Some(Reading {
                stage: Stage::InQualifier,
                start,
                end: at + 1,
                ..self
            })
        } else {
            None
        }
    }

    /// White space or a dot behind a number.
    fn separator(self, byte: u8, dotted: Stage) -> Option<Reading>
        ensures { result ≡ (if is_white byte then Some (record self { stage = After }) else (if byte == 46 then Some (record self { stage = dotted }) else None)) }
    {
        if is_white(byte) {
            Some(self.at_stage(Stage::After))
        } else if byte == b'.' {
            Some(self.at_stage(dotted))
        } else {
            None
        }
    }

    /// The reading with one more byte. `None` where no text of a version goes on with it.
    fn step(self, text: &[u8], at: usize) -> Option<Reading>
        requires inside { at < length text.now }
        requires reading { IsReadingAt at self }
        ensures steps { option_map (progress_in text.now) result ≡ step (progress_in text.now self) (slice_index text.now at) }
        ensures reading { IfSome result (IsReadingAt (at + 1)) }
    {
        let byte = text[at];
        match self.stage {
            Stage::Before if is_white(byte) => Some(self),
            Stage::Before => self.major_digit(byte),
            Stage::InMajor => self
                .separator(byte, Stage::ToMinor)
                .or(self.major_digit(byte)),
            Stage::ToMinor => self.minor_digit(byte),
            Stage::InMinor => self
                .separator(byte, Stage::ToMicro)
                .or(self.minor_digit(byte)),
            Stage::ToMicro => self.micro_digit(byte),
            Stage::InMicro => self
                .separator(byte, Stage::ToQualifier)
                .or(self.micro_digit(byte)),
            Stage::ToQualifier => self.qualifier_byte(byte, at, at),
            Stage::InQualifier if is_white(byte) => Some(self.at_stage(Stage::After)),
            Stage::InQualifier => self.qualifier_byte(byte, self.start, at),
            Stage::After if is_white(byte) => Some(self),
            Stage::After => None,
        }
    }

    /// The version that is read from the text.
    pub(crate) fn version(self, alloc: Global, text: &[u8]) -> Result<Version, NoMemory>
        requires ordered { self.start ≤ self.end }
        requires within { self.end ≤ length text.now }
        requires bytes { AllPass is_qualifier_byte (slice_range text.now self.start self.end) }
        ensures { IfOk result (λ v. v ≡ version_in text.now self) }
    {
        let qualifier = match Text::new(alloc, &text[self.start..self.end]) {
            Ok(qualifier) => qualifier,
            Err(TextFault::NoMemory) => return Err(NoMemory),
            Err(TextFault::NotUtf8 { .. }) => unreachable!(),
        };
        Ok(Version {
            major: self.major,
            minor: self.minor,
            micro: self.micro,
            qualifier,
        })
    }
}

/// The longest front of a text that a version's text begins with, as it was read.
#[derive(Clone, Copy, Debug)]
pub(crate) struct Front {
    pub reading: Reading,
    pub end: usize,
}

impl Front {
    /// Whether the front is a version's text.
    pub(crate) fn is_whole(self) -> bool
        ensures { result ≡ is_whole self.reading.stage }
    {
        self.reading.stage.is_whole()
    }
}

/// Reads a text as far as a version's text may go.
pub(crate) fn read_front(text: &[u8]) -> Front
    ensures longest { IsLongestBegin IsVersionText text.now result.end }
    ensures reading { IsReadingAt result.end result.reading }
    ensures whole { is_whole result.reading.stage ≡ true
        → DenotesVersion (take result.end text.now) (version_in (take result.end text.now) result.reading) }
    ensures open_end { is_whole result.reading.stage ≡ false → ¬ (IsVersionText (take result.end text.now)) }
{
    let mut reading = Reading::new();
    for at in 0..text.len() {
        let Some(next) = reading.step(text, at) else {
            return Front { reading, end: at };
        };
        reading = next;
    }
    Front {
        reading,
        end: text.len(),
    }
}

/// Reads a whole text. An `Err` is the length of its longest front that a version's text begins with.
pub(crate) fn read(text: &[u8]) -> Result<Reading, usize>
    ensures found { IfOk result (λ r. DenotesVersion text.now (version_in text.now r)) }
    ensures reading { IfOk result (IsReadingAt (length text.now)) }
    ensures refused { IfErr result (λ at. ¬ (IsVersionText text.now) × IsLongestBegin IsVersionText text.now at) }
{
    let front = read_front(text);
    if front.end == text.len() && front.is_whole() {
        Ok(front.reading)
    } else {
        Err(front.end)
    }
}
