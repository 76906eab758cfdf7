//! Values by their canonical texts: each has one, and no other text is read.

ghost use Rattle.std.specs.Prelude.{◌≡◌, IfOk, IfSome};
ghost use Rattle.std.specs.Fmt.{decimal};
ghost use Rattle.osgi_version.specs.VersionText.{IsVersion, version_text};
ghost use Rattle.osgi_version.specs.RangeText.{IsRange, range_text};
ghost use Rattle.ldap_filter.specs.FilterText.{IsFilter, filter_text};
ghost use Rattle.unit_lines.specs.Parts.{IsSmall, IsAny, truth_text, optional_text};
ghost use Rattle.unit_lines.specs.Reading.{IsReading};

use ldap_filter::{Filter, FilterFault};
use osgi_version::{NoMemory, Range, Text, Version, VersionFault};
use std::alloc::Global;

/// The greatest number that a unit's text has.
const MOST: u32 = 2_147_483_647;

pub(crate) fn version_of(alloc: Global, text: &Text) -> Result<Option<Version>, NoMemory>
    ensures { IfOk result (IsReading IsVersion version_text text.now) }
{
    let version = match Version::parse(alloc, text.bytes()) {
        Ok(version) => version,
        Err(VersionFault::NoMemory) => return Err(NoMemory),
        Err(VersionFault::Raw) => return Ok(None),
        Err(VersionFault::Bad { .. }) => return Ok(None),
    };
    let again = version.text(alloc)?;
    if again.bytes() == text.bytes() {
        Ok(Some(version))
    } else {
        Ok(None)
    }
}

pub(crate) fn range_of(alloc: Global, text: &Text) -> Result<Option<Range>, NoMemory>
    ensures { IfOk result (IsReading IsRange range_text text.now) }
{
    let range = match Range::parse(alloc, text.bytes()) {
        Ok(range) => range,
        Err(VersionFault::NoMemory) => return Err(NoMemory),
        Err(VersionFault::Raw) => return Ok(None),
        Err(VersionFault::Bad { .. }) => return Ok(None),
    };
    let again = range.text(alloc)?;
    if again.bytes() == text.bytes() {
        Ok(Some(range))
    } else {
        Ok(None)
    }
}

pub(crate) fn filter_of(alloc: Global, text: &Text) -> Result<Option<Filter>, NoMemory>
    ensures { IfOk result (IsReading IsFilter filter_text text.now) }
{
    let filter = match Filter::parse(alloc, text.bytes()) {
        Ok(filter) => filter,
        Err(FilterFault::NoMemory) => return Err(NoMemory),
        Err(FilterFault::Bad { .. }) => return Ok(None),
    };
    let again = filter.text(alloc)?;
    if again.bytes() == text.bytes() {
        Ok(Some(filter))
    } else {
        Ok(None)
    }
}

/// No filter, where the text is empty.
pub(crate) fn optional_filter_of(
    alloc: Global,
    text: &Text,
) -> Result<Option<Option<Filter>>, NoMemory>
    ensures { IfOk result (IsReading (λ filter. IfSome filter IsFilter) optional_text text.now) }
{
    if text.bytes().is_empty() {
        return Ok(Some(None));
    }
    match filter_of(alloc, text)? {
        Some(filter) => Ok(Some(Some(filter))),
        None => Ok(None),
    }
}

/// A number of at most 2147483647, in decimal digits without a leading zero.
pub(crate) fn number_of(alloc: Global, text: &Text) -> Result<Option<u32>, NoMemory>
    ensures { IfOk result (IsReading IsSmall decimal text.now) }
{
    let Ok(number) = text.as_str().parse::<u32>() else {
        return Ok(None);
    };
    if number > MOST {
        return Ok(None);
    }
    let again = number.to_string(alloc)?;
    if again.as_str() == text.as_str() {
        Ok(Some(number))
    } else {
        Ok(None)
    }
}

pub(crate) fn truth_of(text: &Text) -> Option<bool>
    ensures { IsReading IsAny truth_text text.now result }
{
    match text.bytes() {
        [b'1'] => Some(true),
        [b'0'] => Some(false),
        _ => None,
    }
}
