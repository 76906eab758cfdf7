//! Copies of values, with what stands for those that are missing.

ghost use Rattle.std.specs.Prelude.{◌≡◌, [], codes, unwrap_or, IfOk};
ghost use Rattle.std.specs.Option.{option_map};
ghost use Rattle.inf_values.specs.Defaults.{any_version, below_version};

use ldap_filter::Filter;
use osgi_version::{Ceiling, NoMemory, Range, Text, Twin, Version};
use std::alloc::Global;

/// The version 0.0.0.
fn zero_version(alloc: Global) -> Result<Version, NoMemory>
    ensures { IfOk result (λ v. v ≡ record { major = 0; minor = 0; micro = 0; qualifier = codes "" }) }
{
    let qualifier = Text::from_str(alloc, "")?;
    Ok(Version {
        major: 0,
        minor: 0,
        micro: 0,
        qualifier,
    })
}

/// The text, or else the default.
pub fn copy_text_or(text: Option<&Text>, default: &Text) -> Result<Text, NoMemory>
    ensures { IfOk result (λ t. t ≡ unwrap_or (option_map (λ x. x.now) text.entry) default.now) }
{
    match text {
        Some(text) => text.copy(),
        None => default.copy(),
    }
}

/// The text, or else the empty one.
pub fn copy_text_or_empty(alloc: Global, text: Option<&Text>) -> Result<Text, NoMemory>
    ensures { IfOk result (λ t. t ≡ unwrap_or (option_map (λ x. x.now) text.entry) []) }
{
    match text {
        Some(text) => text.copy(),
        None => Text::from_str(alloc, ""),
    }
}

/// The filter, where there is one.
pub fn copy_filter(filter: Option<&Filter>) -> Result<Option<Filter>, NoMemory>
    ensures { IfOk result (λ f. f ≡ option_map (λ x. x.now) filter.entry) }
{
    match filter {
        Some(filter) => Ok(Some(filter.copy()?)),
        None => Ok(None),
    }
}

/// The range, or else from 0.0.0 on to below the version.
pub fn copy_range_or_below(
    alloc: Global,
    range: Option<&Range>,
    version: &Version,
) -> Result<Range, NoMemory>
    ensures { IfOk result (λ r. r ≡ unwrap_or (option_map (λ x. x.now) range.entry) (below_version version.now)) }
{
    if let Some(range) = range {
        return range.copy();
    }
    let floor = zero_version(alloc)?;
    let version = version.copy()?;
    Ok(Range {
        floor,
        floor_included: true,
        ceiling: Some(Ceiling {
            version,
            included: false,
        }),
    })
}

/// The version, or else the default.
pub fn copy_version_or(version: Option<&Version>, default: &Version) -> Result<Version, NoMemory>
    ensures { IfOk result (λ v. v ≡ unwrap_or (option_map (λ x. x.now) version.entry) default.now) }
{
    match version {
        Some(version) => version.copy(),
        None => default.copy(),
    }
}

/// The range, or else every version.
pub fn copy_range_or_any(alloc: Global, range: Option<&Range>) -> Result<Range, NoMemory>
    ensures { IfOk result (λ r. r ≡ unwrap_or (option_map (λ x. x.now) range.entry) any_version) }
{
    if let Some(range) = range {
        return range.copy();
    }
    let floor = zero_version(alloc)?;
    Ok(Range {
        floor,
        floor_included: true,
        ceiling: None,
    })
}
