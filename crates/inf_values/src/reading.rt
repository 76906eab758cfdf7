//! Reads the texts of values.

ghost use Rattle.std.specs.Prelude.{◌≡◌, IfOk, IfSome, Option};
ghost use Rattle.osgi_version.specs.VersionText.{DenotesVersion, IsVersion};
ghost use Rattle.osgi_version.specs.RangeText.{DenotesRange};
ghost use Rattle.ldap_filter.specs.FilterText.{DenotesFilter};
ghost use Rattle.ldap_filter.specs.declared.filter.Filter.{Filter};
ghost use Rattle.osgi_version.specs.declared.version.Version.{Version};
ghost use Rattle.osgi_version.specs.declared.range.Range.{Range};
ghost use Rattle.inf_values.specs.Readings.{Readings, ReadsAll, Reads, value_of};

use ldap_filter::{Filter, FilterFault};
use osgi_version::{NoMemory, Range, Text, Version, VersionFault};
use std::alloc::Global;

/// How the text of a value is read.
#[derive(Clone, Copy, Debug, PartialEq, Eq)]
pub enum Class {
    Plain,
    Version,
    Range,
    Filter,
}

/// A value, read as its class says. None is a text of another form.
#[derive(Debug, Drop)]
pub enum Value {
    Plain(Text),
    Version(Option<Version>),
    Range(Option<Range>),
    Filter(Option<Filter>),
}

/// The version that the text denotes, if it denotes one.
pub(crate) fn version_of(alloc: Global, text: &[u8]) -> Result<Option<Version>, NoMemory>
    ensures form { IfOk result (λ found. IfSome found IsVersion) }
    ensures value { IfOk result (λ found. (other : Option Version) → Reads DenotesVersion text.now other → found ≡ other) }
{
    match Version::parse(alloc, text) {
        Ok(version) => Ok(Some(version)),
        Err(VersionFault::NoMemory) => Err(NoMemory),
        Err(VersionFault::Raw) => Ok(None),
        Err(VersionFault::Bad { .. }) => Ok(None),
    }
}

/// The range that the text denotes, if it denotes one.
fn range_of(alloc: Global, text: &[u8]) -> Result<Option<Range>, NoMemory>
    ensures { IfOk result (λ found. (other : Option Range) → Reads DenotesRange text.now other → found ≡ other) }
{
    match Range::parse(alloc, text) {
        Ok(range) => Ok(Some(range)),
        Err(VersionFault::NoMemory) => Err(NoMemory),
        Err(VersionFault::Raw) => Ok(None),
        Err(VersionFault::Bad { .. }) => Ok(None),
    }
}

/// The filter that the text denotes, if it denotes one.
fn filter_of(alloc: Global, text: &Text) -> Result<Option<Filter>, NoMemory>
    ensures { IfOk result (λ found. (other : Option Filter) → Reads DenotesFilter text.now other → found ≡ other) }
{
    match Filter::parse(alloc, text.bytes()) {
        Ok(filter) => Ok(Some(filter)),
        Err(FilterFault::NoMemory) => Err(NoMemory),
        Err(FilterFault::Bad { .. }) => Ok(None),
    }
}

/// The value that the text of a key of this class has.
pub fn value_of(alloc: Global, class: Class, text: Text) -> Result<Value, NoMemory>
    ensures { IfOk result (λ value. (read : Readings) → ReadsAll read → value ≡ value_of read class text) }
{
    match class {
        Class::Version => Ok(Value::Version(version_of(alloc, text.bytes())?)),
        Class::Range => Ok(Value::Range(range_of(alloc, text.bytes())?)),
        Class::Filter => Ok(Value::Filter(filter_of(alloc, &text)?)),
        Class::Plain => Ok(Value::Plain(text)),
    }
}
