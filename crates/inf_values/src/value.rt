//! What a value is, where it has the form that is asked for.

ghost use Rattle.std.specs.Prelude.{◌≡◌, map, codes};
ghost use Rattle.std.specs.Option.{option_map};
ghost use Rattle.inf_values.specs.Values.{plain_in, id_in, version_in, range_in, filter_in, number_in, is_true, is_true_in};

use crate::host::is_id;
use crate::number::number_at_most;
use crate::reading::Value;
use ldap_filter::Filter;
use osgi_version::{Range, Text, Version};

/// The greatest number in a value.
const GREATEST: u32 = 2_147_483_647;

impl Value {
    /// The text, as it stands.
    pub fn plain(&self) -> Option<&Text>
        ensures { option_map (λ t. t.now) result ≡ plain_in self.now }
    {
        match self {
            Value::Plain(text) => Some(text),
            Value::Version(_) | Value::Range(_) | Value::Filter(_) => None,
        }
    }

    /// The text, where it has the form of a unit's id.
    pub fn id(&self) -> Option<&Text>
        ensures { option_map (λ t. t.now) result ≡ id_in self.now }
    {
        let text = self.plain()?;
        if is_id(text.bytes()) {
            Some(text)
        } else {
            None
        }
    }

    pub fn version(&self) -> Option<&Version>
        ensures { option_map (λ v. v.now) result ≡ version_in self.now }
    {
        match self {
            Value::Version(Some(version)) => Some(version),
            Value::Version(None) | Value::Plain(_) | Value::Range(_) | Value::Filter(_) => None,
        }
    }

    pub fn range(&self) -> Option<&Range>
        ensures { option_map (λ r. r.now) result ≡ range_in self.now }
    {
        match self {
            Value::Range(Some(range)) => Some(range),
            Value::Range(None) | Value::Plain(_) | Value::Version(_) | Value::Filter(_) => None,
        }
    }

    pub fn filter(&self) -> Option<&Filter>
        ensures { option_map (λ f. f.now) result ≡ filter_in self.now }
    {
        match self {
            Value::Filter(Some(filter)) => Some(filter),
            Value::Filter(None) | Value::Plain(_) | Value::Version(_) | Value::Range(_) => None,
        }
    }

    /// A number of at most 2,147,483,647, without leading zeros.
    pub fn number(&self) -> Option<u32>
        ensures { result ≡ number_in self.now }
    {
        number_at_most(GREATEST, self.plain()?.bytes())
    }

    /// `true`, in letters of either case. All else is false.
    pub fn truth(&self) -> bool
        ensures { result ≡ is_true_in self.now }
    {
        match self.plain() {
            Some(text) => is_true(text.bytes()),
            None => false,
        }
    }
}

fn is_true(text: &[u8]) -> bool
    ensures { result ≡ is_true text.now }
{
    text.eq_ignore_ascii_case(b"true")
}
