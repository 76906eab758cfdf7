use crate::option::copy_option;
use ldap_filter::Filter;
use osgi_version::{NoMemory, Range, Text, Twin};

/// How many members of a selection provide a capability that the unit asks for.
#[derive(Debug, PartialEq, Eq, Drop)]
pub struct Required {
    pub namespace: Text,
    pub name: Text,
    pub range: Range,
    /// Where this filter is false, nothing is asked for.
    pub filter: Option<Filter>,
    pub min: u32,
    pub max: u32,
    /// Whether what matches is taken into the slice.
    pub greedy: bool,
}

impl Twin for Required {
    fn copy(&self) -> Result<Required, NoMemory> {
        Ok(Required {
            namespace: self.namespace.copy()?,
            name: self.name.copy()?,
            range: self.range.copy()?,
            filter: copy_option(&self.filter)?,
            min: self.min,
            max: self.max,
            greedy: self.greedy,
        })
    }
}
