ghost use Rattle.std.specs.Prelude.{◌≡◌, IfOk, map};
ghost use Rattle.ldap_filter.specs.Same.{filter_eq, each_is};
ghost use Rattle.ldap_filter.specs.SameLaws.{filter_eq-equiv};
ghost use Rattle.std.specs.Cmp.{partial_equiv_from_equiv};

use crate::test::Test;
use osgi_version::{List, NoMemory, Text, Twin};
use sqlite_items::Boxed;
use std::alloc::Global;

/// A filter, as a tree (OSGi Core, "Filter Syntax").
#[derive(Debug, Drop)]
pub enum Filter {
    And(List<Filter>),
    Or(List<Filter>),
    Not(Boxed<Filter>),
    Item { attr: Text, test: Test },
}

impl Filter {
    fn allocator(&self) -> Global {
        match self {
            Filter::And(filters) | Filter::Or(filters) => filters.allocator(),
            Filter::Not(filter) => filter.get().allocator(),
            Filter::Item { attr, .. } => attr.allocator(),
        }
    }

    #[cycle(copy)]
    fn copy_in(&self, alloc: Global) -> Result<Filter, NoMemory>
        ensures { IfOk result (λ copied. copied ≡ self.now) }
    {
        match self {
            Filter::And(filters) => Ok(Filter::And(copy_all(alloc, filters.items())?)),
            Filter::Or(filters) => Ok(Filter::Or(copy_all(alloc, filters.items())?)),
            Filter::Not(filter) => Ok(Filter::Not(Boxed::new(
                alloc,
                filter.get().copy_in(alloc)?,
            )?)),
            Filter::Item { attr, test } => Ok(Filter::Item {
                attr: attr.copy()?,
                test: test.copy()?,
            }),
        }
    }

    #[cycle(equal)]
    fn equals(&self, other: &Filter) -> bool
        ensures { result ≡ filter_eq self.now other.now }
    {
        match (self, other) {
            (Filter::And(filters), Filter::And(others)) => {
                are_equal(filters.items(), others.items())
            }
            (Filter::Or(filters), Filter::Or(others)) => {
                are_equal(filters.items(), others.items())
            }
            (Filter::Not(filter), Filter::Not(other)) => filter.get().equals(other.get()),
            (
                Filter::Item { attr, test },
                Filter::Item {
                    attr: other_attr,
                    test: other_test,
                },
            ) => attr == other_attr && test == other_test,
            _ => false,
        }
    }
}

#[cycle(copy)]
fn copy_all(alloc: Global, filters: &[Filter]) -> Result<List<Filter>, NoMemory>
    ensures { IfOk result (λ copied. copied ≡ filters.now) }
{
    let mut copied = List::new(alloc);
    for filter in filters {
        copied.push(filter.copy_in(alloc)?)?;
    }
    Ok(copied)
}

impl Twin for Filter {
    fn copy(&self) -> Result<Filter, NoMemory> {
        self.copy_in(self.allocator())
    }
}

#[cycle(equal)]
fn are_equal(filters: &[Filter], others: &[Filter]) -> bool
    ensures { result ≡ each_is (map filter_eq filters.now) others.now }
{
    if filters.len() != others.len() {
        return false;
    }
    for (place, filter) in filters.iter().enumerate() {
        if !filter.equals(&others[place]) {
            return false;
        }
    }
    true
}

impl PartialEq for Filter {
    ghost eq = { filter_eq };

    ghost laws = { partial_equiv_from_equiv filter_eq-equiv };

    fn eq(&self, other: &Filter) -> bool {
        self.equals(other)
    }
}

impl Eq for Filter {
    ghost laws = { filter_eq-equiv };
}
