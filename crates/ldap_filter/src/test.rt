ghost use Rattle.ldap_filter.specs.Same.{test_eq};
ghost use Rattle.ldap_filter.specs.SameLaws.{test_eq-equiv};
ghost use Rattle.std.specs.Cmp.{partial_equiv_from_equiv};

use osgi_version::{List, NoMemory, Text, Twin};

/// What an item asks of an attribute's value.
#[derive(Debug, Drop)]
pub enum Test {
    /// The value is these pieces in this order, with any bytes between each and the next.
    Equal(List<Text>),
    /// The values are equal without blanks, and with small letters for capital ones.
    Near(Text),
    AtLeast(Text),
    AtMost(Text),
    /// The attribute is there.
    Present,
}

impl Twin for Test {
    fn copy(&self) -> Result<Test, NoMemory> {
        match self {
            Test::Equal(pieces) => Ok(Test::Equal(pieces.copy()?)),
            Test::Near(value) => Ok(Test::Near(value.copy()?)),
            Test::AtLeast(value) => Ok(Test::AtLeast(value.copy()?)),
            Test::AtMost(value) => Ok(Test::AtMost(value.copy()?)),
            Test::Present => Ok(Test::Present),
        }
    }
}

impl PartialEq for Test {
    ghost eq = { test_eq };

    ghost laws = { partial_equiv_from_equiv test_eq-equiv };

    fn eq(&self, other: &Test) -> bool {
        match (self, other) {
            (Test::Equal(pieces), Test::Equal(others)) => pieces == others,
            (Test::Near(value), Test::Near(other)) => value == other,
            (Test::AtLeast(value), Test::AtLeast(other)) => value == other,
            (Test::AtMost(value), Test::AtMost(other)) => value == other,
            (Test::Present, Test::Present) => true,
            _ => false,
        }
    }
}

impl Eq for Test {
    ghost laws = { test_eq-equiv };
}
