//! Testing filters in an environment.

ghost use Rattle.std.specs.Prelude.{◌≡◌, ◌<◌, nat_eq, map, length, [], ◌∷◌, IfSome, MatchOption};
ghost use Rattle.std.specs.List.{list_any, list_all};
ghost use Rattle.std.specs.Cmp.Lexicographic.{pointwise};
ghost use Rattle.ldap_filter.specs.Truth.{is_true, test_true, is_blank, blurred};

use crate::env::Env;
use crate::filter::Filter;
use crate::pieces::fits;
use crate::test::Test;
use std::cmp::Ordering;

impl Filter {
    /// Whether the filter is true in an environment (OSGi Core, "Filter Syntax"). A test of an attribute that isn't
    /// there is false.
    #[cycle(truth)]
    pub fn truth(&self, env: &Env) -> bool
        ensures { result ≡ is_true env.now self.now }
    {
        match self {
            Filter::And(filters) => all_true(filters.items(), env),
            Filter::Or(filters) => any_true(filters.items(), env),
            Filter::Not(filter) => !filter.get().truth(env),
            Filter::Item { attr, test } => match env.get(attr.bytes()) {
                Some(value) => test.holds(value.bytes()),
                None => false,
            },
        }
    }
}

#[cycle(truth)]
fn all_true(filters: &[Filter], env: &Env) -> bool
    ensures { result ≡ list_all (λ t. t) (map (is_true env.now) filters.now) }
{
    for filter in filters {
        if !filter.truth(env) {
            return false;
        }
    }
    true
}

#[cycle(truth)]
fn any_true(filters: &[Filter], env: &Env) -> bool
    ensures { result ≡ list_any (λ t. t) (map (is_true env.now) filters.now) }
{
    for filter in filters {
        if filter.truth(env) {
            return true;
        }
    }
    false
}

impl Test {
    fn holds(&self, value: &[u8]) -> bool
        ensures { result ≡ test_true self.now value.now }
    {
        match self {
            Test::Equal(pieces) => fits(pieces.items(), value),
            Test::Near(other) => is_near(other.bytes(), value),
            Test::AtLeast(bound) => value.cmp(bound.bytes()) != Ordering::Less,
            Test::AtMost(bound) => value.cmp(bound.bytes()) != Ordering::Greater,
            Test::Present => true,
        }
    }
}

/// Whether the values are equal without blanks, and with small letters for capital ones.
fn is_near(value: &[u8], other: &[u8]) -> bool
    ensures { result ≡ pointwise nat_eq (blurred value.now) (blurred other.now) }
{
    let mut rest = value;
    let mut other_rest = other;
    loop {
        match (next_visible(rest), next_visible(other_rest)) {
            (Some((byte, behind)), Some((other_byte, other_behind))) if byte == other_byte => {
                rest = behind;
                other_rest = other_behind;
            }
            (None, None) => return true,
            _ => return false,
        }
    }
}

/// The first byte that isn't blank, as a small letter where it is a capital one, and what is behind it.
fn next_visible(value: &[u8]) -> Option<(u8, &[u8])>
    ensures next { MatchOption result (blurred value.now ≡ []) (λ p. blurred value.now ≡ p.0 ∷ blurred p.1.now) }
    ensures shorter { IfSome result (λ p. length p.1.now < length value.now) }
{
    for (place, byte) in value.iter().enumerate() {
        if !is_blank(*byte) {
            return Some((byte.to_ascii_lowercase(), &value[place + 1..]));
        }
    }
    None
}

fn is_blank(byte: u8) -> bool
    ensures { result ≡ is_blank byte }
{
    byte == b' ' || byte == b'\t'
}
