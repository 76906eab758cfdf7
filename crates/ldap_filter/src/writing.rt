//! Writing filters.

ghost use Rattle.std.specs.Prelude.{◌≡◌, ◌++◌, ◌==◌, ◌||◌, map, string_bytes, encode_utf8, OnOk, IfOk};
ghost use Rattle.std.specs.List.{flat_map};
ghost use Rattle.ldap_filter.specs.FilterText.{IsFilter, DenotesFilter, filter_text, test_text, starred, starred_piece, escaped, is_special, joined};

use crate::filter::Filter;
use crate::test::Test;
use osgi_version::{NoMemory, Text};
use std::alloc::Global;

impl Filter {
    /// The canonical text: without white space outside values, and with a backslash before each backslash, `*`, `(`
    /// and `)` in a value.
    pub fn text(&self, alloc: Global) -> Result<Text, NoMemory>
        requires { IsFilter self.now }
        ensures canonical { IfOk result (λ text. text ≡ filter_text self.now) }

        // It reads back.
        ensures reads_back { IfOk result (λ text. DenotesFilter text self.now) }
    {
        let mut text = String::new(alloc);
        self.push_text(&mut text)?;
        Text::from_str(alloc, text.as_str())
    }

    #[cycle(text)]
    fn push_text(&self, text: &mut String) -> Result<(), NoMemory>
        ensures { OnOk result (string_bytes text.new ≡ string_bytes text.old ++ filter_text self.now) }
    {
        text.push('(')?;
        match self {
            Filter::And(filters) => {
                text.push('&')?;
                push_all(filters.items(), text)?;
            }
            Filter::Or(filters) => {
                text.push('|')?;
                push_all(filters.items(), text)?;
            }
            Filter::Not(filter) => {
                text.push('!')?;
                filter.get().push_text(text)?;
            }
            Filter::Item { attr, test } => {
                text.push_str(attr.as_str())?;
                test.push_text(text)?;
            }
        }
        text.push(')')?;
        Ok(())
    }
}

#[cycle(text)]
fn push_all(filters: &[Filter], text: &mut String) -> Result<(), NoMemory>
    ensures { OnOk result (string_bytes text.new ≡ string_bytes text.old ++ joined (map filter_text filters.now)) }
{
    for filter in filters {
        filter.push_text(text)?;
    }
    Ok(())
}

impl Test {
    fn push_text(&self, text: &mut String) -> Result<(), NoMemory>
        ensures { OnOk result (string_bytes text.new ≡ string_bytes text.old ++ test_text self.now) }
    {
        match self {
            Test::Equal(pieces) => {
                text.push('=')?;
                push_pieces(pieces.items(), text)
            }
            Test::Near(value) => {
                text.push_str("~=")?;
                push_escaped(value.as_str(), text)
            }
            Test::AtLeast(value) => {
                text.push_str(">=")?;
                push_escaped(value.as_str(), text)
            }
            Test::AtMost(value) => {
                text.push_str("<=")?;
                push_escaped(value.as_str(), text)
            }
            Test::Present => {
                text.push_str("=*")?;
                Ok(())
            }
        }
    }
}

/// Adds the pieces with `*` between them.
fn push_pieces(pieces: &[Text], text: &mut String) -> Result<(), NoMemory>
    ensures { OnOk result (string_bytes text.new ≡ string_bytes text.old ++ starred pieces.now) }
{
    match pieces {
        [] => Ok(()),
        [first, others @ ..] => {
            push_escaped(first.as_str(), text)?;
            push_others(others, text)
        }
    }
}

/// Adds each piece behind a `*`.
fn push_others(pieces: &[Text], text: &mut String) -> Result<(), NoMemory>
    ensures { OnOk result (string_bytes text.new ≡ string_bytes text.old ++ flat_map starred_piece pieces.now) }
{
    for piece in pieces {
        text.push('*')?;
        push_escaped(piece.as_str(), text)?;
    }
    Ok(())
}

fn push_escaped(value: &str, text: &mut String) -> Result<(), NoMemory>
    ensures { OnOk result (string_bytes text.new ≡ string_bytes text.old ++ escaped value.now) }
{
    for character in value.chars() {
        push_character(character, text)?;
    }
    Ok(())
}

fn push_character(character: char, text: &mut String) -> Result<(), NoMemory>
    ensures { OnOk result (string_bytes text.new ≡ string_bytes text.old ++ escaped (encode_utf8 character)) }
{
    if !is_escaped(character) {
        text.push(character)?;
        return Ok(());
    }
    text.push('\\')?;
    text.push(character)?;
    Ok(())
}

/// Whether a backslash stands before the character.
fn is_escaped(character: char) -> bool
    ensures { result ≡ is_special character || character == 42 }
{
    matches!(character, '\\' | '*' | '(' | ')')
}
