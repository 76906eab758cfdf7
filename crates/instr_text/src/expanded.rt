//! The variables in values.

ghost use Rattle.std.specs.Prelude.{◌≡◌, ◌≤◌, IfSome};
ghost use Rattle.instr_text.specs.Gives.{Gives};
ghost use Rattle.instr_text.specs.Expanded.{digits_from, character_of, numbered, character, variable_of, expanded};
ghost use Rattle.std.specs.String.{string_bytes};

use crate::cut::cut;
use crate::fault::InstrRefusal;
use osgi_version::Text;
use std::alloc::Global;

/// The greatest number of a character.
const GREATEST: u32 = 0x10_FFFF;

/// How many digits the number of a character may have.
const MOST_DIGITS: usize = 7;

/// The number of decimal digits, where it isn't above that of the last character.
#[tactic(auto, unfolding(crate::specs::Expanded::digits_from))]
fn digits(text: &[u8]) -> Option<u32>
    ensures value { result ≡ digits_from 1114111 0 text.now }
    ensures most { IfSome result (λ number. number ≤ 1114111) }
{
    let mut number: u32 = 0;
    for byte in text {
        if !byte.is_ascii_digit() {
            return None;
        }
        let longer = 10 * number + u32::from(byte - b'0');
        if longer > GREATEST {
            return None;
        }
        number = longer;
    }
    Some(number)
}

/// The character with this number, which isn't NUL.
fn character_of(number: u32) -> Option<char>
    requires { number ≤ 1114111 }
    ensures { result ≡ character_of number }
{
    if number == 0 {
        return None;
    }
    char::from_u32(number)
}

/// The character with the number of these digits.
fn numbered(text: &[u8]) -> Option<char>
    ensures { result ≡ numbered text.now }
{
    if text.is_empty() || text.len() > MOST_DIGITS {
        return None;
    }
    let number = digits(text)?;
    character_of(number)
}

/// The character that the name of a variable stands for.
#[tactic(auto, unfolding(crate::specs::Expanded::character))]
fn character(name: &[u8]) -> Option<char>
    ensures { result ≡ character name.now }
{
    match name {
        [b'#', number @ ..] => numbered(number),
        _ => None,
    }
}

/// The character of the variable that the text begins with, behind its `${`, and what stands behind the variable.
#[tactic(auto, unfolding(crate::specs::Expanded::variable_of))]
fn variable_of(alloc: Global, text: &str) -> Result<(char, &str), InstrRefusal>
    ensures { Gives (λ found. (found.0, found.1.now)) result (variable_of text.now) }
{
    let Some((name, behind)) = cut(text, '}') else {
        let name = Text::from_str(alloc, text)?;
        return Err(InstrRefusal::UnknownVariable(name));
    };
    match character(name.as_bytes()) {
        Some(character) => Ok((character, behind)),
        None => {
            let name = Text::from_str(alloc, name)?;
            Err(InstrRefusal::UnknownVariable(name))
        }
    }
}

/// The text with what its variables stand for. Takes time in line with the text.
pub fn expand(alloc: Global, text: &str) -> Result<String, InstrRefusal>
    ensures { Gives (λ found. string_bytes found) result (expanded text.now) }
{
    let mut found = String::new(alloc);
    let mut rest = text;
    while let Some((before, behind)) = cut(rest, '$') {
        found.push_str(before)?;
        rest = match behind.strip_prefix('{') {
            Some(name) => {
                let (character, behind) = variable_of(alloc, name)?;
                found.push(character)?;
                behind
            }
            None => {
                found.push('$')?;
                behind
            }
        };
    }
    found.push_str(rest)?;
    Ok(found)
}
