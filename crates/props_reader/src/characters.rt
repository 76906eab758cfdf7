ghost use Rattle.std.specs.Prelude.{◌≡◌, ◌<◌, ◌≤◌, ◌+◌, length, IfOk, IfSome};
ghost use Rattle.props_reader.specs.Gives.{Gives};
ghost use Rattle.props_reader.specs.Characters.{hex_value, hex_digit, code_unit, low_surrogate, unicode, escape, first_character, spelled};

use crate::fault::PropsFault;
use crate::signs::Sign;
use osgi_version::Text;
use std::alloc::Global;

fn hex_value(byte: u8) -> Option<u32>
    ensures { result ≡ hex_value byte }
{
    match byte {
        b'0'..=b'9' => Some(u32::from(byte - b'0')),
        b'a'..=b'f' => Some(u32::from(byte - b'a') + 10),
        b'A'..=b'F' => Some(u32::from(byte - b'A') + 10),
        _ => None,
    }
}

fn hex_digit(sign: &Sign) -> Option<u32>
    ensures value { result ≡ hex_digit sign.now }
    ensures small { IfSome result (λ digit. digit < 16) }
{
    if sign.escaped {
        None
    } else {
        hex_value(sign.byte)
    }
}

/// The number of the four hexadecimal digits at the front.
#[tactic(auto, unfolding(crate::specs::Characters::code_unit))]
fn code_unit(signs: &[Sign]) -> Option<u32>
    ensures value { result ≡ code_unit signs.now }
    ensures small { IfSome result (λ unit. unit < 65536) }
    ensures digits { IfSome result (λ _. 4 ≤ length signs.now) }
{
    let [a, b, c, d, ..] = signs else {
        return None;
    };
    let high = 4096 * hex_digit(a)? + 256 * hex_digit(b)?;
    Some(high + 16 * hex_digit(c)? + hex_digit(d)?)
}

/// The low surrogate of an escape at the front.
#[tactic(auto, unfolding(crate::specs::Characters::low_surrogate))]
fn low_surrogate(signs: &[Sign]) -> Option<u32>
    ensures value { result ≡ low_surrogate signs.now }
    ensures low { IfSome result (λ low. (56320 ≤ low) × (low < 57344)) }
    ensures digits { IfSome result (λ _. 5 ≤ length signs.now) }
{
    match signs {
        [first, digits @ ..] if first.escaped && first.byte == b'u' => {
            code_unit(digits).filter(|unit| (0xDC00..0xE000).contains(unit))
        }
        _ => None,
    }
}

/// The character of an escape `\u` in this line whose digits are at the front, and how many signs it takes.
#[tactic(auto, unfolding(crate::specs::Characters::unicode))]
fn unicode(line: u64, signs: &[Sign]) -> Result<(char, usize), PropsFault>
    ensures value { Gives (λ found. found) result (unicode line signs.now) }
    ensures within { IfOk result (λ found. found.1 ≤ length signs.now) }
    ensures few { IfOk result (λ found. found.1 ≤ 9) }
{
    let bad = PropsFault::BadEscape { line };
    let unit = code_unit(signs).ok_or(bad)?;
    if let Some(character) = char::from_u32(unit) {
        return Ok((character, 4));
    }
    if unit >= 0xDC00 {
        return Err(bad);
    }
    let low = low_surrogate(&signs[4..]).ok_or(bad)?;
    let paired = 0x10000 + 1024 * (unit - 0xD800) + (low - 0xDC00);
    Ok((char::from_u32(paired).unwrap(), 9))
}

/// What an escape with one letter stands for.
fn escape(byte: u8) -> u8
    ensures { result ≡ escape byte }
{
    match byte {
        b't' => b'\t',
        b'n' => b'\n',
        b'r' => b'\r',
        b'f' => 0x0C,
        _ => byte,
    }
}

/// The character that the sign begins, and how many of the signs behind it belong to it.
#[tactic(auto, unfolding(crate::specs::Characters::first_character))]
fn first_character(sign: &Sign, behind: &[Sign]) -> Result<(char, usize), PropsFault>
    ensures value { Gives (λ found. found) result (first_character sign.now behind.now) }
    ensures within { IfOk result (λ found. found.1 ≤ length behind.now) }
    ensures few { IfOk result (λ found. found.1 ≤ 9) }
{
    if !sign.escaped {
        Ok((char::from(sign.byte), 0))
    } else if sign.byte == b'u' {
        unicode(sign.line, behind)
    } else {
        Ok((char::from(escape(sign.byte)), 0))
    }
}

/// The text that the signs spell.
pub(crate) fn spelled(alloc: Global, signs: &[Sign]) -> Result<Text, PropsFault>
    ensures { Gives (λ text. text) result (spelled signs.now) }
{
    let mut text = String::new(alloc);
    let mut rest = signs;
    while let Some((sign, behind)) = rest.split_first() {
        let (character, taken) = first_character(sign, behind)?;
        text.push(character)?;
        rest = &behind[taken..];
    }
    Ok(Text::from_str(alloc, text.as_str())?)
}
