ghost use Rattle.std.specs.Prelude.{◌≡◌, ◌≤◌, length, IfOk, false};
ghost use Rattle.std.specs.List.{take_while};
ghost use Rattle.props_reader.specs.Signs.{signs};
ghost use Rattle.props_reader.specs.KeyAndValue.{is_blank_sign, is_separator, ends_key, without_blank_signs, without_separator, key_of, value_of};

use crate::logical::{Placed, is_blank};
use osgi_version::NoMemory;
use std::alloc::Global;

/// A byte that spells a character or a part of one, with the natural line that it stands in.
#[derive(Clone, Copy, Debug)]
pub(crate) struct Sign {
    pub(crate) byte: u8,
    pub(crate) line: u64,
    /// A backslash stands before it.
    pub(crate) escaped: bool,
}

impl Sign {
    fn is_blank(&self) -> bool
        ensures { result ≡ is_blank_sign self.now }
    {
        !self.escaped && is_blank(self.byte)
    }

    fn is_separator(&self) -> bool
        ensures { result ≡ is_separator self.now }
    {
        !self.escaped && (self.byte == b'=' || self.byte == b':')
    }

    fn ends_key(&self) -> bool
        ensures { result ≡ ends_key self.now }
    {
        self.is_blank() || self.is_separator()
    }
}

/// The signs of a logical line.
#[tactic(auto, unfolding(crate::specs::Signs::signs))]
pub(crate) fn signs(alloc: Global, line: &[Placed]) -> Result<Vec<Sign>, NoMemory>
    ensures { IfOk result (λ found. found.items ≡ signs false line.now) }
{
    let mut found = Vec::new(alloc);
    let mut escaped = false;
    for placed in line {
        if !escaped && placed.byte == b'\\' {
            escaped = true;
        } else {
            found.push(Sign {
                byte: placed.byte,
                line: placed.line,
                escaped,
            })?;
            escaped = false;
        }
    }
    Ok(found)
}

fn leading_blanks(signs: &[Sign]) -> usize
    ensures value { result ≡ length (take_while is_blank_sign signs.now) }
    ensures within { result ≤ length signs.now }
{
    signs.iter().take_while(|sign| sign.is_blank()).count()
}

fn without_blanks(signs: &[Sign]) -> &[Sign]
    ensures { result.now ≡ without_blank_signs signs.now }
{
    &signs[leading_blanks(signs)..]
}

fn without_separator(signs: &[Sign]) -> &[Sign]
    ensures { result.now ≡ without_separator signs.now }
{
    match signs {
        [first, rest @ ..] if first.is_separator() => rest,
        _ => signs,
    }
}

fn key_length(signs: &[Sign]) -> usize
    ensures value { result ≡ length (key_of signs.now) }
    ensures within { result ≤ length signs.now }
{
    signs.iter().take_while(|sign| !sign.ends_key()).count()
}

/// The key and the value of a logical line.
pub(crate) fn key_and_value(signs: &[Sign]) -> (&[Sign], &[Sign])
    ensures key { result.0.now ≡ key_of signs.now }
    ensures value { result.1.now ≡ value_of signs.now }
{
    let (key, rest) = signs.split_at(key_length(signs));
    (key, without_blanks(without_separator(without_blanks(rest))))
}
