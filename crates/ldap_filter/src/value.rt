//! Reading attributes and values.

ghost use Rattle.std.specs.Prelude.{◌≡◌, false, Some, IfOk};
ghost use Rattle.std.specs.Str.{IsUtf8};
ghost use Rattle.ldap_filter.specs.EnvPairs.{lowered};
ghost use Rattle.ldap_filter.specs.FilterValue.{scan, plain, pieces};
ghost use Rattle.ldap_filter.specs.FilterSteps.{test_of};

use crate::scan::Operator;
use crate::test::Test;
use osgi_version::{List, NoMemory, Text};
use std::alloc::Global;

/// The attribute with small letters for capital ones.
pub(crate) fn attribute(alloc: Global, written: &[u8]) -> Result<Text, NoMemory>
    requires { IsUtf8 written.now }
    ensures { IfOk result (λ attr. attr ≡ lowered written.now) }
{
    let Ok(written) = str::from_utf8(written) else {
        unreachable!()
    };
    let mut attr = String::from_str(alloc, written)?;
    attr.make_ascii_lowercase();
    Text::from_str(alloc, attr.as_str())
}

/// What an operator and a value that is written say.
pub(crate) fn test_of(alloc: Global, operator: Operator, value: &[u8]) -> Result<Test, NoMemory>
    requires utf8 { IsUtf8 value.now }
    requires whole { scan false value.now ≡ Some false }
    ensures { IfOk result (λ test. test ≡ test_of operator value.now) }
{
    match operator {
        Operator::Equal if value == b"*".as_slice() => Ok(Test::Present),
        Operator::Equal => Ok(Test::Equal(pieces(alloc, value)?)),
        Operator::Near => Ok(Test::Near(plain(alloc, value)?)),
        Operator::AtLeast => Ok(Test::AtLeast(plain(alloc, value)?)),
        Operator::AtMost => Ok(Test::AtMost(plain(alloc, value)?)),
    }
}

/// The value without the backslashes that make the next byte plain.
fn plain(alloc: Global, written: &[u8]) -> Result<Text, NoMemory>
    requires utf8 { IsUtf8 written.now }
    requires whole { scan false written.now ≡ Some false }
    ensures { IfOk result (λ text. text ≡ plain written.now) }
{
    let mut bytes = Vec::new(alloc);
    let mut escaped = false;
    for byte in written {
        if !escaped && *byte == b'\\' {
            escaped = true;
        } else {
            bytes.push(*byte)?;
            escaped = false;
        }
    }
    text_of(alloc, bytes.as_slice())
}

/// The pieces between the stars that stand behind no backslash.
fn pieces(alloc: Global, written: &[u8]) -> Result<List<Text>, NoMemory>
    requires utf8 { IsUtf8 written.now }
    requires whole { scan false written.now ≡ Some false }
    ensures { IfOk result (λ list. list ≡ pieces written.now) }
{
    let mut list = List::new(alloc);
    let mut piece = Vec::new(alloc);
    let mut escaped = false;
    for byte in written {
        if escaped {
            piece.push(*byte)?;
            escaped = false;
        } else if *byte == b'\\' {
            escaped = true;
        } else if *byte == b'*' {
            list.push(text_of(alloc, piece.as_slice())?)?;
            piece.clear();
        } else {
            piece.push(*byte)?;
        }
    }
    list.push(text_of(alloc, piece.as_slice())?)?;
    Ok(list)
}

fn text_of(alloc: Global, bytes: &[u8]) -> Result<Text, NoMemory>
    requires { IsUtf8 bytes.now }
    ensures { IfOk result (λ text. text ≡ bytes.now) }
{
    let Ok(text) = str::from_utf8(bytes) else {
        unreachable!()
    };
    Text::from_str(alloc, text)
}
