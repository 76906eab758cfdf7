//! Values in the form that their parameter has.

ghost use Rattle.std.specs.Prelude.{◌≡◌, IfOk};
ghost use Rattle.std.specs.String.{string_bytes};
ghost use Rattle.instr_parser.specs.Opened.{opened_seen};
ghost use Rattle.instr_parser.specs.Value.{is_plain, is_true, mode_of, install_place, place_value, some_names, names_value, plain_value, flag_value, mode_value, formed};

use crate::call::{Base, Value};
use crate::form::{Fault, Form};
use crate::opened::Opened;
use crate::path::path_of;
use osgi_version::{List, NoMemory, Text};
use std::alloc::Global;

/// How many bytes a plain value may have.
const MOST_BYTES: usize = 4096;

/// A value, or what is amiss with it.
type Read = Result<Value, Fault>;

/// A place in the install folder: behind the base the value ends, or goes on with `/`.
#[tactic(auto, unfolding(crate::specs::Value::install_place))]
fn install_place(alloc: Global, rest: &str) -> Result<Read, NoMemory>
    ensures { IfOk result (λ value. value ≡ install_place rest.now) }
{
    if !rest.is_empty() && !rest.starts_with('/') {
        return Ok(Err(Fault::Outside));
    }
    match path_of(alloc, rest)? {
        Ok(names) => Ok(Ok(Value::Place {
            base: Base::Install,
            names,
        })),
        Err(fault) => Ok(Err(fault)),
    }
}

fn place_value(alloc: Global, takes_artifact: bool, opened: &Opened) -> Result<Read, NoMemory>
    ensures { IfOk result (λ value. value ≡ place_value takes_artifact opened.now.base (string_bytes opened.now.rest)) }
{
    match opened.base {
        Some(Base::Install) => install_place(alloc, opened.rest.as_str()),
        Some(Base::Artifact) if takes_artifact => Ok(Ok(Value::Place {
            base: Base::Artifact,
            names: List::new(alloc),
        })),
        _ => Ok(Err(Fault::Outside)),
    }
}

/// One name or more, with no `/` before them.
#[tactic(auto, unfolding(crate::specs::Value::some_names))]
fn some_names(alloc: Global, text: &str) -> Result<Read, NoMemory>
    ensures { IfOk result (λ value. value ≡ some_names text.now) }
{
    if text.starts_with('/') {
        return Ok(Err(Fault::Outside));
    }
    match path_of(alloc, text)? {
        Ok(names) if names.is_empty() => Ok(Err(Fault::Path)),
        Ok(names) => Ok(Ok(Value::Names(names))),
        Err(fault) => Ok(Err(fault)),
    }
}

fn names_value(alloc: Global, opened: &Opened) -> Result<Read, NoMemory>
    ensures { IfOk result (λ value. value ≡ names_value opened.now.base (string_bytes opened.now.rest)) }
{
    match opened.base {
        Some(_) => Ok(Err(Fault::Outside)),
        None => some_names(alloc, opened.rest.as_str()),
    }
}

/// 1 to 4,096 bytes without NUL.
#[tactic(auto, unfolding(crate::specs::Value::is_plain))]
fn is_plain(bytes: &[u8]) -> bool
    ensures { result ≡ is_plain bytes.now }
{
    !bytes.is_empty() && bytes.len() <= MOST_BYTES && !bytes.contains(&0)
}

/// A text that stands for itself.
fn plain_value(alloc: Global, opened: &Opened) -> Result<Read, NoMemory>
    ensures { IfOk result (λ value. value ≡ plain_value opened.now.base (string_bytes opened.now.rest)) }
{
    let text = opened.rest.as_str();
    if opened.base.is_some() || !is_plain(text.as_bytes()) {
        return Ok(Err(Fault::Form));
    }
    let text = Text::from_str(alloc, text)?;
    Ok(Ok(Value::Plain(text)))
}

/// `true`, in letters of either case.
fn is_true(bytes: &[u8]) -> bool
    ensures { result ≡ is_true bytes.now }
{
    bytes.eq_ignore_ascii_case(b"true")
}

fn flag_value(opened: &Opened) -> Value
    ensures { result ≡ flag_value opened.now.base (string_bytes opened.now.rest) }
{
    Value::Flag(opened.base.is_none() && is_true(opened.rest.as_bytes()))
}

/// The number that three octal digits write.
fn mode_of(bytes: &[u8]) -> Option<u16>
    ensures { result ≡ mode_of bytes.now }
{
    match bytes {
        [high @ b'0'..=b'7', middle @ b'0'..=b'7', low @ b'0'..=b'7'] => Some(
            64 * u16::from(high - b'0') + 8 * u16::from(middle - b'0') + u16::from(low - b'0'),
        ),
        _ => None,
    }
}

fn mode_value(opened: &Opened) -> Read
    ensures { result ≡ mode_value opened.now.base (string_bytes opened.now.rest) }
{
    if opened.base.is_some() {
        return Err(Fault::Form);
    }
    match mode_of(opened.rest.as_bytes()) {
        Some(mode) => Ok(Value::Mode(mode)),
        None => Err(Fault::Form),
    }
}

/// The value in its form.
#[tactic(auto, unfolding(crate::specs::Value::formed))]
pub(crate) fn formed(alloc: Global, form: Form, opened: &Opened) -> Result<Read, NoMemory>
    ensures { IfOk result (λ value. value ≡ formed form (opened_seen opened.now)) }
{
    match form {
        Form::Place => place_value(alloc, false, opened),
        Form::Source => place_value(alloc, true, opened),
        Form::Names => names_value(alloc, opened),
        Form::Plain => plain_value(alloc, opened),
        Form::Flag => Ok(Ok(flag_value(opened))),
        Form::Mode => Ok(mode_value(opened)),
    }
}
