//! Calls and refusals as they are printed.

use crate::push::{push_named, push_truth, push_wide, push_word};
use folder_core::Name;
use instr_parser::{Base, Call, InstrRefusal, Param, Value};
use osgi_version::{NoMemory, Text};

/// Each name behind a `/`.
fn push_names(line: &mut Vec<u8>, word: &str, names: &[Name]) -> Result<(), NoMemory> {
    push_word(line, word)?;
    for name in names {
        push_named(line, "/", name.text())?;
    }
    Ok(())
}

fn push_value(line: &mut Vec<u8>, value: &Value) -> Result<(), NoMemory> {
    match value {
        Value::Place { base, names } => match base {
            Base::Install => push_names(line, "install", names.items()),
            Base::Artifact => push_names(line, "artifact", names.items()),
        },
        Value::Names(names) => push_names(line, "names", names.items()),
        Value::Plain(text) => push_named(line, "plain:", text),
        Value::Flag(flag) => push_truth(line, *flag),
        Value::Mode(mode) => push_wide(line, u64::from(*mode)),
    }
}

/// ` CODE=VALUE`
fn push_param(line: &mut Vec<u8>, param: &Param) -> Result<(), NoMemory> {
    line.push(b' ')?;
    push_wide(line, u64::from(param.code))?;
    line.push(b'=')?;
    push_value(line, &param.value)
}

/// ` call KIND` and the parameters
fn push_call(line: &mut Vec<u8>, call: &Call) -> Result<(), NoMemory> {
    push_word(line, " call ")?;
    push_wide(line, u64::from(call.kind.0))?;
    for param in call.params.items() {
        push_param(line, param)?;
    }
    Ok(())
}

pub(crate) fn push_calls(line: &mut Vec<u8>, calls: &[Call]) -> Result<(), NoMemory> {
    push_wide(line, calls.len() as u64)?;
    for call in calls {
        push_call(line, call)?;
    }
    Ok(())
}

/// What the refusal names, where it names a text.
fn named(refusal: &InstrRefusal) -> Option<&Text> {
    match refusal {
        InstrRefusal::UnknownAction(text)
        | InstrRefusal::LeftOutAction(text)
        | InstrRefusal::MissingParam(text)
        | InstrRefusal::UnknownParam(text)
        | InstrRefusal::RepeatedParam(text)
        | InstrRefusal::BadParam(text)
        | InstrRefusal::UnknownVariable(text)
        | InstrRefusal::OutsideFolder(text)
        | InstrRefusal::BadPath(text) => Some(text),
        InstrRefusal::BadSyntax { .. } | InstrRefusal::NoMemory => None,
    }
}

/// The refusal's word, and the place or the text.
pub(crate) fn push_refusal(line: &mut Vec<u8>, refusal: &InstrRefusal) -> Result<(), NoMemory> {
    line.extend_from_slice(refusal.word())?;
    if let InstrRefusal::BadSyntax { at } = refusal {
        push_word(line, " ")?;
        push_wide(line, *at)?;
    }
    match named(refusal) {
        Some(text) => push_named(line, " ", text),
        None => Ok(()),
    }
}
