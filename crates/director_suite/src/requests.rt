//! What words ask for, and which unit a root names.

use crate::writing::{push_text, push_word, words_of};
use director_words::{DEFAULT_BUDGET, Request, RequestFault, Root, read_request};
use osgi_version::{List, NoMemory, Text, Twin, Version, push_number};
use std::alloc::Global;
use suite_row::Row;

/// `words WORD..`: the request, or `usage`.
pub(crate) fn push_request(alloc: Global, row: &Row, text: &mut Vec<u8>) -> Result<(), NoMemory> {
    let words = words_of(alloc, row)?;
    match read_request(alloc, words.as_slice()) {
        Ok(request) => push_copied(&request, text),
        Err(RequestFault::Usage) => push_word(text, "usage"),
        Err(RequestFault::NoMemory) => Err(NoMemory),
    }
}

/// The request as a copy of it tells it.
fn push_copied(request: &Request, text: &mut Vec<u8>) -> Result<(), NoMemory> {
    let copied = request.copy()?;
    if copied == *request {
        push_told(&copied, text)
    } else {
        push_word(text, "another copy")
    }
}

fn push_told(request: &Request, text: &mut Vec<u8>) -> Result<(), NoMemory> {
    match request {
        Request::Install {
            profile,
            budget,
            roots,
        } => push_plan(text, "install", profile, *budget, roots),
        Request::Remove {
            profile,
            budget,
            roots,
        } => push_plan(text, "remove", profile, *budget, roots),
        Request::Update {
            profile,
            budget,
            roots,
        } => push_plan(text, "update", profile, *budget, roots),
        Request::SetEnv {
            profile,
            budget,
            pairs,
        } => push_plan(text, "set", profile, *budget, pairs),
        Request::Revert { profile, number } => push_numbered(text, "revert", profile, *number),
        Request::Show { profile } => push_named(text, "list", profile),
        Request::History { profile } => push_named(text, "history", profile),
        Request::Verify => push_word(text, "verify"),
        Request::Recover => push_word(text, "recover"),
        Request::Check => push_word(text, "check"),
        Request::Script => push_word(text, "script"),
        Request::Trial { size } => push_size(text, *size),
    }
}

fn push_plan(
    text: &mut Vec<u8>,
    command: &str,
    profile: &Text,
    budget: u32,
    words: &List<Text>,
) -> Result<(), NoMemory> {
    push_numbered(text, command, profile, budget)?;
    for word in words.items() {
        push_text(text, word)?;
    }
    Ok(())
}

fn push_numbered(
    text: &mut Vec<u8>,
    command: &str,
    profile: &Text,
    number: u32,
) -> Result<(), NoMemory> {
    push_named(text, command, profile)?;
    text.push(b' ')?;
    push_number(text, number)
}

fn push_named(text: &mut Vec<u8>, command: &str, profile: &Text) -> Result<(), NoMemory> {
    push_word(text, command)?;
    push_text(text, profile)
}

fn push_size(text: &mut Vec<u8>, size: u32) -> Result<(), NoMemory> {
    push_word(text, "trial ")?;
    push_number(text, size)
}

/// `budget`: the one that stands where no word names one.
pub(crate) fn push_default_budget(text: &mut Vec<u8>) -> Result<(), NoMemory> {
    push_number(text, DEFAULT_BUDGET)
}

/// `root WORD`: the id, and the version or `any`; or `none`.
pub(crate) fn push_root(alloc: Global, row: &Row, text: &mut Vec<u8>) -> Result<(), NoMemory> {
    match Root::read(alloc, row.field(1).bytes())? {
        Some(root) => push_read(&root, text),
        None => push_word(text, "none"),
    }
}

fn push_read(root: &Root, text: &mut Vec<u8>) -> Result<(), NoMemory> {
    push_word(text, "unit")?;
    push_text(text, &root.id)?;
    match &root.version {
        Some(version) => push_version(version, text),
        None => push_word(text, " any"),
    }
}

fn push_version(version: &Version, text: &mut Vec<u8>) -> Result<(), NoMemory> {
    text.push(b' ')?;
    push_number(text, version.major)?;
    text.push(b'.')?;
    push_number(text, version.minor)?;
    text.push(b'.')?;
    push_number(text, version.micro)?;
    push_text(text, &version.qualifier)
}
