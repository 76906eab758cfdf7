//! The codes of statuses, and their lines: `CODE short [LINE] long [LINE]`.

ghost use Rattle.director_words.specs.SourceWhy.{CanPrintRefusal};
ghost use Rattle.director_words.specs.Status.{CanPrint};

use crate::lines::small_number;
use crate::writing::{push_lines, push_word};
use director_words::{LimitName, SourceWhy, Status, lines, short_line};
use folder_core::After;
use inf_reader::InfRefusal;
use osgi_version::{NoMemory, Text, Twin, Version, VersionFault, push_number};
use std::alloc::Global;
use suite_row::Row;
use unit_model::UnitName;

/// `status NAME ..`: what it tells.
pub(crate) fn push_status_of(alloc: Global, row: &Row, text: &mut Vec<u8>) -> Result<(), NoMemory> {
    match row.word(1) {
        "folder-fault" => push_folder_fault(alloc, row.word(2), text),
        "no-memory" => push_no_memory(alloc, row.word(2), text),
        "sink-fault" => push_sink_fault(alloc, row, text),
        "unknown" => push_unknown(alloc, row.field(2), text),
        "limit" => push_limit(alloc, row, text),
        "line" => push_refused_line(alloc, row, text),
        "key" => push_refused_key(alloc, row, text),
        "missing" => push_missing(alloc, row, text),
        "twice" => push_twice(alloc, row, text),
        name => push_plain(alloc, name, text),
    }
}

fn push_status(alloc: Global, status: &Status, text: &mut Vec<u8>) -> Result<(), NoMemory>
    requires { CanPrint status.now }
{
    push_number(text, u32::from(status.code()))?;
    push_word(text, " short")?;
    push_lines(text, short_line(status))?;
    push_word(text, " long")?;
    let long = lines(alloc, status)?;
    push_lines(text, long.items())
}

fn push_plain(alloc: Global, name: &str, text: &mut Vec<u8>) -> Result<(), NoMemory> {
    match name {
        "done" => push_status(alloc, &Status::Done, text),
        "not-built" => push_status(alloc, &Status::NotBuilt, text),
        "usage" => push_status(alloc, &Status::Usage, text),
        "source-fault" => push_status(alloc, &Status::SourceFault, text),
        _ => push_word(text, "no question"),
    }
}

fn after_of(word: &str) -> After {
    match word {
        "recover" => After::Recover,
        "either" => After::Either,
        _ => After::Unchanged,
    }
}

fn push_folder_fault(alloc: Global, after: &str, text: &mut Vec<u8>) -> Result<(), NoMemory> {
    push_status(alloc, &Status::FolderFault(after_of(after)), text)
}

fn push_no_memory(alloc: Global, after: &str, text: &mut Vec<u8>) -> Result<(), NoMemory> {
    push_status(alloc, &Status::NoMemory(after_of(after)), text)
}

fn push_sink_fault(alloc: Global, row: &Row, text: &mut Vec<u8>) -> Result<(), NoMemory> {
    let committed = row.word(2).parse::<u32>().ok();
    push_status(alloc, &Status::SinkFault { committed }, text)
}

fn push_unknown(alloc: Global, word: &Text, text: &mut Vec<u8>) -> Result<(), NoMemory> {
    let status = Status::Unknown(word.copy()?);
    push_status(alloc, &status, text)
}

fn limit_of(word: &str) -> LimitName {
    match word {
        "Units" => LimitName::Units,
        "Requirements" => LimitName::Requirements,
        "FileBytes" => LimitName::FileBytes,
        "InfBytes" => LimitName::InfBytes,
        _ => LimitName::SourceBytes,
    }
}

fn push_limit(alloc: Global, row: &Row, text: &mut Vec<u8>) -> Result<(), NoMemory> {
    let what = limit_of(row.word(2));
    let most = row.number(3).unwrap_or(0);
    push_status(alloc, &Status::Limit { what, most }, text)
}

/// `status line FOLDER NUMBER`.
fn push_refused_line(alloc: Global, row: &Row, text: &mut Vec<u8>) -> Result<(), NoMemory> {
    let why = SourceWhy::Line(row.number(3).unwrap_or(0));
    let folder = row.field(2).copy()?;
    let status = Status::SourceRefused { folder, why };
    push_status(alloc, &status, text)
}

/// `status missing FOLDER NUMBER`.
fn push_missing(alloc: Global, row: &Row, text: &mut Vec<u8>) -> Result<(), NoMemory> {
    let why = SourceWhy::Inf(InfRefusal::MissingId(small_number(row, 3)));
    let folder = row.field(2).copy()?;
    let status = Status::SourceRefused { folder, why };
    push_status(alloc, &status, text)
}

/// `status key FOLDER WHY KEY`.
fn push_refused_key(alloc: Global, row: &Row, text: &mut Vec<u8>) -> Result<(), NoMemory> {
    let folder = row.field(2).copy()?;
    let key = row.field(4).copy()?;
    match row.word(3) {
        "UnknownKey" => push_refusal(alloc, folder, InfRefusal::UnknownKey(key), text),
        "LeftOutKey" => push_refusal(alloc, folder, InfRefusal::LeftOutKey(key), text),
        "NoHost" => push_refusal(alloc, folder, InfRefusal::NoHost(key), text),
        "BadValue" => push_refusal(alloc, folder, InfRefusal::BadValue(key), text),
        _ => push_word(text, "no question"),
    }
}

fn push_refusal(
    alloc: Global,
    folder: Text,
    refusal: InfRefusal,
    text: &mut Vec<u8>,
) -> Result<(), NoMemory>
    requires { CanPrintRefusal refusal }
{
    let why = SourceWhy::Inf(refusal);
    push_status(alloc, &Status::SourceRefused { folder, why }, text)
}

/// `status twice FOLDER ID VERSION`.
fn push_twice(alloc: Global, row: &Row, text: &mut Vec<u8>) -> Result<(), NoMemory> {
    let folder = row.field(2).copy()?;
    let id = row.field(3).copy()?;
    match Version::parse(alloc, row.field(4).bytes()) {
        Ok(version) => {
            let refusal = InfRefusal::Duplicate(UnitName { id, version });
            push_refusal(alloc, folder, refusal, text)
        }
        Err(VersionFault::NoMemory) => Err(NoMemory),
        Err(_) => push_word(text, "no version"),
    }
}
