use crate::lines::push;
use crate::{arguments, files, folders, scripted, streams, trees};
use folder_rows::RowFault;
use host_adapters::HostFolder;
use osgi_version::NoMemory;
use std::fs::File;
use suite_row::Row;

/// The line that answers a row.
pub fn answer(
    rt: HostRuntime,
    folder: &mut HostFolder<HostRuntime, File>,
    row: &str,
) -> Result<Vec<u8>, NoMemory> {
    let mut line = Vec::new(rt.alloc());
    push_answer(rt, folder, row, &mut line)?;
    line.push(b'\n')?;
    Ok(line)
}

fn push_answer(
    rt: HostRuntime,
    folder: &mut HostFolder<HostRuntime, File>,
    row: &str,
    line: &mut Vec<u8>,
) -> Result<(), NoMemory> {
    if row.is_empty() || row.starts_with('#') {
        return push(line, row);
    }
    match Row::read(rt.alloc(), row.as_bytes())? {
        Some(row) => push_told(about(rt, folder, &row, line), line),
        None => push(line, "no row"),
    }
}

fn push_told(told: Result<(), RowFault>, line: &mut Vec<u8>) -> Result<(), NoMemory> {
    match told {
        Ok(()) => Ok(()),
        Err(RowFault::Spelling) => push(line, "unreadable"),
        Err(RowFault::NoMemory) => Err(NoMemory),
    }
}

fn about(
    rt: HostRuntime,
    folder: &mut HostFolder<HostRuntime, File>,
    row: &Row,
    line: &mut Vec<u8>,
) -> Result<(), RowFault> {
    match row.word(0) {
        "open" => folders::open(rt, folder, row, line),
        "other" => folders::push_other(rt, row, line),
        "put" | "look" | "kids" | "sync" => folders::push(rt.alloc(), folder, row, line),
        "tree" => trees::push_answer(rt, row, line),
        "sink" | "input" => Ok(streams::push_answer(rt, row, line)?),
        "words" => Ok(arguments::push_answer(rt.alloc(), row, line)?),
        "each" => scripted::push_each(rt.alloc(), row, line),
        "once" => scripted::push_once(rt.alloc(), row, line),
        _ => Ok(files::push_answer(rt, row, line)?),
    }
}
