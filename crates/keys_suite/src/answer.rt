//! Which question a row asks.

use inf_keys::{Key, Reading, read_key, write_key};
use osgi_version::NoMemory;
use std::alloc::Global;
use std::cmp::Ordering;
use suite_row::Row;

/// The line that answers a row. A comment is copied.
pub(crate) fn answer(alloc: Global, line: &str) -> Result<String, NoMemory> {
    if line.starts_with('#') {
        return Ok(format!(in alloc; "{line}\n")?);
    }
    match Row::read(alloc, line.as_bytes())? {
        Some(row) => row_answer(alloc, &row),
        None => Ok(String::from_str(alloc, "no row\n")?),
    }
}

fn row_answer(alloc: Global, row: &Row) -> Result<String, NoMemory> {
    match row.word(0) {
        "key" => key_answer(alloc, row.field(1).bytes()),
        "order" => Ok(format!(in alloc;
            "{}\n",
            order(row.field(1).bytes(), row.field(2).bytes())
        )?),
        _ => Ok(String::from_str(alloc, "no question\n")?),
    }
}

/// What a key means, and its text as it is written again.
fn key_answer(alloc: Global, text: &[u8]) -> Result<String, NoMemory> {
    match read_key(text) {
        Reading::Meaning(key) => written(alloc, &key),
        Reading::Silent => Ok(String::from_str(alloc, "silent\n")?),
        Reading::LeftOut => Ok(String::from_str(alloc, "left out\n")?),
        Reading::Unknown => Ok(String::from_str(alloc, "unknown\n")?),
    }
}

fn written(alloc: Global, key: &Key) -> Result<String, NoMemory> {
    let text = write_key(alloc, key)?;
    Ok(format!(in alloc; "{:?} {:?} {}\n", key.owner, key.part, text.as_str())?)
}

/// How the first key stands to the second.
fn order(first: &[u8], second: &[u8]) -> &'static str {
    match (read_key(first), read_key(second)) {
        (Reading::Meaning(first), Reading::Meaning(second)) => match first.cmp(&second) {
            Ordering::Less => "less",
            Ordering::Equal => "equal",
            Ordering::Greater => "greater",
        },
        _ => "no keys",
    }
}
