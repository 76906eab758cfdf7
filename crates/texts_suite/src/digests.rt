use crate::answer::Answer;
use crate::bytes::bytes_of;
use artifact_pool::{DigestFault, Digests, read_digests};
use folder_core::Path;
use osgi_version::{NoMemory, Text};
use std::alloc::Global;
use suite_row::Row;

pub fn reply(alloc: Global, row: &Row, answer: &mut Answer) -> Result<(), NoMemory> {
    let bytes = bytes_of(alloc, row.field(2))?;
    match read_digests(alloc, bytes.as_slice()) {
        Ok(digests) => told(alloc, &digests, row, answer),
        Err(DigestFault::BadLine { line }) => {
            answer.word("bad_line")?;
            answer.number(line)
        }
        Err(DigestFault::NoMemory) => Err(NoMemory),
    }
}

fn told(alloc: Global, digests: &Digests, row: &Row, answer: &mut Answer) -> Result<(), NoMemory> {
    match row.word(1) {
        "read" => answer.word("read"),
        "of" => digest_of(alloc, digests, row.field(3), answer),
        _ => answer.word("no question"),
    }
}

/// The digest of the file at a path, in lower-case digits.
fn digest_of(
    alloc: Global,
    digests: &Digests,
    path: &Text,
    answer: &mut Answer,
) -> Result<(), NoMemory> {
    let Some(path) = Path::read(alloc, path)? else {
        return answer.word("no path");
    };
    match digests.get(&path) {
        Some(digest) => {
            let digits = hex::encode(alloc, digest)?;
            answer.word(digits.as_str())
        }
        None => answer.word("none"),
    }
}
