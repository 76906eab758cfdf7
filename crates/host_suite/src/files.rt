//! What another process does to the files.

use crate::lines::{push, push_done};
use osgi_version::{NoMemory, push_field};
use std::fs;
use std::fs::Permissions;
use std::os::unix::fs::{PermissionsExt, symlink};
use suite_row::Row;

pub fn push_answer(rt: HostRuntime, row: &Row, line: &mut Vec<u8>) -> Result<(), NoMemory> {
    let at = row.word(1);
    match row.word(0) {
        "make" => push_done(line, fs::create_dir_all(&rt, at).is_ok()),
        "write" => push_done(line, fs::write(&rt, at, row.word(2)).is_ok()),
        "mode" => push_done(line, is_moded(rt, at, row.word(2))),
        "point" => push_done(line, symlink(&rt, row.word(2), at).is_ok()),
        "content" => push_content(rt, at, line),
        _ => push(line, "no question"),
    }
}

fn is_moded(rt: HostRuntime, at: &str, mode: &str) -> bool {
    match u32::from_str_radix(mode, 8) {
        Ok(mode) => fs::set_permissions(&rt, at, Permissions::from_mode(mode)).is_ok(),
        Err(_) => false,
    }
}

fn push_content(rt: HostRuntime, at: &str, line: &mut Vec<u8>) -> Result<(), NoMemory> {
    match fs::read_to_string(&rt, at) {
        Ok(content) => push_field(line, content.as_bytes()),
        Err(_) => push(line, "failed"),
    }
}
