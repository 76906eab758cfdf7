//! Two tables: the phases of the engine, and signs whose codes are neither small nor rising.

use crate::answer::Answer;
use case_table::{CaseTable, case_at, code_at, table};
use osgi_version::NoMemory;
use suite_row::Row;

#[derive(Clone, Copy, Debug, PartialEq, Eq)]
enum Phase {
    Collect,
    Configure,
    Unconfigure,
    Install,
    Uninstall,
}

macro_rules! phases {
    ($with:ident $(, $arg:expr)?) => {
        $with!(
            $($arg;)?
            "collect" = 0 => Phase::Collect,
            "configure" = 1 => Phase::Configure,
            "unconfigure" = 2 => Phase::Unconfigure,
            "install" = 3 => Phase::Install,
            "uninstall" = 4 => Phase::Uninstall,
        )
    };
}

fn phases() -> CaseTable<5> {
    phases!(table)
}

fn phase_of(name: &[u8]) -> Option<Phase> {
    let code = phases().find(name)?;
    phases!(case_at, code)
}

fn phase_name(phase: Phase) -> Option<&'static [u8]> {
    phases().name(phases!(code_at, phase))
}

fn title(phase: Phase) -> &'static str {
    match phase {
        Phase::Collect => "Collect",
        Phase::Configure => "Configure",
        Phase::Unconfigure => "Unconfigure",
        Phase::Install => "Install",
        Phase::Uninstall => "Uninstall",
    }
}

fn signs() -> CaseTable<4> {
    CaseTable::new(b"plus\n\nminus sign\nplu\n", [65535, 0, 300, 299])
}

fn only() -> CaseTable<1> {
    CaseTable::new(b"one\n", [7])
}

pub fn reply(row: &Row, answer: &mut Answer) -> Result<(), NoMemory> {
    let name = row.field(2).bytes();
    match row.word(1) {
        "phase" => put_code(phases().find(name), answer),
        "phase_name" => put_name(code(row).and_then(|code| phases().name(code)), answer),
        "phase_case" => put_case(phase_of(name), answer),
        "phase_back" => put_name(phase_of(name).and_then(phase_name), answer),
        "sign" => put_code(signs().find(name), answer),
        "sign_name" => put_name(code(row).and_then(|code| signs().name(code)), answer),
        "only" => put_code(only().find(name), answer),
        "only_name" => put_name(code(row).and_then(|code| only().name(code)), answer),
        _ => answer.word("no question"),
    }
}

fn code(row: &Row) -> Option<u16> {
    row.word(2).parse::<u16>().ok()
}

fn put_code(code: Option<u16>, answer: &mut Answer) -> Result<(), NoMemory> {
    match code {
        Some(code) => answer.number(u64::from(code)),
        None => answer.word("none"),
    }
}

fn put_name(name: Option<&'static [u8]>, answer: &mut Answer) -> Result<(), NoMemory> {
    match name {
        Some(name) => {
            answer.word("name")?;
            answer.field(name)
        }
        None => answer.word("none"),
    }
}

fn put_case(phase: Option<Phase>, answer: &mut Answer) -> Result<(), NoMemory> {
    match phase {
        Some(phase) => answer.word(title(phase)),
        None => answer.word("none"),
    }
}
