//! Units in the lines of a text.

ghost use Rattle.std.specs.Prelude.{IfOk};
ghost use Rattle.unit_text.specs.UnitReading.{HasText};

use crate::push::{push_count, push_word};
use osgi_version::NoMemory;
use std::alloc::Global;
use suite_row::Row;
use unit_model::Unit;
use unit_text::{BadLines, TakenUnit, take_unit, write_unit};

/// `lines TEXT`: how many lines the unit takes that stands first, and whether it is written as these again; or why none
/// is taken.
pub(crate) fn push_taken(line: &mut Vec<u8>, alloc: Global, row: &Row) -> Result<(), NoMemory> {
    let text = row.field(1).bytes();
    match taken(alloc, text) {
        Ok(taken) => push_unit(line, alloc, text, &taken),
        Err(fault) => push_fault(line, fault),
    }
}

fn taken(alloc: Global, text: &[u8]) -> Result<TakenUnit, BadLines>
    ensures { IfOk result (λ taken. HasText taken.unit) }
{
    let lines: Vec<&[u8]> = match text.split(|byte| *byte == b'\n').collect(alloc) {
        Ok(lines) => lines,
        Err(_) => return Err(BadLines::NoMemory),
    };
    take_unit(alloc, lines.as_slice())
}

fn push_unit(
    line: &mut Vec<u8>,
    alloc: Global,
    text: &[u8],
    taken: &TakenUnit,
) -> Result<(), NoMemory>
    requires { HasText taken.now.unit }
{
    push_word(line, "taken")?;
    push_count(line, u32::try_from(taken.lines).unwrap_or(u32::MAX))?;
    let same = is_written(alloc, text, &taken.unit)?;
    push_word(line, if same { " same" } else { " other" })
}

/// Whether the text begins with the unit's.
fn is_written(alloc: Global, text: &[u8], unit: &Unit) -> Result<bool, NoMemory>
    requires { HasText unit.now }
{
    let written = write_unit(alloc, unit)?;
    Ok(text.starts_with(written.bytes()))
}

fn push_fault(line: &mut Vec<u8>, fault: BadLines) -> Result<(), NoMemory> {
    match fault {
        BadLines::Line { at } => {
            push_word(line, "line")?;
            push_count(line, u32::try_from(at).unwrap_or(u32::MAX))
        }
        BadLines::CutOff => push_word(line, "cut off"),
        BadLines::NoMemory => Err(NoMemory),
    }
}
