//! The forms of names, and sets of them.

use crate::push::{push_truth, push_word};
use inf_reader::NameSet;
use osgi_version::{NoMemory, Text, Twin, Version, VersionFault};
use std::alloc::Global;
use suite_row::Row;
use unit_model::{UnitName, is_profile, is_unit_id};

/// `id TEXT`: whether it may name a unit.
pub(crate) fn push_id(line: &mut Vec<u8>, row: &Row) -> Result<(), NoMemory> {
    push_truth(line, is_unit_id(row.field(1).bytes()))
}

/// `profile TEXT`: whether it may name a profile.
pub(crate) fn push_profile(line: &mut Vec<u8>, row: &Row) -> Result<(), NoMemory> {
    push_truth(line, is_profile(row.field(1).bytes()))
}

/// The name of an id and a version's text. None where that is no version.
pub(crate) fn read_name(
    alloc: Global,
    id: &Text,
    version: &Text,
) -> Result<Option<UnitName>, NoMemory> {
    match Version::parse(alloc, version.bytes()) {
        Ok(version) => Ok(Some(named(id, version)?)),
        Err(VersionFault::Bad { .. } | VersionFault::Raw) => Ok(None),
        Err(VersionFault::NoMemory) => Err(NoMemory),
    }
}

fn named(id: &Text, version: Version) -> Result<UnitName, NoMemory> {
    let id = id.copy()?;
    Ok(UnitName { id, version })
}

fn push_added(
    line: &mut Vec<u8>,
    alloc: Global,
    names: &mut NameSet,
    name: Option<UnitName>,
) -> Result<(), NoMemory> {
    match name {
        Some(name) => {
            let new = names.add(alloc, &name)?;
            push_word(line, if new { " new" } else { " known" })
        }
        None => push_word(line, " bad"),
    }
}

/// `new ID VERSION ..`: whether each name is new in the set of those before it.
pub(crate) fn push_new(line: &mut Vec<u8>, alloc: Global, row: &Row) -> Result<(), NoMemory> {
    let mut names = NameSet::new(alloc);
    push_word(line, "names")?;
    for place in (1..row.len()).step_by(2) {
        let name = read_name(alloc, row.field(place), row.field(place + 1))?;
        push_added(line, alloc, &mut names, name)?;
    }
    Ok(())
}
