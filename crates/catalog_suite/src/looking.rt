//! What is asked of a catalog.

use crate::push::{push_found, push_numbers, push_word};
use crate::scene::Scene;
use osgi_version::{NoMemory, Range, Text, Twin, Version, VersionFault};
use std::alloc::Global;
use suite_row::Row;
use unit_catalog::Catalog;
use unit_model::{Required, UnitName};

/// The name of an id and a version's text. None where that is no version.
pub(crate) fn name(alloc: Global, id: &Text, version: &Text) -> Result<Option<UnitName>, NoMemory> {
    match Version::parse(alloc, version.bytes()) {
        Ok(version) => Ok(Some(named(id, version)?)),
        Err(VersionFault::Bad { .. } | VersionFault::Raw) => Ok(None),
        Err(VersionFault::NoMemory) => Err(NoMemory),
    }
}

fn named(id: &Text, version: Version) -> Result<UnitName, NoMemory> {
    let id = id.copy()?;
    Ok(UnitName { id, version })
}

/// `find ID VERSION`: the number of the unit of this name.
pub(crate) fn push_find(
    line: &mut Vec<u8>,
    alloc: Global,
    catalog: &Catalog,
    row: &Row,
) -> Result<(), NoMemory> {
    match name(alloc, row.field(1), row.field(2))? {
        Some(name) => push_found(line, catalog.find(&name)),
        None => push_word(line, "no name"),
    }
}

/// `greatest ID`: the number of the greatest version that applies.
pub(crate) fn push_greatest(line: &mut Vec<u8>, scene: &Scene, row: &Row) -> Result<(), NoMemory> {
    push_found(
        line,
        scene.catalog.greatest(row.field(1).bytes(), &scene.env),
    )
}

/// `updater ID VERSION`: the number of the unit that updates the one of this name.
pub(crate) fn push_updater(
    line: &mut Vec<u8>,
    alloc: Global,
    scene: &Scene,
    row: &Row,
) -> Result<(), NoMemory> {
    match name(alloc, row.field(1), row.field(2))? {
        Some(name) => push_found(line, scene.catalog.updater(&name, &scene.env)),
        None => push_word(line, "no name"),
    }
}

fn push_matching(
    line: &mut Vec<u8>,
    catalog: &Catalog,
    required: &Required,
) -> Result<(), NoMemory> {
    let providers = catalog.providers(required)?;
    push_word(line, "providers")?;
    push_numbers(line, providers.items())
}

fn required<'a>(catalog: &'a Catalog, row: &Row) -> Option<&'a Required> {
    let unit = catalog.unit(row.word(1).parse::<u32>().ok()?)?;
    unit.required.get(row.word(2).parse::<usize>().ok()?)
}

/// `providers UNIT ROW`: the numbers of the units that match this requirement.
pub(crate) fn push_providers(
    line: &mut Vec<u8>,
    catalog: &Catalog,
    row: &Row,
) -> Result<(), NoMemory> {
    match required(catalog, row) {
        Some(required) => push_matching(line, catalog, required),
        None => push_word(line, "no requirement"),
    }
}

/// A requirement on a capability in a range.
fn on(namespace: Text, name: Text, range: Range) -> Required {
    Required {
        namespace,
        name,
        range,
        filter: None,
        min: 1,
        max: u32::MAX,
        greedy: true,
    }
}

fn sought(alloc: Global, row: &Row) -> Result<Option<Required>, NoMemory> {
    match Range::parse(alloc, row.field(3).bytes()) {
        Ok(range) => Ok(Some(sought_in(row, range)?)),
        Err(VersionFault::Bad { .. } | VersionFault::Raw) => Ok(None),
        Err(VersionFault::NoMemory) => Err(NoMemory),
    }
}

fn sought_in(row: &Row, range: Range) -> Result<Required, NoMemory> {
    let namespace = row.field(1).copy()?;
    let name = row.field(2).copy()?;
    Ok(on(namespace, name, range))
}

/// `seek NAMESPACE NAME RANGE`: the numbers of the units that provide the capability.
pub(crate) fn push_sought(
    line: &mut Vec<u8>,
    alloc: Global,
    catalog: &Catalog,
    row: &Row,
) -> Result<(), NoMemory> {
    match sought(alloc, row)? {
        Some(required) => push_matching(line, catalog, &required),
        None => push_word(line, "no range"),
    }
}
