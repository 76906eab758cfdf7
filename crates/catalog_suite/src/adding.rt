//! Units for a catalog.

use crate::push::push_word;
use inf_reader::units_of;
use osgi_version::{List, NoMemory, Text};
use props_reader::{PropsFault, read};
use std::alloc::Global;
use suite_row::Row;
use unit_catalog::{Catalog, CatalogFault};
use unit_model::Unit;

/// The units of a description in the folder `f`. None where it is refused.
fn read_units(alloc: Global, text: &[u8]) -> Result<Option<List<Unit>>, NoMemory> {
    match read(alloc, text) {
        Ok(pairs) => Ok(units_of(alloc, b"f", &pairs).ok()),
        Err(PropsFault::BadEscape { .. }) => Ok(None),
        Err(PropsFault::NoMemory) => Err(NoMemory),
    }
}

fn add(catalog: &mut Catalog, unit: Unit) -> Result<&'static str, NoMemory> {
    match catalog.add(unit) {
        Ok(true) => Ok(" true"),
        Ok(false) => Ok(" false"),
        Err(CatalogFault::Full) => Ok(" full"),
        Err(CatalogFault::NoMemory) => Err(NoMemory),
    }
}

fn push_each(line: &mut Vec<u8>, catalog: &mut Catalog, units: List<Unit>) -> Result<(), NoMemory> {
    for unit in units.into_vec() {
        let answer = add(catalog, unit)?;
        push_word(line, answer)?;
    }
    Ok(())
}

/// `add TEXT`: what the catalog answers to each unit of this description.
pub(crate) fn push_added(
    line: &mut Vec<u8>,
    alloc: Global,
    catalog: &mut Catalog,
    text: &Text,
) -> Result<(), NoMemory> {
    match read_units(alloc, text.bytes())? {
        Some(units) => {
            push_word(line, "added")?;
            push_each(line, catalog, units)
        }
        None => push_word(line, "refused"),
    }
}

/// The description of one unit that provides a capability and requires the next one.
fn link(alloc: Global, number: u32) -> Result<String, NoMemory> {
    let own = format!(in alloc;
        "units.0.id=u{}\nunits.0.version=1\nunits.0.provides.0.namespace=n\nunits.0.provides.0.name=c{}\n",
        number, number
    )?;
    let next = number.saturating_add(1);
    let link = format!(in alloc;
        "{}units.0.requires.0.namespace=n\nunits.0.requires.0.name=c{}\n",
        own, next
    )?;
    Ok(link)
}

/// Whether the catalog took the unit of this number.
fn add_link(alloc: Global, catalog: &mut Catalog, number: u32) -> Result<bool, NoMemory> {
    let link = link(alloc, number)?;
    match read_units(alloc, link.as_bytes())? {
        Some(units) => add_all(catalog, units),
        None => Ok(false),
    }
}

fn add_all(catalog: &mut Catalog, units: List<Unit>) -> Result<bool, NoMemory> {
    for unit in units.into_vec() {
        if add(catalog, unit)? != " true" {
            return Ok(false);
        }
    }
    Ok(true)
}

fn add_links(alloc: Global, catalog: &mut Catalog, count: u32) -> Result<bool, NoMemory> {
    for number in 0..count {
        if !add_link(alloc, catalog, number + 1)? {
            return Ok(false);
        }
    }
    Ok(true)
}

/// `chain COUNT`: adds so many units, from `u1` on, of which each provides a capability and requires that of the next.
pub(crate) fn push_chain(
    line: &mut Vec<u8>,
    alloc: Global,
    catalog: &mut Catalog,
    row: &Row,
) -> Result<(), NoMemory> {
    let count = row.word(1).parse::<u32>().unwrap_or(0);
    let added = add_links(alloc, catalog, count)?;
    push_word(line, if added { "chain" } else { "no chain" })
}
