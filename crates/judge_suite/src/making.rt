//! Units for a scene.

use inf_reader::units_of;
use osgi_version::{List, NoMemory};
use props_reader::{PropsFault, read};
use std::alloc::Global;
use unit_model::Unit;

/// The units of a description in the folder `f`. None where it is refused.
pub(crate) fn read_units(alloc: Global, text: &[u8]) -> Result<Option<List<Unit>>, NoMemory> {
    match read(alloc, text) {
        Ok(pairs) => Ok(units_of(alloc, b"f", &pairs).ok()),
        Err(PropsFault::BadEscape { .. }) => Ok(None),
        Err(PropsFault::NoMemory) => Err(NoMemory),
    }
}

/// The description of one unit that provides a capability and requires the next one, which it may have to go without.
fn link(alloc: Global, number: u32) -> Result<String, NoMemory> {
    let own = format!(in alloc;
        "units.0.id=u{}\nunits.0.version=1\nunits.0.provides.0.namespace=n\nunits.0.provides.0.name=c{}\n",
        number, number
    )?;
    let next = number.saturating_add(1);
    let link = format!(in alloc;
        "{}units.0.requires.0.namespace=n\nunits.0.requires.0.name=c{}\nunits.0.requires.0.min=0\n",
        own, next
    )?;
    Ok(link)
}

fn push_link(alloc: Global, units: &mut List<Unit>, number: u32) -> Result<(), NoMemory> {
    let link = link(alloc, number)?;
    match read_units(alloc, link.as_bytes())? {
        Some(read) => push_all(units, read),
        None => Ok(()),
    }
}

fn push_all(units: &mut List<Unit>, more: List<Unit>) -> Result<(), NoMemory> {
    for unit in more.into_vec() {
        units.push(unit)?;
    }
    Ok(())
}

/// So many units, from `u100001` on, of which each provides a capability and leads to the unit that provides the next.
pub(crate) fn chain(alloc: Global, count: u32) -> Result<List<Unit>, NoMemory> {
    let mut units = List::new(alloc);
    for number in 0..count {
        push_link(alloc, &mut units, number.saturating_add(100_001))?;
    }
    Ok(units)
}
