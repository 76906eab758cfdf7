//! The units of a p2.inf.

ghost use Rattle.std.specs.Prelude.{◌≡◌, []};
ghost use Rattle.std.specs.Option.{option_map};
ghost use Rattle.inf_values.specs.Readings.{Readings, ReadsAll};
ghost use Rattle.inf_reader.specs.Gives.{Gives};
ghost use Rattle.inf_reader.specs.InForm.{InForm};
ghost use Rattle.inf_reader.specs.TableAt.{at};
ghost use Rattle.inf_reader.specs.UnitsOf.{whole, unit_of, units_from, units_of};

use crate::entries::entries_of;
use crate::fault::InfRefusal;
use crate::rows::{Lists, lists_of};
use crate::table::{Table, table_of};
use crate::unit_parts::{Head, head_of, name_of, phases_of};
use inf_values::{NameSet, host_of};
use osgi_version::List;
use props_reader::Pairs;
use std::alloc::Global;
use unit_model::{PhaseText, Unit, UnitName};

/// The unit of an owner.
#[tactic(auto, unfolding(crate::specs::UnitsOf::unit_of))]
fn unit_of(host: Option<&UnitName>, table: &Table, owner: u32) -> Result<Unit, InfRefusal>
    ensures { Gives (λ unit. unit) result (unit_of (option_map (λ h. h.now) host.entry) (at table.now) table.now.places.keys owner) }
{
    let name = name_of(host, table, owner)?;
    let head = head_of(table, owner, &name)?;
    let lists = lists_of(table, owner, &name)?;
    let phases = phases_of(table, owner)?;
    Ok(whole(name, head, lists, phases))
}

fn whole(name: UnitName, head: Head, lists: Lists, phases: List<PhaseText>) -> Unit
    ensures { result ≡ whole name head lists phases }
{
    let Head {
        singleton,
        filter,
        update,
        touchpoint,
    } = head;
    let Lists {
        properties,
        provided,
        required,
        artifacts,
    } = lists;
    Unit {
        name,
        singleton,
        filter,
        update,
        touchpoint,
        properties,
        provided,
        required,
        artifacts,
        phases,
    }
}

/// The units of these owners, each with a name of its own.
fn units_from(
    alloc: Global,
    host: Option<&UnitName>,
    table: &Table,
    owners: &[u32],
) -> Result<List<Unit>, InfRefusal>
    ensures { Gives (λ units. units) result (units_from (option_map (λ h. h.now) host.entry) (at table.now) table.now.places.keys [] owners.now) }
{
    let mut units = List::new(alloc);
    let mut names = NameSet::new(alloc);
    for owner in owners {
        let unit = unit_of(host, table, *owner)?;
        let new = names.add(alloc, &unit.name)?;
        if !new {
            return Err(InfRefusal::Duplicate(unit.name));
        }
        units.push(unit)?;
    }
    Ok(units)
}

/// The units that the pairs describe: first the host, where the folder's name gives one and some pair speaks of it,
/// and then the numbered units, rising. A refusal is the first: first of the pairs in their order, and then unit by
/// unit. Takes time in line with the pairs, but for the look-ups of keys and names, which are logarithmic.
pub fn units_of(alloc: Global, folder: &[u8], pairs: &Pairs) -> Result<List<Unit>, InfRefusal>
    ensures exact { (read : Readings) → ReadsAll read → Gives (λ units. units) result (units_of read folder.now pairs.now) }
    ensures form { InForm result }
{
    let host = host_of(alloc, folder)?;
    let entries = entries_of(alloc, host.as_ref(), pairs)?;
    let table = table_of(alloc, &entries)?;
    let owners = table.owners()?;
    units_from(alloc, host.as_ref(), &table, &owners)
}
