//! The rows of a unit.

ghost use Rattle.std.specs.Prelude.{◌≡◌, ℕ, Result, codes, IfOk, if◌then◌else◌};
ghost use Rattle.std.specs.List.{list_any};
ghost use Rattle.osgi_version.specs.declared.version.Version.{Version};
ghost use Rattle.inf_reader.specs.declared.fault.InfRefusal.{InfRefusal};
ghost use Rattle.inf_reader.specs.Gives.{Gives};
ghost use Rattle.inf_reader.specs.Parts.{At};
ghost use Rattle.inf_reader.specs.TableAt.{at};
ghost use Rattle.inf_reader.specs.Placing.{rows_in};
ghost use Rattle.inf_reader.specs.UnitParts.{property_key, provided_key, required_key, artifact_key, traverse, property_row, provided_row, provided_of, is_of_units, with_itself, required_row, required_of, artifact_row, lists_of};

use crate::fault::InfRefusal;
use crate::table::Table;
use inf_keys::{ArtifactField, Key, Part, PropertyField, ProvidedField, RequiredField};
use inf_values::{copy_filter, copy_range_or_any, copy_version_or, key_at};
use osgi_version::{List, NoMemory, Text, Twin, Version};
use std::alloc::Global;
use unit_model::{ArtifactKey, Property, Provided, Required, UnitName};

/// The namespace in which units provide themselves.
const UNITS: &str = "org.eclipse.equinox.p2.iu";

/// The most requirements of a unit.
const MOST_REQUIREMENTS: usize = 1024;

/// The greatest number of providers that a requirement may ask for.
const GREATEST: u32 = 2_147_483_647;

/// What a row of one of a unit's lists is read into.
pub(crate) trait Row: Sized + Drop {
    /// The row of this number of an owner, where the unit has this version.
    ghost described: { At → ℕ → Version → ℕ → Result Self InfRefusal };

    fn read(table: &Table, owner: u32, unit: &Version, row: u32) -> Result<Self, InfRefusal>
        ensures { Gives (λ made. made) result (described (at table.now) owner unit.now row) };
}

fn property_key(owner: u32, row: u32, field: PropertyField) -> Key
    ensures { result ≡ property_key owner row field }
{
    key_at(owner, Part::Property(row, field))
}

impl Row for Property {
    ghost described = { λ at owner unit number. property_row at owner number };

    #[tactic(auto, unfolding(crate::specs::UnitParts::property_row))]
    fn read(table: &Table, owner: u32, _unit: &Version, row: u32) -> Result<Property, InfRefusal> {
        let name = table.needed_text(property_key(owner, row, PropertyField::Name))?;
        let value = table.needed_text(property_key(owner, row, PropertyField::Value))?;
        let name = name.copy()?;
        let value = value.copy()?;
        Ok(Property { name, value })
    }
}

fn provided_key(owner: u32, row: u32, field: ProvidedField) -> Key
    ensures { result ≡ provided_key owner row field }
{
    key_at(owner, Part::Provided(row, field))
}

impl Row for Provided {
    ghost described = { provided_row };

    #[tactic(auto, unfolding(crate::specs::UnitParts::provided_row))]
    fn read(table: &Table, owner: u32, unit: &Version, row: u32) -> Result<Provided, InfRefusal> {
        let namespace = table.needed_text(provided_key(owner, row, ProvidedField::Namespace))?;
        let name = table.needed_text(provided_key(owner, row, ProvidedField::Name))?;
        let version = table.version(provided_key(owner, row, ProvidedField::Version))?;
        let namespace = namespace.copy()?;
        let name = name.copy()?;
        let version = copy_version_or(version, unit)?;
        Ok(Provided {
            namespace,
            name,
            version,
        })
    }
}

/// How many providers are asked for.
fn least(optional: bool, min: u32) -> u32
    ensures { result ≡ (if optional then 0 else min) }
{
    if optional { 0 } else { min }
}

fn required_key(owner: u32, row: u32, field: RequiredField) -> Key
    ensures { result ≡ required_key owner row field }
{
    key_at(owner, Part::Required(row, field))
}

impl Row for Required {
    ghost described = { λ at owner unit number. required_row at owner number };

    #[tactic(auto, unfolding(crate::specs::UnitParts::required_row))]
    fn read(table: &Table, owner: u32, _unit: &Version, row: u32) -> Result<Required, InfRefusal> {
        let namespace = table.needed_text(required_key(owner, row, RequiredField::Namespace))?;
        let name = table.needed_text(required_key(owner, row, RequiredField::Name))?;
        let range = table.range(required_key(owner, row, RequiredField::Range))?;
        let filter = table.filter(required_key(owner, row, RequiredField::Filter))?;
        let min = table.number_or(required_key(owner, row, RequiredField::Min), 1)?;
        let max = table.number_or(required_key(owner, row, RequiredField::Max), GREATEST)?;
        let optional = table.truth_or(required_key(owner, row, RequiredField::Optional), false);
        let greedy = table.truth_or(required_key(owner, row, RequiredField::Greedy), true);
        let namespace = namespace.copy()?;
        let name = name.copy()?;
        let range = copy_range_or_any(table.alloc, range)?;
        let filter = copy_filter(filter)?;
        Ok(Required {
            namespace,
            name,
            range,
            filter,
            min: least(optional, min),
            max,
            greedy,
        })
    }
}

fn artifact_key(owner: u32, row: u32, field: ArtifactField) -> Key
    ensures { result ≡ artifact_key owner row field }
{
    key_at(owner, Part::Artifact(row, field))
}

impl Row for ArtifactKey {
    ghost described = { λ at owner unit number. artifact_row at owner number };

    #[tactic(auto, unfolding(crate::specs::UnitParts::artifact_row))]
    fn read(
        table: &Table,
        owner: u32,
        _unit: &Version,
        row: u32,
    ) -> Result<ArtifactKey, InfRefusal> {
        let classifier = table.needed_id(artifact_key(owner, row, ArtifactField::Classifier))?;
        let id = table.needed_id(artifact_key(owner, row, ArtifactField::Id))?;
        let version = table.needed_version(artifact_key(owner, row, ArtifactField::Version))?;
        let classifier = classifier.copy()?;
        let id = id.copy()?;
        let version = version.copy()?;
        Ok(ArtifactKey {
            classifier,
            id,
            version,
        })
    }
}

/// What these rows of an owner are read into.
fn read_rows<R: Row>(
    table: &Table,
    owner: u32,
    unit: &Version,
    rows: &[u32],
) -> Result<List<R>, InfRefusal>
    ensures { Gives (λ list. list) result (traverse (R.described (at table.now) owner unit.now) rows.now) }
{
    let mut list = List::new(table.alloc);
    for row in rows {
        let made = R::read(table, owner, unit, *row)?;
        list.push(made)?;
    }
    Ok(list)
}

fn is_of_units(provided: &Provided) -> bool
    ensures { result ≡ is_of_units provided.now }
{
    provided.namespace.as_str() == UNITS
}

fn has_units(provided: &[Provided]) -> bool
    ensures { result ≡ list_any is_of_units provided.now }
{
    provided.iter().any(is_of_units)
}

/// The unit's own capability.
fn itself(alloc: Global, name: &UnitName) -> Result<Provided, NoMemory>
    ensures { IfOk result (λ own. own ≡ record { namespace = codes "org.eclipse.equinox.p2.iu"; name = name.now.id; version = name.now.version }) }
{
    let namespace = Text::from_str(alloc, UNITS)?;
    let id = name.id.copy()?;
    let version = name.version.copy()?;
    Ok(Provided {
        namespace,
        name: id,
        version,
    })
}

/// The capabilities, with the unit itself at the end where none stands in the namespace of units.
fn with_itself(
    alloc: Global,
    name: &UnitName,
    mut provided: List<Provided>,
) -> Result<List<Provided>, NoMemory>
    ensures { IfOk result (λ list. list ≡ with_itself name.now provided) }
{
    if has_units(provided.items()) {
        return Ok(provided);
    }
    let own = itself(alloc, name)?;
    provided.push(own)?;
    Ok(provided)
}

/// The provided capabilities of a unit.
#[tactic(auto, unfolding(crate::specs::UnitParts::provided_of))]
fn provided_of(table: &Table, owner: u32, name: &UnitName) -> Result<List<Provided>, InfRefusal>
    ensures { Gives (λ list. list) result (provided_of (at table.now) owner name.now (rows_in table.now.places.keys owner 2)) }
{
    let rows = table.rows(owner, 2)?;
    let provided = read_rows(table, owner, &name.version, &rows)?;
    let list = with_itself(table.alloc, name, provided)?;
    Ok(list)
}

/// The requirements of a unit, which may not be too many.
#[tactic(auto, unfolding(crate::specs::UnitParts::required_of))]
fn required_of(table: &Table, owner: u32, name: &UnitName) -> Result<List<Required>, InfRefusal>
    ensures { Gives (λ list. list) result (required_of (at table.now) owner name.now (rows_in table.now.places.keys owner 3)) }
{
    let rows = table.rows(owner, 3)?;
    if rows.len() > MOST_REQUIREMENTS {
        return Err(InfRefusal::TooManyRequirements(name.copy()?));
    }
    read_rows(table, owner, &name.version, &rows)
}

fn properties_of(table: &Table, owner: u32, unit: &Version) -> Result<List<Property>, InfRefusal>
    ensures { Gives (λ list. list) result (traverse (property_row (at table.now) owner) (rows_in table.now.places.keys owner 1)) }
{
    let rows = table.rows(owner, 1)?;
    read_rows(table, owner, unit, &rows)
}

fn artifacts_of(table: &Table, owner: u32, unit: &Version) -> Result<List<ArtifactKey>, InfRefusal>
    ensures { Gives (λ list. list) result (traverse (artifact_row (at table.now) owner) (rows_in table.now.places.keys owner 4)) }
{
    let rows = table.rows(owner, 4)?;
    read_rows(table, owner, unit, &rows)
}

/// What the rows of a unit describe.
#[derive(Drop)]
pub(crate) struct Lists {
    pub(crate) properties: List<Property>,
    pub(crate) provided: List<Provided>,
    pub(crate) required: List<Required>,
    pub(crate) artifacts: List<ArtifactKey>,
}

#[tactic(auto, unfolding(crate::specs::UnitParts::lists_of))]
pub(crate) fn lists_of(table: &Table, owner: u32, name: &UnitName) -> Result<Lists, InfRefusal>
    ensures { Gives (λ lists. lists) result (lists_of (at table.now) table.now.places.keys owner name.now) }
{
    let properties = properties_of(table, owner, &name.version)?;
    let provided = provided_of(table, owner, name)?;
    let required = required_of(table, owner, name)?;
    let artifacts = artifacts_of(table, owner, &name.version)?;
    Ok(Lists {
        properties,
        provided,
        required,
        artifacts,
    })
}
