//! The parts of a unit that stand in no row.

ghost use Rattle.std.specs.Prelude.{◌≡◌, ◌++◌, [], unwrap_or, IfOk, OnOk};
ghost use Rattle.std.specs.Option.{option_map};
ghost use Rattle.inf_values.specs.Host.{is_empty};
ghost use Rattle.inf_reader.specs.Gives.{Gives};
ghost use Rattle.inf_reader.specs.TableAt.{at};
ghost use Rattle.inf_reader.specs.UnitParts.{single_at, listed_name, name_of, update_of, has_touchpoint, needed_touchpoint, touchpoint_of, head_of, unit_phase, phase_of, phase_at, phases_of};

use crate::fault::InfRefusal;
use crate::table::Table;
use inf_keys::{Key, Part, PhaseField, Single};
use inf_values::{
    HOST, copy_filter, copy_range_or_below, copy_text_or, copy_text_or_empty, key_at,
};
use ldap_filter::Filter;
use osgi_version::{List, NoMemory, Text, Twin};
use std::alloc::Global;
use unit_model::{Phase, PhaseText, Touchpoint, UnitName, Update};

fn single_at(owner: u32, single: Single) -> Key
    ensures { result ≡ single_at owner single }
{
    key_at(owner, Part::Single(single))
}

/// The name of a unit that isn't the host.
#[tactic(auto, unfolding(crate::specs::UnitParts::listed_name))]
fn listed_name(table: &Table, owner: u32) -> Result<UnitName, InfRefusal>
    ensures { Gives (λ name. name) result (listed_name (at table.now) owner) }
{
    let id = single_at(owner, Single::Id);
    let version = single_at(owner, Single::Version);
    if !table.has(id) || !table.has(version) {
        return Err(InfRefusal::MissingId(owner.saturating_sub(1)));
    }
    let id = table.needed_id(id)?;
    let version = table.needed_version(version)?;
    let id = id.copy()?;
    let version = version.copy()?;
    Ok(UnitName { id, version })
}

/// The unit's name, which is the host's where there is one.
pub(crate) fn name_of(
    host: Option<&UnitName>,
    table: &Table,
    owner: u32,
) -> Result<UnitName, InfRefusal>
    ensures { Gives (λ name. name) result (name_of (option_map (λ h. h.now) host.entry) (at table.now) owner) }
{
    if let Some(host) = host {
        if owner == HOST {
            return Ok(host.copy()?);
        }
    }
    listed_name(table, owner)
}

/// Which units the unit replaces: by default those of its id below its version.
#[tactic(auto, unfolding(crate::specs::UnitParts::update_of))]
fn update_of(table: &Table, owner: u32, name: &UnitName) -> Result<Update, InfRefusal>
    ensures { Gives (λ update. update) result (update_of (at table.now) owner name.now) }
{
    let range = table.range(single_at(owner, Single::UpdateRange))?;
    let severity = table.number_or(single_at(owner, Single::UpdateSeverity), 0)?;
    let id = table.text(single_at(owner, Single::UpdateId));
    let description = table.text(single_at(owner, Single::UpdateDescription));
    let range = copy_range_or_below(table.alloc, range, &name.version)?;
    let id = copy_text_or(id, &name.id)?;
    let description = copy_text_or_empty(table.alloc, description)?;
    Ok(Update {
        id,
        range,
        severity,
        description,
    })
}

#[tactic(auto, unfolding(crate::specs::UnitParts::has_touchpoint))]
fn has_touchpoint(table: &Table, owner: u32) -> bool
    ensures { result ≡ has_touchpoint (at table.now) owner }
{
    table.has(single_at(owner, Single::TouchpointId))
        || table.has(single_at(owner, Single::TouchpointVersion))
}

#[tactic(auto, unfolding(crate::specs::UnitParts::needed_touchpoint))]
fn needed_touchpoint(table: &Table, owner: u32) -> Result<Touchpoint, InfRefusal>
    ensures { Gives (λ touchpoint. touchpoint) result (needed_touchpoint (at table.now) owner) }
{
    let id = table.needed_text(single_at(owner, Single::TouchpointId))?;
    let version = table.needed_version(single_at(owner, Single::TouchpointVersion))?;
    let id = id.copy()?;
    let version = version.copy()?;
    Ok(Touchpoint { id, version })
}

/// The touchpoint, where the unit has one.
#[tactic(auto, unfolding(crate::specs::UnitParts::touchpoint_of))]
fn touchpoint_of(table: &Table, owner: u32) -> Result<Option<Touchpoint>, InfRefusal>
    ensures { Gives (λ touchpoint. touchpoint) result (touchpoint_of (at table.now) owner) }
{
    if !has_touchpoint(table, owner) {
        return Ok(None);
    }
    let touchpoint = needed_touchpoint(table, owner)?;
    Ok(Some(touchpoint))
}

/// What a unit has once beside its name.
#[derive(Drop)]
pub(crate) struct Head {
    pub(crate) singleton: bool,
    pub(crate) filter: Option<Filter>,
    pub(crate) update: Update,
    pub(crate) touchpoint: Option<Touchpoint>,
}

#[tactic(auto, unfolding(crate::specs::UnitParts::head_of))]
pub(crate) fn head_of(table: &Table, owner: u32, name: &UnitName) -> Result<Head, InfRefusal>
    ensures { Gives (λ head. head) result (head_of (at table.now) owner name.now) }
{
    let singleton = table.truth_or(single_at(owner, Single::Singleton), false);
    let filter = table.filter(single_at(owner, Single::Filter))?;
    let update = update_of(table, owner, name)?;
    let touchpoint = touchpoint_of(table, owner)?;
    let filter = copy_filter(filter)?;
    Ok(Head {
        singleton,
        filter,
        update,
        touchpoint,
    })
}

fn unit_phase(phase: inf_keys::Phase) -> Phase
    ensures { result ≡ unit_phase phase }
{
    match phase {
        inf_keys::Phase::Collect => Phase::Collect,
        inf_keys::Phase::Unconfigure => Phase::Unconfigure,
        inf_keys::Phase::Uninstall => Phase::Uninstall,
        inf_keys::Phase::Install => Phase::Install,
        inf_keys::Phase::Configure => Phase::Configure,
    }
}

fn is_blank(text: Option<&Text>) -> bool
    ensures { result ≡ is_empty (unwrap_or (option_map (λ x. x.now) text.entry) []) }
{
    match text {
        Some(text) => text.bytes().is_empty(),
        None => true,
    }
}

/// Adds the texts of a phase, where they aren't both empty.
fn push_texts(
    alloc: Global,
    phase: Phase,
    text: Option<&Text>,
    imports: Option<&Text>,
    phases: &mut List<PhaseText>,
) -> Result<(), NoMemory>
    ensures { OnOk result (phases.new ≡ phases.old ++ phase_of phase (unwrap_or (option_map (λ x. x.now) text.entry) []) (unwrap_or (option_map (λ x. x.now) imports.entry) [])) }
{
    if is_blank(text) && is_blank(imports) {
        return Ok(());
    }
    let text = copy_text_or_empty(alloc, text)?;
    let imports = copy_text_or_empty(alloc, imports)?;
    phases.push(PhaseText {
        phase,
        imports,
        text,
    })
}

/// Adds the texts of an owner's phase, where they aren't both empty.
#[tactic(auto, unfolding(crate::specs::UnitParts::phase_at))]
fn push_phase(
    table: &Table,
    owner: u32,
    phase: inf_keys::Phase,
    phases: &mut List<PhaseText>,
) -> Result<(), NoMemory>
    ensures { OnOk result (phases.new ≡ phases.old ++ phase_at (at table.now) owner phase) }
{
    let text = table.text(key_at(owner, Part::Instruction(phase, PhaseField::Text)));
    let imports = table.text(key_at(owner, Part::Instruction(phase, PhaseField::Import)));
    push_texts(table.alloc, unit_phase(phase), text, imports, phases)
}

/// The phases, in the order in which the engine goes through them.
#[tactic(auto, unfolding(crate::specs::UnitParts::phases_of))]
pub(crate) fn phases_of(table: &Table, owner: u32) -> Result<List<PhaseText>, NoMemory>
    ensures { IfOk result (λ phases. phases ≡ phases_of (at table.now) owner) }
{
    let mut phases = List::new(table.alloc);
    push_phase(table, owner, inf_keys::Phase::Collect, &mut phases)?;
    push_phase(table, owner, inf_keys::Phase::Unconfigure, &mut phases)?;
    push_phase(table, owner, inf_keys::Phase::Uninstall, &mut phases)?;
    push_phase(table, owner, inf_keys::Phase::Install, &mut phases)?;
    push_phase(table, owner, inf_keys::Phase::Configure, &mut phases)?;
    Ok(phases)
}
