//! What a description gives, in one line.

ghost use Rattle.std.specs.Prelude.{All, IfSome};
ghost use Rattle.ldap_filter.specs.FilterText.{IsFilter};
ghost use Rattle.inf_reader.specs.InForm.{IsRequiredInForm, IsUnitInForm};

use crate::push::{push_count, push_name, push_text, push_version, push_word};
use inf_reader::InfRefusal;
use ldap_filter::Filter;
use osgi_version::{NoMemory, Range};
use unit_model::{
    ArtifactKey, Phase, PhaseText, Property, Provided, Required, Touchpoint, Unit, Update,
};

/// A blank, and the interval. One without a ceiling ends in `,)`.
fn push_range(line: &mut Vec<u8>, range: &Range) -> Result<(), NoMemory> {
    push_word(line, if range.floor_included { " [" } else { " (" })?;
    push_version(line, &range.floor)?;
    line.push(b',')?;
    match &range.ceiling {
        Some(ceiling) => {
            push_version(line, &ceiling.version)?;
            push_word(line, if ceiling.included { "]" } else { ")" })
        }
        None => push_word(line, ")"),
    }
}

/// A blank and the canonical text, where there is a filter.
fn push_filter(line: &mut Vec<u8>, filter: &Option<Filter>) -> Result<(), NoMemory>
    requires { IfSome filter.now IsFilter }
{
    match filter {
        Some(filter) => push_filter_text(line, filter),
        None => Ok(()),
    }
}

fn push_filter_text(line: &mut Vec<u8>, filter: &Filter) -> Result<(), NoMemory>
    requires { IsFilter filter.now }
{
    let text = filter.text(*line.allocator())?;
    push_text(line, &text)
}

fn push_update(line: &mut Vec<u8>, update: &Update) -> Result<(), NoMemory> {
    push_word(line, "; update")?;
    push_text(line, &update.id)?;
    push_range(line, &update.range)?;
    push_count(line, update.severity)?;
    push_text(line, &update.description)
}

fn push_touchpoint(line: &mut Vec<u8>, touchpoint: &Option<Touchpoint>) -> Result<(), NoMemory> {
    if let Some(touchpoint) = touchpoint {
        push_word(line, "; touchpoint")?;
        push_text(line, &touchpoint.id)?;
        line.push(b' ')?;
        push_version(line, &touchpoint.version)?;
    }
    Ok(())
}

fn push_head(line: &mut Vec<u8>, unit: &Unit) -> Result<(), NoMemory>
    requires { IfSome unit.now.filter IsFilter }
{
    push_word(line, "unit")?;
    push_name(line, &unit.name)?;
    if unit.singleton {
        push_word(line, " singleton")?;
    }
    push_filter(line, &unit.filter)
}

fn push_property(line: &mut Vec<u8>, property: &Property) -> Result<(), NoMemory> {
    push_word(line, "; property")?;
    push_text(line, &property.name)?;
    push_text(line, &property.value)
}

fn push_provided(line: &mut Vec<u8>, provided: &Provided) -> Result<(), NoMemory> {
    push_word(line, "; provides")?;
    push_text(line, &provided.namespace)?;
    push_text(line, &provided.name)?;
    line.push(b' ')?;
    push_version(line, &provided.version)
}

fn push_required(line: &mut Vec<u8>, required: &Required) -> Result<(), NoMemory>
    requires { IsRequiredInForm required.now }
{
    push_word(line, "; requires")?;
    push_text(line, &required.namespace)?;
    push_text(line, &required.name)?;
    push_range(line, &required.range)?;
    push_count(line, required.min)?;
    push_count(line, required.max)?;
    push_word(line, if required.greedy { " greedy" } else { " meek" })?;
    push_filter(line, &required.filter)
}

fn push_artifact(line: &mut Vec<u8>, artifact: &ArtifactKey) -> Result<(), NoMemory> {
    push_word(line, "; artifact")?;
    push_text(line, &artifact.classifier)?;
    push_text(line, &artifact.id)?;
    line.push(b' ')?;
    push_version(line, &artifact.version)
}

fn phase_word(phase: Phase) -> &'static str {
    match phase {
        Phase::Collect => "; collect",
        Phase::Unconfigure => "; unconfigure",
        Phase::Uninstall => "; uninstall",
        Phase::Install => "; install",
        Phase::Configure => "; configure",
    }
}

fn push_phase(line: &mut Vec<u8>, phase: &PhaseText) -> Result<(), NoMemory> {
    push_word(line, phase_word(phase.phase))?;
    push_text(line, &phase.imports)?;
    push_text(line, &phase.text)
}

fn push_properties(line: &mut Vec<u8>, properties: &[Property]) -> Result<(), NoMemory> {
    for property in properties {
        push_property(line, property)?;
    }
    Ok(())
}

fn push_all_provided(line: &mut Vec<u8>, all: &[Provided]) -> Result<(), NoMemory> {
    for provided in all {
        push_provided(line, provided)?;
    }
    Ok(())
}

fn push_all_required(line: &mut Vec<u8>, all: &[Required]) -> Result<(), NoMemory>
    requires { All IsRequiredInForm all.now }
{
    for required in all {
        push_required(line, required)?;
    }
    Ok(())
}

fn push_artifacts(line: &mut Vec<u8>, artifacts: &[ArtifactKey]) -> Result<(), NoMemory> {
    for artifact in artifacts {
        push_artifact(line, artifact)?;
    }
    Ok(())
}

fn push_phases(line: &mut Vec<u8>, phases: &[PhaseText]) -> Result<(), NoMemory> {
    for phase in phases {
        push_phase(line, phase)?;
    }
    Ok(())
}

/// The unit, with all its parts in the order of their declaration.
fn push_unit(line: &mut Vec<u8>, unit: &Unit) -> Result<(), NoMemory>
    requires { IsUnitInForm unit.now }
{
    push_head(line, unit)?;
    push_update(line, &unit.update)?;
    push_touchpoint(line, &unit.touchpoint)?;
    push_properties(line, unit.properties.items())?;
    push_all_provided(line, unit.provided.items())?;
    push_all_required(line, unit.required.items())?;
    push_artifacts(line, unit.artifacts.items())?;
    push_phases(line, unit.phases.items())
}

/// How many units there are, and each behind a bar.
pub(crate) fn push_units(line: &mut Vec<u8>, units: &[Unit]) -> Result<(), NoMemory>
    requires { All IsUnitInForm units.now }
{
    push_word(line, "units")?;
    for unit in units {
        push_word(line, " | ")?;
        push_unit(line, unit)?;
    }
    Ok(())
}

/// The kind of the refusal, and what it names.
pub(crate) fn push_refusal(line: &mut Vec<u8>, refusal: &InfRefusal) -> Result<(), NoMemory> {
    match refusal {
        InfRefusal::UnknownKey(key) => {
            push_word(line, "unknown")?;
            push_text(line, key)
        }
        InfRefusal::LeftOutKey(key) => {
            push_word(line, "left-out")?;
            push_text(line, key)
        }
        InfRefusal::NoHost(key) => {
            push_word(line, "no-host")?;
            push_text(line, key)
        }
        InfRefusal::MissingId(number) => {
            push_word(line, "missing")?;
            push_count(line, *number)
        }
        InfRefusal::BadValue(key) => {
            push_word(line, "bad")?;
            push_text(line, key)
        }
        InfRefusal::Duplicate(name) => {
            push_word(line, "twice")?;
            push_name(line, name)
        }
        InfRefusal::TooManyRequirements(name) => {
            push_word(line, "too-many")?;
            push_name(line, name)
        }
        InfRefusal::NoMemory => push_word(line, "no-memory"),
    }
}
