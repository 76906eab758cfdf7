//! Writing a unit's text, part by part.

ghost use Rattle.std.specs.Prelude.{◌≡◌, ◌++◌, OnOk, IfOk, All, IfSome, map, length, slice_index};
ghost use Rattle.ldap_filter.specs.FilterText.{IsFilter};
ghost use Rattle.unit_lines.specs.Parts.{IsName, IsUpdate, IsTouchpoint, IsProvided, IsRequired, IsArtifact, IsPhase, part_line};
ghost use Rattle.unit_lines.specs.declared.part.Part.TheVariants as part;
ghost use Rattle.unit_text.specs.UnitText.{IsUnit, AreTexts, unit_text, text_of, early_parts, late_parts, singleton_parts, filter_parts, touchpoint_parts};

use ldap_filter::Filter;
use osgi_version::{NoMemory, Text};
use std::alloc::Global;
use unit_lines::{
    push_artifact, push_end, push_filter, push_name, push_phase, push_property, push_provided,
    push_required, push_singleton, push_touchpoint, push_update,
};
use unit_model::{ArtifactKey, PhaseText, Property, Provided, Required, Touchpoint, Unit};

fn push_singletons(text: &mut Vec<u8>, singleton: bool) -> Result<(), NoMemory>
    ensures { OnOk result (text.new.items ≡ text.old.items ++ text_of (singleton_parts singleton)) }
{
    if singleton {
        push_singleton(text)
    } else {
        Ok(())
    }
}

fn push_filters(text: &mut Vec<u8>, filter: &Option<Filter>) -> Result<(), NoMemory>
    requires { IfSome filter.now IsFilter }
    ensures { OnOk result (text.new.items ≡ text.old.items ++ text_of (filter_parts filter.now)) }
{
    match filter {
        Some(filter) => push_filter(text, filter),
        None => Ok(()),
    }
}

fn push_touchpoints(text: &mut Vec<u8>, touchpoint: &Option<Touchpoint>) -> Result<(), NoMemory>
    requires { IfSome touchpoint.now IsTouchpoint }
    ensures { OnOk result (text.new.items ≡ text.old.items ++ text_of (touchpoint_parts touchpoint.now)) }
{
    match touchpoint {
        Some(touchpoint) => push_touchpoint(text, touchpoint),
        None => Ok(()),
    }
}

fn push_properties(text: &mut Vec<u8>, properties: &[Property]) -> Result<(), NoMemory>
    ensures { OnOk result (text.new.items ≡ text.old.items ++ text_of (map part.Property properties.now)) }
{
    for property in properties {
        push_property(text, property)?;
    }
    Ok(())
}

fn push_all_provided(text: &mut Vec<u8>, all: &[Provided]) -> Result<(), NoMemory>
    requires { All IsProvided all.now }
    ensures { OnOk result (text.new.items ≡ text.old.items ++ text_of (map part.Provided all.now)) }
{
    for provided in all {
        push_provided(text, provided)?;
    }
    Ok(())
}

fn push_all_required(text: &mut Vec<u8>, all: &[Required]) -> Result<(), NoMemory>
    requires { All IsRequired all.now }
    ensures { OnOk result (text.new.items ≡ text.old.items ++ text_of (map part.Required all.now)) }
{
    for required in all {
        push_required(text, required)?;
    }
    Ok(())
}

fn push_artifacts(text: &mut Vec<u8>, artifacts: &[ArtifactKey]) -> Result<(), NoMemory>
    requires { All IsArtifact artifacts.now }
    ensures { OnOk result (text.new.items ≡ text.old.items ++ text_of (map part.Artifact artifacts.now)) }
{
    for artifact in artifacts {
        push_artifact(text, artifact)?;
    }
    Ok(())
}

fn push_phases(text: &mut Vec<u8>, phases: &[PhaseText]) -> Result<(), NoMemory>
    ensures { OnOk result (text.new.items ≡ text.old.items ++ text_of (map part.Phase phases.now)) }
{
    for phase in phases {
        push_phase(text, phase)?;
    }
    Ok(())
}

/// What stands before the update.
fn push_early(text: &mut Vec<u8>, unit: &Unit) -> Result<(), NoMemory>
    requires { IsUnit unit.now }
    ensures { OnOk result (text.new.items ≡ text.old.items ++ text_of (early_parts unit.now)) }
{
    push_name(text, &unit.name)?;
    push_singletons(text, unit.singleton)?;
    push_filters(text, &unit.filter)
}

/// What stands behind the update.
fn push_late(text: &mut Vec<u8>, unit: &Unit) -> Result<(), NoMemory>
    requires { IsUnit unit.now }
    ensures { OnOk result (text.new.items ≡ text.old.items ++ text_of (late_parts unit.now)) }
{
    push_touchpoints(text, &unit.touchpoint)?;
    push_properties(text, unit.properties.items())?;
    push_all_provided(text, unit.provided.items())?;
    push_all_required(text, unit.required.items())?;
    push_artifacts(text, unit.artifacts.items())?;
    push_phases(text, unit.phases.items())
}

/// Adds a unit's text to a text. Takes time in line with what it adds. After an `Err` the text is of no use.
pub fn push_unit(text: &mut Vec<u8>, unit: &Unit) -> Result<(), NoMemory>
    requires { IsUnit unit.now }
    ensures { OnOk result (text.new.items ≡ text.old.items ++ unit_text unit.now) }
{
    push_early(text, unit)?;
    push_update(text, &unit.update)?;
    push_late(text, unit)?;
    push_end(text)
}

/// A unit's text: one for each unit that has one. Takes time in line with the text.
#[tactic(auto, using(crate::proofs::Ascii::ascii_same))]
pub fn write_unit(alloc: Global, unit: &Unit) -> Result<Text, NoMemory>
    requires form { IsUnit unit.now }
    requires texts { AreTexts unit.now }
    ensures { IfOk result (λ text. text ≡ unit_text unit.now) }
{
    let mut text = Vec::new(alloc);
    push_unit(&mut text, unit)?;
    Text::from_ascii(alloc, &text)
}
