//! The names of the parts of a unit, each table written once. Their codes order them.

ghost use Rattle.std.specs.Prelude.{◌≡◌};
ghost use Rattle.case_table.specs.CaseTable.{rows};
ghost use Rattle.case_table.specs.Rows.{beside};
ghost use Rattle.inf_keys.specs.Names.{single_name, property_name, provided_name, required_name, artifact_name, phase_name};
ghost use Rattle.inf_keys.specs.NameTables.{numbered, singles, passed, property_fields, provided_fields, required_fields, artifact_fields, phases};
ghost use Rattle.inf_keys.specs.Order.{single_place, property_place, provided_place, required_place, artifact_place, phase_place};

use crate::fields::{ArtifactField, Phase, PropertyField, ProvidedField, RequiredField, Single};
use crate::key::Part;
use crate::reading::Reading;
use case_table::{CaseTable, case_at, code_at, table};

macro_rules! singles {
    ($with:ident $(, $arg:expr)?) => {
        $with!(
            $($arg;)?
            "id" = 0 => Single::Id,
            "version" = 1 => Single::Version,
            "singleton" = 2 => Single::Singleton,
            "filter" = 3 => Single::Filter,
            "update.id" = 4 => Single::UpdateId,
            "update.range" = 5 => Single::UpdateRange,
            "update.severity" = 6 => Single::UpdateSeverity,
            "update.description" = 7 => Single::UpdateDescription,
            "touchpoint.id" = 8 => Single::TouchpointId,
            "touchpoint.version" = 9 => Single::TouchpointVersion,
        )
    };
}

fn singles() -> CaseTable<10>
    ensures { rows result ≡ numbered singles }
{
    singles!(table)
}

pub(crate) fn find_single(name: &[u8]) -> Option<Single>
    ensures { result ≡ beside singles name.now }
{
    let code = singles().find(name)?;
    singles!(case_at, code)
}

pub(crate) fn single_code(single: Single) -> u16
    ensures { result ≡ single_place single }
{
    singles!(code_at, single)
}

pub(crate) fn single_name(single: Single) -> &'static [u8]
    ensures { result.now ≡ single_name single }
{
    match singles().name(single_code(single)) {
        Some(name) => name,
        None => unreachable!(),
    }
}

macro_rules! property_fields {
    ($with:ident $(, $arg:expr)?) => {
        $with!(
            $($arg;)?
            "name" = 0 => PropertyField::Name,
            "value" = 1 => PropertyField::Value,
        )
    };
}

fn property_fields() -> CaseTable<2>
    ensures { rows result ≡ numbered property_fields }
{
    property_fields!(table)
}

pub(crate) fn find_property_field(name: &[u8]) -> Option<PropertyField>
    ensures { result ≡ beside property_fields name.now }
{
    let code = property_fields().find(name)?;
    property_fields!(case_at, code)
}

pub(crate) fn property_field_code(field: PropertyField) -> u16
    ensures { result ≡ property_place field }
{
    property_fields!(code_at, field)
}

pub(crate) fn property_field_name(field: PropertyField) -> &'static [u8]
    ensures { result.now ≡ property_name field }
{
    match property_fields().name(property_field_code(field)) {
        Some(name) => name,
        None => unreachable!(),
    }
}

macro_rules! provided_fields {
    ($with:ident $(, $arg:expr)?) => {
        $with!(
            $($arg;)?
            "namespace" = 0 => ProvidedField::Namespace,
            "name" = 1 => ProvidedField::Name,
            "version" = 2 => ProvidedField::Version,
        )
    };
}

fn provided_fields() -> CaseTable<3>
    ensures { rows result ≡ numbered provided_fields }
{
    provided_fields!(table)
}

pub(crate) fn find_provided_field(name: &[u8]) -> Option<ProvidedField>
    ensures { result ≡ beside provided_fields name.now }
{
    let code = provided_fields().find(name)?;
    provided_fields!(case_at, code)
}

pub(crate) fn provided_field_code(field: ProvidedField) -> u16
    ensures { result ≡ provided_place field }
{
    provided_fields!(code_at, field)
}

pub(crate) fn provided_field_name(field: ProvidedField) -> &'static [u8]
    ensures { result.now ≡ provided_name field }
{
    match provided_fields().name(provided_field_code(field)) {
        Some(name) => name,
        None => unreachable!(),
    }
}

macro_rules! required_fields {
    ($with:ident $(, $arg:expr)?) => {
        $with!(
            $($arg;)?
            "namespace" = 0 => RequiredField::Namespace,
            "name" = 1 => RequiredField::Name,
            "range" = 2 => RequiredField::Range,
            "greedy" = 3 => RequiredField::Greedy,
            "optional" = 4 => RequiredField::Optional,
            "multiple" = 5 => RequiredField::Multiple,
            "filter" = 6 => RequiredField::Filter,
            "min" = 7 => RequiredField::Min,
            "max" = 8 => RequiredField::Max,
        )
    };
}

fn required_fields() -> CaseTable<9>
    ensures { rows result ≡ numbered required_fields }
{
    required_fields!(table)
}

pub(crate) fn find_required_field(name: &[u8]) -> Option<RequiredField>
    ensures { result ≡ beside required_fields name.now }
{
    let code = required_fields().find(name)?;
    required_fields!(case_at, code)
}

pub(crate) fn required_field_code(field: RequiredField) -> u16
    ensures { result ≡ required_place field }
{
    required_fields!(code_at, field)
}

pub(crate) fn required_field_name(field: RequiredField) -> &'static [u8]
    ensures { result.now ≡ required_name field }
{
    match required_fields().name(required_field_code(field)) {
        Some(name) => name,
        None => unreachable!(),
    }
}

macro_rules! artifact_fields {
    ($with:ident $(, $arg:expr)?) => {
        $with!(
            $($arg;)?
            "classifier" = 0 => ArtifactField::Classifier,
            "id" = 1 => ArtifactField::Id,
            "version" = 2 => ArtifactField::Version,
        )
    };
}

fn artifact_fields() -> CaseTable<3>
    ensures { rows result ≡ numbered artifact_fields }
{
    artifact_fields!(table)
}

pub(crate) fn find_artifact_field(name: &[u8]) -> Option<ArtifactField>
    ensures { result ≡ beside artifact_fields name.now }
{
    let code = artifact_fields().find(name)?;
    artifact_fields!(case_at, code)
}

pub(crate) fn artifact_field_code(field: ArtifactField) -> u16
    ensures { result ≡ artifact_place field }
{
    artifact_fields!(code_at, field)
}

pub(crate) fn artifact_field_name(field: ArtifactField) -> &'static [u8]
    ensures { result.now ≡ artifact_name field }
{
    match artifact_fields().name(artifact_field_code(field)) {
        Some(name) => name,
        None => unreachable!(),
    }
}

macro_rules! phases {
    ($with:ident $(, $arg:expr)?) => {
        $with!(
            $($arg;)?
            "collect" = 0 => Phase::Collect,
            "unconfigure" = 1 => Phase::Unconfigure,
            "uninstall" = 2 => Phase::Uninstall,
            "install" = 3 => Phase::Install,
            "configure" = 4 => Phase::Configure,
        )
    };
}

fn phases() -> CaseTable<5>
    ensures { rows result ≡ numbered phases }
{
    phases!(table)
}

pub(crate) fn find_phase(name: &[u8]) -> Option<Phase>
    ensures { result ≡ beside phases name.now }
{
    let code = phases().find(name)?;
    phases!(case_at, code)
}

pub(crate) fn phase_code(phase: Phase) -> u16
    ensures { result ≡ phase_place phase }
{
    phases!(code_at, phase)
}

pub(crate) fn phase_name(phase: Phase) -> &'static [u8]
    ensures { result.now ≡ phase_name phase }
{
    match phases().name(phase_code(phase)) {
        Some(name) => name,
        None => unreachable!(),
    }
}

macro_rules! passed {
    ($with:ident $(, $arg:expr)?) => {
        $with!(
            $($arg;)?
            "advice.version" = 0 => Reading::Silent,
            "update.matchExp" = 1 => Reading::LeftOut,
        )
    };
}

fn passed() -> CaseTable<2>
    ensures { rows result ≡ numbered passed }
{
    passed!(table)
}

/// What a single part without a meaning is.
pub(crate) fn find_passed(name: &[u8]) -> Option<Reading<Part>>
    ensures { result ≡ beside passed name.now }
{
    let code = passed().find(name)?;
    passed!(case_at, code)
}
