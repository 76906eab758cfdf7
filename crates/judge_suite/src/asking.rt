//! What is asked of the units.

use crate::scene::Scene;
use osgi_version::{List, NoMemory, Text, Twin, Version, VersionFault, push_number};
use std::alloc::Global;
use suite_row::Row;
use unit_judge::{are_in_order, judge};
use unit_model::{Judgement, UnitName};

pub(crate) fn push_word(line: &mut Vec<u8>, word: &str) -> Result<(), NoMemory> {
    line.extend_from_slice(word.as_bytes())?;
    Ok(())
}

/// The name of an id and a version's text, which is 0.0.0 where it is none.
fn name(alloc: Global, id: &Text, version: &Text) -> Result<UnitName, NoMemory> {
    let version = match Version::parse(alloc, version.bytes()) {
        Ok(version) => version,
        Err(VersionFault::NoMemory) => return Err(NoMemory),
        Err(VersionFault::Bad { .. } | VersionFault::Raw) => zero(alloc)?,
    };
    let id = id.copy()?;
    Ok(UnitName { id, version })
}

fn zero(alloc: Global) -> Result<Version, NoMemory> {
    let qualifier = Text::from_str(alloc, "")?;
    Ok(Version {
        major: 0,
        minor: 0,
        micro: 0,
        qualifier,
    })
}

/// The names of the fields from the first on and before the end: an id and a version each.
fn names(alloc: Global, row: &Row, first: usize, end: usize) -> Result<List<UnitName>, NoMemory> {
    let mut names = List::new(alloc);
    for place in (first..end).step_by(2) {
        names.push(name(alloc, row.field(place), row.field(place + 1))?)?;
    }
    Ok(names)
}

/// Where the bar stands that parts strict roots from optional ones, or else the end.
fn bar(row: &Row) -> usize {
    for place in 1..row.len() {
        if row.word(place) == "|" {
            return place;
        }
    }
    row.len()
}

/// The judgement on the units. None where they aren't in order.
fn judged(
    scene: &Scene,
    roots: &List<UnitName>,
    optional: &List<UnitName>,
) -> Result<Option<Judgement>, NoMemory> {
    if !are_in_order(scene.units.items()) {
        return Ok(None);
    }
    let judgement = judge(&scene.units, roots, optional, &scene.env)?;
    Ok(Some(judgement))
}

/// The word, the id, `/` and the version.
fn push_name(line: &mut Vec<u8>, word: &str, name: &UnitName) -> Result<(), NoMemory> {
    push_word(line, word)?;
    push_word(line, " ")?;
    push_word(line, name.id.as_str())?;
    push_word(line, "/")?;
    push_version(line, &name.version)
}

fn push_version(line: &mut Vec<u8>, version: &Version) -> Result<(), NoMemory> {
    push_number(line, version.major)?;
    push_word(line, ".")?;
    push_number(line, version.minor)?;
    push_word(line, ".")?;
    push_number(line, version.micro)?;
    if !version.qualifier.bytes().is_empty() {
        push_word(line, ".")?;
        push_word(line, version.qualifier.as_str())?;
    }
    Ok(())
}

fn push_judgement(line: &mut Vec<u8>, judgement: &Judgement) -> Result<(), NoMemory> {
    match judgement {
        Judgement::Good => push_word(line, "good"),
        Judgement::Root(root) => push_name(line, "root", root),
        Judgement::Applies(unit) => push_name(line, "applies", unit),
        Judgement::Requirement { unit, row } => {
            push_name(line, "requirement", unit)?;
            push_word(line, " row ")?;
            push_number(line, *row)
        }
        Judgement::Singleton { first, second } => {
            push_name(line, "singleton", first)?;
            push_name(line, " beside", second)
        }
        Judgement::Unrooted(unit) => push_name(line, "unrooted", unit),
    }
}

/// `judge ID VERSION .. | ID VERSION ..`: the judgement on the units for these strict and optional roots.
pub(crate) fn push_judged(
    line: &mut Vec<u8>,
    alloc: Global,
    scene: &Scene,
    row: &Row,
) -> Result<(), NoMemory> {
    let bar = bar(row);
    let roots = names(alloc, row, 1, bar)?;
    let optional = names(alloc, row, bar.saturating_add(1), row.len())?;
    match judged(scene, &roots, &optional)? {
        Some(judgement) => push_judgement(line, &judgement),
        None => push_word(line, "not in order"),
    }
}
