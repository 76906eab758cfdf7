ghost use Rattle.std.specs.Prelude.{◌≡◌, ◌++◌, map, codes, All, IfOk, OnOk};
ghost use Rattle.std.specs.List.{flat_map};
ghost use Rattle.osgi_version.specs.Field.{field};
ghost use Rattle.osgi_version.specs.RangeText.{IsRange};
ghost use Rattle.osgi_version.specs.VersionText.{IsVersion};
ghost use Rattle.inf_reader.specs.InForm.{HasVersion, IsUnitInForm};
ghost use Rattle.director_core.specs.Answer.{first_text};
ghost use Rattle.director_core.specs.StateText.{line, name_line, update_line, provided_line, unit_text, head_text};

use osgi_version::{List, NoMemory, push_field};
use std::alloc::Global;
use unit_model::{Provided, Unit, UnitName, Update};

/// The text of a profile's first state, whose one unit has nothing beyond a name, an update and provided capabilities.
pub(crate) fn first_state_text(
    alloc: Global,
    profile: &[u8],
    unit: &Unit,
) -> Result<List<u8>, NoMemory>
    requires { IsUnitInForm unit.now }
    ensures { IfOk result (λ text. text ≡ first_text profile.now unit.now) }
{
    let mut text = Vec::new(alloc);
    push_head(alloc, &mut text, profile)?;
    push_named(alloc, &mut text, b"root", &unit.name)?;
    push_unit(alloc, &mut text, unit)?;
    push_line(&mut text, b"end", &[b"state"])?;
    Ok(List::from_vec(text))
}

/// The first lines of the state of number 1.
fn push_head(alloc: Global, text: &mut Vec<u8>, profile: &[u8]) -> Result<(), NoMemory>
    ensures { OnOk result (text.new.items ≡ text.old.items ++ head_text profile.now 1) }
{
    let profile = field_of(alloc, profile)?;
    push_line(text, b"p2state", &[b"1"])?;
    push_line(text, b"profile", &[profile.as_slice()])?;
    push_line(text, b"number", &[b"1"])?;
    Ok(())
}

/// A word, and the id and version of a unit.
fn push_named(
    alloc: Global,
    text: &mut Vec<u8>,
    word: &[u8],
    name: &UnitName,
) -> Result<(), NoMemory>
    requires { IsVersion name.now.version }
    ensures { OnOk result (text.new.items ≡ text.old.items ++ name_line word.now name.now) }
{
    let id = field_of(alloc, name.id.bytes())?;
    let version = name.version.text(alloc)?;
    push_line(text, word, &[id.as_slice(), version.bytes()])
}

/// The lines of a unit.
#[tactic(auto, unfolding(crate::specs::StateText::unit_text))]
fn push_unit(alloc: Global, text: &mut Vec<u8>, unit: &Unit) -> Result<(), NoMemory>
    requires { IsUnitInForm unit.now }
    ensures { OnOk result (text.new.items ≡ text.old.items ++ unit_text unit.now) }
{
    push_named(alloc, text, b"unit", &unit.name)?;
    push_update(alloc, text, &unit.update)?;
    push_provided(alloc, text, unit.provided.items())?;
    push_line(text, b"end", &[])?;
    Ok(())
}

fn push_update(alloc: Global, text: &mut Vec<u8>, update: &Update) -> Result<(), NoMemory>
    requires { IsRange update.now.range }
    ensures { OnOk result (text.new.items ≡ text.old.items ++ update_line update.now) }
{
    let id = field_of(alloc, update.id.bytes())?;
    let range = update.range.text(alloc)?;
    let severity = update.severity.to_string(alloc)?;
    let description = field_of(alloc, update.description.bytes())?;
    push_line(
        text,
        b"update",
        &[
            id.as_slice(),
            range.bytes(),
            severity.as_bytes(),
            description.as_slice(),
        ],
    )
}

/// The lines of capabilities.
fn push_provided(alloc: Global, text: &mut Vec<u8>, provided: &[Provided]) -> Result<(), NoMemory>
    requires { All HasVersion provided.now }
    ensures { OnOk result (text.new.items ≡ text.old.items ++ flat_map provided_line provided.now) }
{
    for row in provided {
        push_row(alloc, text, row)?;
    }
    Ok(())
}

fn push_row(alloc: Global, text: &mut Vec<u8>, row: &Provided) -> Result<(), NoMemory>
    requires { HasVersion row.now }
    ensures { OnOk result (text.new.items ≡ text.old.items ++ provided_line row.now) }
{
    let namespace = field_of(alloc, row.namespace.bytes())?;
    let name = field_of(alloc, row.name.bytes())?;
    let version = row.version.text(alloc)?;
    push_line(
        text,
        b"provides",
        &[namespace.as_slice(), name.as_slice(), version.bytes()],
    )
}

/// A word, further words with a blank before each, and the line's end.
#[tactic(auto, unfolding(crate::specs::StateText::line))]
fn push_line(text: &mut Vec<u8>, word: &[u8], words: &[&[u8]]) -> Result<(), NoMemory>
    ensures { OnOk result (text.new.items ≡ text.old.items ++ line word.now (map (λ w. w.now) words.now)) }
{
    text.extend_from_slice(word)?;
    for next in words {
        text.push(b' ')?;
        text.extend_from_slice(next)?;
    }
    text.push(b'\n')?;
    Ok(())
}

fn field_of(alloc: Global, bytes: &[u8]) -> Result<Vec<u8>, NoMemory>
    ensures { IfOk result (λ text. text.items ≡ field bytes.now) }
{
    let mut text = Vec::new(alloc);
    push_field(&mut text, bytes)?;
    Ok(text)
}
