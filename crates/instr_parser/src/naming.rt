//! Which action a name is.

ghost use Rattle.std.specs.Prelude.{◌≡◌, ◌≤◌, ◌==◌, not, length, map, filter, IfOk};
ghost use Rattle.std.specs.List.{take_while, prefix_len, list_any};
ghost use Rattle.std.specs.Option.{option_map};
ghost use Rattle.instr_text.specs.Cut.{seen};
ghost use Rattle.instr_text.specs.Gives.{Gives};
ghost use Rattle.instr_parser.specs.Naming.{is_native, qualified, imported, is_that, is_plain_in, plain_kinds, known, plainly, meaning_of, kind_of};
ghost use Rattle.instr_parser.specs.Tables.{actions};

use crate::tables::{KINDS, actions, left_out};
use instr_text::{InstrRefusal, behind_bytes, split_bytes, trim_bytes};
use osgi_version::{NoMemory, Text};
use std::alloc::Global;

/// What the qualified names of the native actions begin with.
const NATIVES: &[u8] = b"org.eclipse.equinox.p2.touchpoint.natives.";

/// The touchpoint whose units name the native actions plainly.
const NATIVE: &[u8] = b"org.eclipse.equinox.p2.native";

/// What the names of the Eclipse touchpoint's actions begin with.
const ECLIPSE: &[u8] = b"org.eclipse.equinox.p2.touchpoint.eclipse.";

/// What a name means.
#[derive(Clone, Copy, Debug, PartialEq, Eq)]
enum Meaning {
    /// The action with this code.
    Action(u16),
    /// An action that isn't taken.
    LeftOut,
    Unknown,
}

/// The action with this qualified name.
#[tactic(auto, unfolding(crate::specs::Naming::qualified))]
fn qualified(name: &[u8]) -> Option<u16>
    ensures { result ≡ qualified name.now }
{
    let rest = behind_bytes(name, NATIVES)?;
    actions().find(rest)
}

/// How many bytes stand before the first `;`.
fn semicolon_at(import: &[u8]) -> usize
    ensures value { result ≡ prefix_len (λ b. not (b == 59)) import.now }
    ensures within { result ≤ length import.now }
{
    import.iter().take_while(|byte| **byte != b';').count()
}

/// What stands before the first `;`.
fn before_semicolon(import: &[u8]) -> &[u8]
    ensures { result.now ≡ take_while (λ b. not (b == 59)) import.now }
{
    import.split_at(semicolon_at(import)).0
}

/// The action that a part of the imports names.
#[tactic(auto, unfolding(crate::specs::Naming::imported))]
fn imported(import: &[u8]) -> Option<u16>
    ensures { result ≡ imported import.now }
{
    qualified(trim_bytes(before_semicolon(import)))
}

fn is_import_of(import: &[u8], kind: u16) -> bool
    ensures { result ≡ is_that kind (imported import.now) }
{
    match imported(import) {
        Some(other) => other == kind,
        None => false,
    }
}

/// Whether some part of the imports names the action.
fn is_imported(imports: &[&[u8]], kind: u16) -> bool
    ensures { result ≡ list_any (λ import. is_that kind (imported import.now)) imports.now }
{
    imports.iter().any(|import| is_import_of(import, kind))
}

/// Whether the action may be named plainly.
fn is_plain(is_native: bool, imports: &[&[u8]], kind: u16) -> bool
    ensures { result ≡ is_plain_in is_native (seen imports.now) kind }
{
    is_native || is_imported(imports, kind)
}

fn is_native(touchpoint: Option<&[u8]>) -> bool
    ensures { result ≡ is_native (option_map (λ id. id.now) touchpoint.entry) }
{
    match touchpoint {
        Some(id) => id == NATIVE,
        None => false,
    }
}

/// The actions that may be named plainly, in the order of their codes.
fn plain_among(alloc: Global, is_native: bool, imports: &[&[u8]]) -> Result<Vec<u16>, NoMemory>
    ensures { IfOk result (λ kinds. kinds.items ≡ filter (is_plain_in is_native (seen imports.now)) (map (λ row. row.1) actions)) }
{
    let mut kinds = Vec::new(alloc);
    for kind in &KINDS {
        if is_plain(is_native, imports, *kind) {
            kinds.push(*kind)?;
        }
    }
    Ok(kinds)
}

/// The actions that may be named plainly: all in a unit of the native touchpoint, else those that are imported. Takes
/// time in line with the imports.
#[tactic(auto, unfolding(crate::specs::Naming::plain_kinds))]
pub(crate) fn plain_kinds(
    alloc: Global,
    imports: &[u8],
    touchpoint: Option<&[u8]>,
) -> Result<Vec<u16>, NoMemory>
    ensures { IfOk result (λ kinds. kinds.items ≡ plain_kinds imports.now (option_map (λ id. id.now) touchpoint.entry)) }
{
    let imports = split_bytes(alloc, imports, b',')?;
    plain_among(alloc, is_native(touchpoint), &imports)
}

/// What a name without its prefix means.
#[tactic(auto, unfolding(crate::specs::Naming::known))]
fn known(name: &[u8]) -> Meaning
    ensures { result ≡ known name.now }
{
    if let Some(kind) = actions().find(name) {
        return Meaning::Action(kind);
    }
    match left_out().find(name) {
        Some(_) => Meaning::LeftOut,
        None => Meaning::Unknown,
    }
}

/// The same, where only these actions may be named so.
fn plainly_known(plain: &[u16], name: &[u8]) -> Meaning
    ensures { result ≡ plainly plain.now (known name.now) }
{
    match known(name) {
        Meaning::Action(kind) if !plain.contains(&kind) => Meaning::Unknown,
        meaning => meaning,
    }
}

#[tactic(auto, unfolding(crate::specs::Naming::meaning_of))]
fn meaning_of(plain: &[u16], name: &[u8]) -> Meaning
    ensures { result ≡ meaning_of plain.now name.now }
{
    if let Some(rest) = behind_bytes(name, NATIVES) {
        return known(rest);
    }
    match behind_bytes(name, ECLIPSE) {
        Some(_) => Meaning::LeftOut,
        None => plainly_known(plain, name),
    }
}

/// The action of this name.
#[tactic(auto, unfolding(crate::specs::Naming::kind_of))]
pub(crate) fn kind_of(alloc: Global, plain: &[u16], name: &str) -> Result<u16, InstrRefusal>
    ensures { Gives (λ kind. kind) result (kind_of plain.now name.now) }
{
    match meaning_of(plain, name.as_bytes()) {
        Meaning::Action(kind) => Ok(kind),
        Meaning::LeftOut => {
            let name = Text::from_str(alloc, name)?;
            Err(InstrRefusal::LeftOutAction(name))
        }
        Meaning::Unknown => {
            let name = Text::from_str(alloc, name)?;
            Err(InstrRefusal::UnknownAction(name))
        }
    }
}
