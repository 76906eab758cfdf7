ghost use Rattle.std.specs.Prelude.{◌≡◌, ◌++◌, ◌∷◌, [], codes, IfOk, OnOk};
ghost use Rattle.std.specs.Fmt.{decimal};
ghost use Rattle.osgi_version.specs.Field.{field};
ghost use Rattle.osgi_version.specs.VersionText.{IsVersion};
ghost use Rattle.director_words.specs.Lines.{plan_line_of, add_line_of, done_line_of, state_line, name_text};
ghost use Rattle.director_words.specs.Limit.{limit_word_of};
ghost use Rattle.director_words.specs.Status.{short_line_of, lines_of, CanPrint};

use crate::limit::LimitName;
use crate::refused::push_refused;
use crate::status::Status;
use folder_core::After;
use osgi_version::{List, NoMemory, Text, push_field, push_number};
use std::alloc::Global;
use unit_model::UnitName;

/// `plan PROFILE NUMBER`: the first line of a changing command.
pub fn plan_line(alloc: Global, profile: &[u8], number: u32) -> Result<List<u8>, NoMemory>
    ensures { IfOk result (λ line. line ≡ plan_line_of profile.now number) }
{
    state_line(alloc, b"plan ", profile, number)
}

/// `add ID/VERSION`: a unit that comes.
pub fn add_line(alloc: Global, name: &UnitName) -> Result<List<u8>, NoMemory>
    requires { IsVersion name.now.version }
    ensures { IfOk result (λ line. line ≡ add_line_of name.now) }
{
    let unit = name_text(alloc, name)?;
    let mut line = Vec::from_slice(alloc, b"add ")?;
    push_field(&mut line, unit.as_slice())?;
    line.push(b'\n')?;
    Ok(List::from_vec(line))
}

/// `done PROFILE NUMBER`: the last line of a changing command.
pub fn done_line(alloc: Global, profile: &[u8], number: u32) -> Result<List<u8>, NoMemory>
    ensures { IfOk result (λ line. line ≡ done_line_of profile.now number) }
{
    state_line(alloc, b"done ", profile, number)
}

fn state_line(alloc: Global, word: &[u8], profile: &[u8], number: u32) -> Result<List<u8>, NoMemory>
    ensures { IfOk result (λ line. line ≡ state_line word.now profile.now number) }
{
    let mut line = Vec::from_slice(alloc, word)?;
    push_field(&mut line, profile)?;
    line.push(b' ')?;
    push_number(&mut line, number)?;
    line.push(b'\n')?;
    Ok(List::from_vec(line))
}

/// The line of a refusal that takes no memory to print: nothing for any other status.
pub fn short_line(status: &Status) -> &'static [u8]
    ensures { result.now ≡ short_line_of status.now }
{
    match status {
        Status::NotBuilt => b"not-built\n",
        Status::Usage => b"usage\n",
        Status::SourceFault => b"source-fault\n",
        Status::FolderFault(After::Unchanged) => b"folder-fault unchanged\n",
        Status::FolderFault(After::Recover) => b"folder-fault recover\n",
        Status::FolderFault(After::Either) => b"folder-fault either\n",
        Status::NoMemory(After::Unchanged) => b"no-memory unchanged\n",
        Status::NoMemory(After::Recover) => b"no-memory recover\n",
        Status::NoMemory(After::Either) => b"no-memory either\n",
        Status::Done
        | Status::SourceRefused { .. }
        | Status::Unknown(_)
        | Status::SinkFault { .. }
        | Status::Limit { .. } => b"",
    }
}

/// The lines of a refusal that has no short line: nothing for any other status.
pub fn lines(alloc: Global, status: &Status) -> Result<List<u8>, NoMemory>
    requires { CanPrint status.now }
    ensures { IfOk result (λ lines. lines ≡ lines_of status.now) }
{
    let mut line = Vec::new(alloc);
    match status {
        Status::Unknown(name) => push_unknown(&mut line, name)?,
        Status::SourceRefused { folder, why } => push_refused(alloc, &mut line, folder, why)?,
        Status::Limit { what, most } => push_limit(&mut line, *what, *most)?,
        _ => {}
    }
    Ok(List::from_vec(line))
}

fn push_unknown(line: &mut Vec<u8>, name: &Text) -> Result<(), NoMemory>
    ensures { OnOk result (line.new.items ≡ line.old.items ++ (codes "unknown " ++ (field name.now ++ 10 ∷ []))) }
{
    line.extend_from_slice(b"unknown ")?;
    push_field(line, name.bytes())?;
    line.push(b'\n')?;
    Ok(())
}

fn push_limit(line: &mut Vec<u8>, what: LimitName, most: u64) -> Result<(), NoMemory>
    ensures { OnOk result (line.new.items ≡ line.old.items ++ (codes "limit " ++ (limit_word_of what ++ 32 ∷ (decimal most ++ 10 ∷ [])))) }
{
    line.extend_from_slice(b"limit ")?;
    line.extend_from_slice(what.word())?;
    line.push(b' ')?;
    push_count(line, most)?;
    line.push(b'\n')?;
    Ok(())
}

/// The number in decimal digits.
pub(crate) fn push_count(line: &mut Vec<u8>, count: u64) -> Result<(), NoMemory>
    ensures { OnOk result (line.new.items ≡ line.old.items ++ decimal count) }
{
    let digits = count.to_string(*line.allocator())?;
    line.extend_from_slice(digits.as_bytes())?;
    Ok(())
}

/// `ID/VERSION`.
pub(crate) fn name_text(alloc: Global, name: &UnitName) -> Result<Vec<u8>, NoMemory>
    requires { IsVersion name.now.version }
    ensures { IfOk result (λ text. text.items ≡ name_text name.now) }
{
    let version = name.version.text(alloc)?;
    let mut text = Vec::from_slice(alloc, name.id.bytes())?;
    text.push(b'/')?;
    text.extend_from_slice(version.bytes())?;
    Ok(text)
}
