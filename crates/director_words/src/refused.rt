//! The line of a source that is refused.

ghost use Rattle.std.specs.Prelude.{◌≡◌, ◌++◌, ◌∷◌, [], codes, IfOk, OnOk};
ghost use Rattle.osgi_version.specs.Field.{field};
ghost use Rattle.inf_reader.specs.declared.fault.InfRefusal.TheVariants.{MissingId};
ghost use Rattle.director_words.specs.declared.source_why.SourceWhy.TheVariants.{Line, Inf};
ghost use Rattle.director_words.specs.SourceWhy.{refused_key, refusal_word, why_text, CanPrintRefusal, CanPrintWhy};

use crate::printing::{name_text, push_count};
use crate::source_why::SourceWhy;
use inf_reader::InfRefusal;
use osgi_version::{NoMemory, Text, push_field, push_number};
use std::alloc::Global;

/// `source-refused FOLDER line N BadEscape`, or `source-refused FOLDER key KEY WHY`.
pub(crate) fn push_refused(
    alloc: Global,
    line: &mut Vec<u8>,
    folder: &Text,
    why: &SourceWhy,
) -> Result<(), NoMemory>
    requires { CanPrintWhy why.now }
    ensures { OnOk result (line.new.items ≡ line.old.items ++ (codes "source-refused " ++ (field folder.now ++ 32 ∷ (why_text why.now ++ 10 ∷ [])))) }
{
    line.extend_from_slice(b"source-refused ")?;
    push_field(line, folder.bytes())?;
    line.push(b' ')?;
    push_why(alloc, line, why)?;
    line.push(b'\n')?;
    Ok(())
}

fn push_why(alloc: Global, line: &mut Vec<u8>, why: &SourceWhy) -> Result<(), NoMemory>
    requires { CanPrintWhy why.now }
    ensures { OnOk result (line.new.items ≡ line.old.items ++ why_text why.now) }
{
    match why {
        SourceWhy::Line(number) => push_line_number(line, *number),
        SourceWhy::Inf(refusal) => push_refusal(alloc, line, refusal),
    }
}

fn push_line_number(line: &mut Vec<u8>, number: u64) -> Result<(), NoMemory>
    ensures { OnOk result (line.new.items ≡ line.old.items ++ why_text (Line number)) }
{
    line.extend_from_slice(b"line ")?;
    push_count(line, number)?;
    line.extend_from_slice(b" BadEscape")?;
    Ok(())
}

fn push_refusal(alloc: Global, line: &mut Vec<u8>, refusal: &InfRefusal) -> Result<(), NoMemory>
    requires { CanPrintRefusal refusal.now }
    ensures { OnOk result (line.new.items ≡ line.old.items ++ why_text (Inf refusal.now)) }
{
    let key = refused_key(alloc, refusal)?;
    line.extend_from_slice(b"key ")?;
    push_field(line, &key)?;
    line.push(b' ')?;
    line.extend_from_slice(refusal_word(refusal))?;
    Ok(())
}

/// The key that a refusal speaks of.
fn refused_key(alloc: Global, refusal: &InfRefusal) -> Result<Vec<u8>, NoMemory>
    requires { CanPrintRefusal refusal.now }
    ensures { IfOk result (λ key. key.items ≡ refused_key refusal.now) }
{
    match refusal {
        InfRefusal::UnknownKey(key)
        | InfRefusal::LeftOutKey(key)
        | InfRefusal::NoHost(key)
        | InfRefusal::BadValue(key) => Ok(Vec::from_slice(alloc, key.bytes())?),
        InfRefusal::MissingId(number) => id_key(alloc, *number),
        InfRefusal::Duplicate(name) => name_text(alloc, name),
        InfRefusal::TooManyRequirements(_) | InfRefusal::NoMemory => unreachable!(),
    }
}

/// The key of the id of a unit.
fn id_key(alloc: Global, number: u32) -> Result<Vec<u8>, NoMemory>
    ensures { IfOk result (λ key. key.items ≡ refused_key (MissingId number)) }
{
    let mut key = Vec::from_slice(alloc, b"units.")?;
    push_number(&mut key, number)?;
    key.extend_from_slice(b".id")?;
    Ok(key)
}

/// The name of a refusal.
fn refusal_word(refusal: &InfRefusal) -> &'static [u8]
    ensures { result.now ≡ refusal_word refusal.now }
{
    match refusal {
        InfRefusal::UnknownKey(_) => b"UnknownKey",
        InfRefusal::LeftOutKey(_) => b"LeftOutKey",
        InfRefusal::NoHost(_) => b"NoHost",
        InfRefusal::MissingId(_) => b"MissingId",
        InfRefusal::BadValue(_) => b"BadValue",
        InfRefusal::Duplicate(_) => b"Duplicate",
        InfRefusal::TooManyRequirements(_) => b"TooManyRequirements",
        InfRefusal::NoMemory => b"NoMemory",
    }
}
