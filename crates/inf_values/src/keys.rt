//! The keys of one owner, where they stand, and how their values are read.

ghost use Rattle.std.specs.Prelude.{◌≡◌};
ghost use Rattle.inf_keys.specs.Order.{owner_place, kind_place};
ghost use Rattle.inf_keys.specs.Meaning.{IsOwner};
ghost use Rattle.inf_values.specs.Keys.{is_host, key_at, class_of, row_in, place_of};

use crate::reading::Class;
use inf_keys::{ArtifactField, Key, Owner, Part, ProvidedField, RequiredField, Single};

/// The owner of the parts of the host. The owner of those of unit N is N + 1.
pub const HOST: u32 = 0;

/// Where a part stands: with which owner, among the parts of which kind, and in which row of them.
#[derive(Clone, Copy, Debug, PartialEq, Eq, PartialOrd, Ord)]
pub struct Place {
    pub owner: u32,
    pub list: u8,
    pub row: u32,
}

/// Whether this is the host.
pub fn is_host(owner: Owner) -> bool
    ensures { result ≡ is_host owner }
{
    matches!(owner, Owner::Host)
}

fn owner_number(owner: Owner) -> u32
    requires { IsOwner owner }
    ensures { result ≡ owner_place owner }
{
    match owner {
        Owner::Host => HOST,
        Owner::Unit(unit) => unit + 1,
    }
}

fn list_number(part: Part) -> u8
    ensures { result ≡ kind_place part }
{
    match part {
        Part::Single(_) => 0,
        Part::Property(_, _) => 1,
        Part::Provided(_, _) => 2,
        Part::Required(_, _) => 3,
        Part::Artifact(_, _) => 4,
        Part::Instruction(_, _) => 5,
    }
}

fn row_number(part: Part) -> u32
    ensures { result ≡ row_in part }
{
    match part {
        Part::Single(_) | Part::Instruction(_, _) => 0,
        Part::Property(row, _)
        | Part::Provided(row, _)
        | Part::Required(row, _)
        | Part::Artifact(row, _) => row,
    }
}

/// Where the part of a key stands.
pub fn place_of(key: Key) -> Place
    requires { IsOwner key.owner }
    ensures { result ≡ place_of key }
{
    Place {
        owner: owner_number(key.owner),
        list: list_number(key.part),
        row: row_number(key.part),
    }
}

/// The key of a part of this owner.
pub fn key_at(owner: u32, part: Part) -> Key
    ensures { result ≡ key_at owner part }
{
    let owner = if owner == HOST {
        Owner::Host
    } else {
        Owner::Unit(owner - 1)
    };
    Key { owner, part }
}

/// How the value of a part is read.
pub fn class_of(part: Part) -> Class
    ensures { result ≡ class_of part }
{
    match part {
        Part::Single(Single::Version | Single::TouchpointVersion)
        | Part::Provided(_, ProvidedField::Version)
        | Part::Artifact(_, ArtifactField::Version) => Class::Version,
        Part::Single(Single::UpdateRange) | Part::Required(_, RequiredField::Range) => Class::Range,
        Part::Single(Single::Filter) | Part::Required(_, RequiredField::Filter) => Class::Filter,
        _ => Class::Plain,
    }
}
