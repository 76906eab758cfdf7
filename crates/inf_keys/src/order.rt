//! The order of keys.

ghost use Rattle.std.specs.Prelude.{◌≡◌, ℕ};
ghost use Rattle.std.specs.Ordering.{as_partial_cmp, eq_by_cmp};
ghost use Rattle.std.specs.Cmp.{eq_by_cmp_equiv, partial_equiv_from_equiv, partial_order_from_total};
ghost use Rattle.std.specs.Cmp.Rules.{comparing};
ghost use Rattle.std.proofs.Common.{rules};
ghost use Rattle.inf_keys.specs.Order.{key_cmp, key_total, owner_place, kind_place, row_place, field_place};

use crate::fields::PhaseField;
use crate::key::{Key, Owner, Part};
use crate::names::{
    artifact_field_code, phase_code, property_field_code, provided_field_code, required_field_code,
    single_code,
};
use std::cmp::Ordering;

/// Where a key stands among keys: by owner, then by kind of part, then by row, then by field.
#[derive(Clone, Copy, Debug, PartialEq, Eq, PartialOrd, Ord)]
struct Place {
    owner: u64,
    kind: u8,
    row: u32,
    field: u16,
}

impl Owner {
    fn place(self) -> u64
        ensures { result ≡ owner_place self }
    {
        match self {
            Owner::Host => 0,
            Owner::Unit(unit) => u64::from(unit) + 1,
        }
    }
}

impl Part {
    fn kind(self) -> u8
        ensures { result ≡ kind_place self }
    {
        match self {
            Part::Single(_) => 0,
            Part::Property(_, _) => 1,
            Part::Provided(_, _) => 2,
            Part::Required(_, _) => 3,
            Part::Artifact(_, _) => 4,
            Part::Instruction(_, _) => 5,
        }
    }

    fn row(self) -> u32
        ensures { result ≡ row_place self }
    {
        match self {
            Part::Single(_) => 0,
            Part::Property(row, _)
            | Part::Provided(row, _)
            | Part::Required(row, _)
            | Part::Artifact(row, _) => row,
            Part::Instruction(phase, _) => u32::from(phase_code(phase)),
        }
    }

    fn field(self) -> u16
        ensures { result ≡ field_place self }
    {
        match self {
            Part::Single(single) => single_code(single),
            Part::Property(_, field) => property_field_code(field),
            Part::Provided(_, field) => provided_field_code(field),
            Part::Required(_, field) => required_field_code(field),
            Part::Artifact(_, field) => artifact_field_code(field),
            Part::Instruction(_, PhaseField::Text) => 0,
            Part::Instruction(_, PhaseField::Import) => 1,
        }
    }
}

impl Key {
    fn place(&self) -> Place
        ensures owner { result.owner ≡ owner_place self.now.owner }
        ensures kind { result.kind ≡ kind_place self.now.part }
        ensures row { result.row ≡ row_place self.now.part }
        ensures field { result.field ≡ field_place self.now.part }
    {
        Place {
            owner: self.owner.place(),
            kind: self.part.kind(),
            row: self.part.row(),
            field: self.part.field(),
        }
    }
}

impl Ord for Key {
    ghost cmp = { key_cmp };

    ghost total = { key_total };

    ghost matches_partial_cmp = { Prim.search (comparing, rules) };

    ghost matches_eq = { Prim.search (comparing, rules) };

    fn cmp(&self, other: &Key) -> Ordering {
        self.place().cmp(&other.place())
    }
}

impl PartialOrd for Key {
    ghost partial_cmp = { as_partial_cmp key_cmp };

    ghost laws = { partial_order_from_total key_total };

    fn partial_cmp(&self, other: &Key) -> Option<Ordering> {
        Some(self.cmp(other))
    }
}

impl PartialEq for Key {
    ghost eq = { eq_by_cmp key_cmp };

    ghost laws = { partial_equiv_from_equiv (eq_by_cmp_equiv key_total) };

    fn eq(&self, other: &Key) -> bool {
        self.cmp(other).is_eq()
    }
}

impl Eq for Key {
    ghost laws = { eq_by_cmp_equiv key_total };
}
