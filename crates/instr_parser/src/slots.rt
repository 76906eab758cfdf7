//! The parameters that each action takes, in the table's order, which is that of their codes.

ghost use Rattle.std.specs.Prelude.{◌≡◌, ◌==◌};
ghost use Rattle.std.specs.List.{find};
ghost use Rattle.instr_parser.specs.Slots.{slots, slot_named};

use crate::form::{Form, Slot};
use crate::tables::{
    CHMOD, CLEANUPCOPY, COPY, LINK_NAME, LINK_TARGET, LN, MKDIR, OVERWRITE, PATH, PERMISSIONS,
    REMOVE, RMDIR, SOURCE, TARGET, TARGET_DIR, TARGET_FILE, params,
};

macro_rules! needed {
    ($code:ident, $form:ident) => {
        Slot {
            code: $code,
            form: Form::$form,
            is_needed: true,
        }
    };
}

macro_rules! optional {
    ($code:ident, $form:ident) => {
        Slot {
            code: $code,
            form: Form::$form,
            is_needed: false,
        }
    };
}

/// What the action takes.
#[tactic(auto, unfolding(crate::specs::Slots::slots))]
pub(crate) fn slots(kind: u16) -> &'static [Slot]
    ensures { result.now ≡ slots kind }
{
    match kind {
        MKDIR | RMDIR | REMOVE => &[needed!(PATH, Place)],
        COPY => &[
            needed!(SOURCE, Source),
            needed!(TARGET, Place),
            optional!(OVERWRITE, Flag),
        ],
        CLEANUPCOPY => &[needed!(SOURCE, Source), needed!(TARGET, Place)],
        CHMOD => &[
            needed!(TARGET_DIR, Place),
            needed!(TARGET_FILE, Names),
            needed!(PERMISSIONS, Mode),
        ],
        LN => &[
            needed!(TARGET_DIR, Place),
            needed!(LINK_TARGET, Plain),
            needed!(LINK_NAME, Names),
        ],
        _ => &[],
    }
}

/// The parameter with this code.
fn slot_at(slots: &[Slot], code: u16) -> Option<Slot>
    ensures { result ≡ find (λ slot. slot.code == code) slots.now }
{
    slots.iter().find(|slot| slot.code == code).copied()
}

/// The parameter of this name, where the action takes it.
#[tactic(auto, unfolding(crate::specs::Slots::slot_named))]
pub(crate) fn slot_named(kind: u16, name: &[u8]) -> Option<Slot>
    ensures { result ≡ slot_named kind name.now }
{
    let code = params().find(name)?;
    slot_at(slots(kind), code)
}
