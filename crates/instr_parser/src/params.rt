//! The parameters of a call.

ghost use Rattle.std.specs.Prelude.{◌≡◌, ◌≤◌, nat_lt, length, IfOk, OnOk};
ghost use Rattle.std.specs.List.{prefix_len, find};
ghost use Rattle.instr_text.specs.Gives.{Gives};
ghost use Rattle.instr_text.specs.Piece.{part_seen, parts_seen};
ghost use Rattle.instr_parser.specs.Params.{is_given, inserted, refusal_of, value_at, slot_for, param_at, params_of, is_missing, missing_param, completed, call_with};

use crate::call::{ActionKind, Call, Param, Value};
use crate::form::{Fault, Form, Slot};
use crate::opened::open;
use crate::slots::{slot_named, slots};
use crate::tables::params;
use crate::value::formed;
use instr_text::{InstrRefusal, Part};
use osgi_version::{List, NoMemory, Text};
use std::alloc::Global;

fn is_given(given: &[Param], code: u16) -> bool
    ensures { result ≡ is_given code given.now }
{
    given.iter().any(|param| param.code == code)
}

/// How many of the parameters stand before one with this code.
fn place_of(given: &[Param], code: u16) -> usize
    ensures value { result ≡ prefix_len (λ p. nat_lt p.code code) given.now }
    ensures within { result ≤ length given.now }
{
    given.iter().take_while(|param| param.code < code).count()
}

/// Puts a parameter where its code comes in the order of codes.
fn insert(given: &mut Vec<Param>, param: Param) -> Result<(), NoMemory>
    ensures { OnOk result (given.new.items ≡ inserted param given.old.items) }
{
    let place = place_of(given, param.code);
    given.insert(place, param)?;
    Ok(())
}

/// The refusal of a value, which names its key.
fn refusal(alloc: Global, fault: Fault, key: &str) -> Result<InstrRefusal, NoMemory>
    ensures { IfOk result (λ refusal. refusal ≡ refusal_of fault key.now) }
{
    let key = Text::from_str(alloc, key)?;
    Ok(match fault {
        Fault::Outside => InstrRefusal::OutsideFolder(key),
        Fault::Path => InstrRefusal::BadPath(key),
        Fault::Form => InstrRefusal::BadParam(key),
    })
}

#[tactic(auto, unfolding(crate::specs::Params::value_at))]
fn read_value(alloc: Global, form: Form, part: &Part<'_>) -> Result<Value, InstrRefusal>
    ensures { Gives (λ value. value) result (value_at form (part_seen part.now)) }
{
    let opened = open(alloc, part.value)?;
    match formed(alloc, form, &opened)? {
        Ok(value) => Ok(value),
        Err(fault) => Err(refusal(alloc, fault, part.key)?),
    }
}

/// The parameter that may be given next, behind those that are given.
#[tactic(auto, unfolding(crate::specs::Params::slot_for))]
fn slot_for(alloc: Global, kind: u16, given: &[Param], key: &str) -> Result<Slot, InstrRefusal>
    ensures { Gives (λ slot. slot) result (slot_for kind given.now key.now) }
{
    let Some(slot) = slot_named(kind, key.as_bytes()) else {
        let key = Text::from_str(alloc, key)?;
        return Err(InstrRefusal::UnknownParam(key));
    };
    if is_given(given, slot.code) {
        let key = Text::from_str(alloc, key)?;
        return Err(InstrRefusal::RepeatedParam(key));
    }
    Ok(slot)
}

#[tactic(auto, unfolding(crate::specs::Params::param_at))]
fn read_param(
    alloc: Global,
    kind: u16,
    given: &[Param],
    part: &Part<'_>,
) -> Result<Param, InstrRefusal>
    ensures { Gives (λ param. param) result (param_at kind given.now (part_seen part.now)) }
{
    let slot = slot_for(alloc, kind, given, part.key)?;
    let value = read_value(alloc, slot.form, part)?;
    Ok(Param {
        code: slot.code,
        value,
    })
}

/// The parameters in the table's order, read in the text's order.
fn read_params(alloc: Global, kind: u16, parts: &[Part<'_>]) -> Result<Vec<Param>, InstrRefusal>
    ensures { Gives (λ given. given.items) result (params_of kind (parts_seen parts.now)) }
{
    let mut given = Vec::new(alloc);
    for part in parts {
        let param = read_param(alloc, kind, &given, part)?;
        insert(&mut given, param)?;
    }
    Ok(given)
}

/// Whether the parameter is needed and not given.
fn is_missing(given: &[Param], slot: Slot) -> bool
    ensures { result ≡ is_missing given.now slot }
{
    slot.is_needed && !is_given(given, slot.code)
}

/// The first of the parameters in the table's order that is needed and not given.
fn missing(slots: &[Slot], given: &[Param]) -> Option<Slot>
    ensures { result ≡ find (is_missing given.now) slots.now }
{
    slots.iter().find(|slot| is_missing(given, **slot)).copied()
}

/// The refusal that names the missing parameter.
#[tactic(auto, unfolding(crate::specs::Params::missing_param))]
fn missing_param(alloc: Global, code: u16) -> Result<InstrRefusal, NoMemory>
    ensures { IfOk result (λ refusal. refusal ≡ missing_param code) }
{
    let name = params().name(code).unwrap_or(b"");
    let name = Text::from_ascii(alloc, name)?;
    Ok(InstrRefusal::MissingParam(name))
}

/// The call with these parameters.
#[tactic(auto, unfolding(crate::specs::Params::completed))]
fn completed(alloc: Global, kind: u16, params: List<Param>) -> Result<Call, InstrRefusal>
    ensures { Gives (λ call. call) result (completed kind params) }
{
    match missing(slots(kind), params.items()) {
        Some(slot) => Err(missing_param(alloc, slot.code)?),
        None => Ok(Call {
            kind: ActionKind(kind),
            params,
        }),
    }
}

/// The call of an action with these parameters.
#[tactic(auto, unfolding(crate::specs::Params::call_with))]
pub(crate) fn read_call(alloc: Global, kind: u16, parts: &[Part<'_>]) -> Result<Call, InstrRefusal>
    ensures { Gives (λ call. call) result (call_with kind (parts_seen parts.now)) }
{
    let params = read_params(alloc, kind, parts)?;
    completed(alloc, kind, List::from_vec(params))
}
