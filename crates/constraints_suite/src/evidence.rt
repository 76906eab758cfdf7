//! Texts of evidence: read, written again and checked.

use crate::derivations::{numbers, used_text};
use crate::kept::status_of;
use crate::printing::{fault_text, verdict_text};
use deriv_check::{CheckFault, Evidence, Verdict, check, read_evidence, write_evidence};
use osgi_version::{List, NoMemory, Text, Twin, push_field};
use pb_core::Kept;
use std::alloc::Global;

/// How many labels, constraints and lines there are.
fn counts_text(alloc: Global, evidence: &Evidence) -> Result<String, NoMemory> {
    let (labels, constraints) = (&evidence.problem.labels, &evidence.problem.constraints);
    let lines = evidence.derivation.lines.len();
    Ok(format!(in alloc; "read {} {} {lines}", labels.len(), constraints.len())?)
}

/// Reads a text.
pub fn read(alloc: Global, text: &[u8]) -> Result<String, NoMemory> {
    match read_evidence(alloc, text) {
        Ok(evidence) => counts_text(alloc, &evidence),
        Err(fault) => fault_text(alloc, fault),
    }
}

/// Reads a text where each `~` is a byte that UTF-8 never has.
pub fn raw(alloc: Global, text: &str) -> Result<String, NoMemory> {
    let mut bytes = Vec::new(alloc);
    let written = text.as_bytes();
    for byte in written {
        bytes.push(if *byte == b'~' { 255 } else { *byte })?;
    }
    read(alloc, &bytes)
}

/// How a refusal is told.
pub fn fault(alloc: Global, text: &str) -> Result<String, NoMemory> {
    match read_evidence(alloc, text.as_bytes()) {
        Ok(evidence) => counts_text(alloc, &evidence),
        Err(fault) => Ok(format!(in alloc; "{fault}")?),
    }
}

/// The text of what a text says.
fn rewritten(alloc: Global, text: &[u8]) -> Result<Text, CheckFault> {
    let evidence = read_evidence(alloc, text)?;
    Ok(write_evidence(alloc, &evidence)?)
}

fn field_text(alloc: Global, text: &Text) -> Result<String, NoMemory> {
    let mut field = Vec::new(alloc);
    push_field(&mut field, text.bytes())?;
    match str::from_utf8(&field) {
        Ok(field) => Ok(field.to_string(alloc)?),
        Err(_) => Ok("no text".to_string(alloc)?),
    }
}

/// Reads a text, and writes it again.
pub fn again(alloc: Global, text: &str) -> Result<String, NoMemory> {
    match rewritten(alloc, text.as_bytes()) {
        Ok(written) if written.as_str() == text => Ok("same".to_string(alloc)?),
        Ok(written) => field_text(alloc, &written),
        Err(fault) => fault_text(alloc, fault),
    }
}

/// Whether a copy of an evidence, and a text read once more, are equal to it.
fn is_copied(alloc: Global, evidence: &Evidence, text: &[u8]) -> Result<bool, CheckFault> {
    let copied = evidence.copy()?;
    let twice = read_evidence(alloc, text)?;
    Ok(copied == *evidence && twice == copied)
}

fn copy_is_equal(alloc: Global, text: &[u8]) -> Result<bool, CheckFault> {
    let evidence = read_evidence(alloc, text)?;
    is_copied(alloc, &evidence, text)
}

/// Copies an evidence.
pub fn twin(alloc: Global, text: &str) -> Result<String, NoMemory> {
    match copy_is_equal(alloc, text.as_bytes()) {
        Ok(true) => Ok("equal".to_string(alloc)?),
        Ok(false) => Ok("unequal".to_string(alloc)?),
        Err(fault) => fault_text(alloc, fault.copy()?),
    }
}

/// What is answered for the derivation of a text.
fn checked(alloc: Global, text: &[u8]) -> Result<Verdict, CheckFault> {
    let evidence = read_evidence(alloc, text)?;
    check(alloc, &evidence.problem, &evidence.derivation)
}

/// Reads and checks a text.
pub fn verdict(alloc: Global, text: &str) -> Result<String, NoMemory> {
    verdict_text(alloc, checked(alloc, text.as_bytes()))
}

fn used_in(alloc: Global, text: &[u8]) -> Result<Option<List<u32>>, CheckFault> {
    let evidence = read_evidence(alloc, text)?;
    numbers(alloc, &evidence.problem, &evidence.derivation)
}

/// The numbers of the constraints that the derivation of a text uses.
pub fn because(alloc: Global, text: &str) -> Result<String, NoMemory> {
    used_text(alloc, used_in(alloc, text.as_bytes()))
}

/// The kept slacks of the problem of a text, with every variable open.
fn kept_of(alloc: Global, text: &[u8]) -> Result<Kept, CheckFault> {
    let evidence = read_evidence(alloc, text)?;
    Ok(Kept::new(alloc, &evidence.problem)?)
}

/// The slacks of the problem of a text once literals are made true.
pub fn slacks(alloc: Global, text: &str, words: &[&str]) -> Result<String, NoMemory> {
    match kept_of(alloc, text.as_bytes()) {
        Ok(kept) => status_of(alloc, kept, words),
        Err(fault) => fault_text(alloc, fault),
    }
}
