//! Scripts that are stopped after each number of calls, or of which each call fails in turn.

use crate::image::{EACH, Left, copy_of, crashed, installation};
use crate::line::say;
use crate::quiet::Quiet;
use crate::script::play;
use crate::step::{Step, read_steps};
use folder_rows::RowFault;
use install_journal::{Gate, read_gate, recover};
use osgi_version::{List, NoMemory, push_number};
use std::alloc::Global;
use suite_row::Row;

/// What the calls of the folder do.
#[derive(Clone, Copy, Debug, PartialEq, Eq)]
pub enum Way {
    /// After so many calls each fails, and then comes a crash and a recovery.
    Stops,
    /// One call fails, and what stands then is seen.
    Fails,
}

/// Which installation stands.
#[derive(Clone, Copy, Debug, PartialEq, Eq)]
enum Outcome {
    Old,
    New,
    /// Some images give the old one, and some the new one.
    Either,
    /// Neither stands, or a recovery gave up or left an open gate.
    Broken,
}

/// What is tried: the folder that it begins with, the steps, and what stood and is to stand.
#[derive(Clone, Copy)]
struct Trial<'a> {
    base: &'a Quiet,
    steps: &'a List<Step>,
    old: &'a [u8],
    new: &'a [u8],
}

/// A script of which no call failed: how many it took, and what stands then.
#[derive(Drop)]
struct Whole {
    calls: u64,
    text: Vec<u8>,
}

/// Equal outcomes that follow one another.
#[derive(Clone, Copy)]
struct Run {
    outcome: Outcome,
    count: u32,
}

/// `stops STEP ..` and `fails STEP ..`: which installation comes of a script that is stopped after each number of calls, or
/// of which one call fails, for each of them and one more: how often the same, then the next.
pub fn try_each(
    alloc: Global,
    folder: &Quiet,
    row: &Row,
    way: Way,
    line: &mut Vec<u8>,
) -> Result<(), RowFault> {
    let steps = read_steps(alloc, row, 1)?;
    try_steps(alloc, folder, &steps, way, line)
}

fn try_steps(
    alloc: Global,
    base: &Quiet,
    steps: &List<Step>,
    way: Way,
    line: &mut Vec<u8>,
) -> Result<(), RowFault> {
    let old = installation(alloc, base)?;
    let whole = whole_of(alloc, base, steps)?;
    let trial = Trial {
        base,
        steps,
        old: old.as_slice(),
        new: whole.text.as_slice(),
    };
    tally(alloc, trial, way, whole.calls, line)
}

fn whole_of(alloc: Global, base: &Quiet, steps: &List<Step>) -> Result<Whole, RowFault> {
    let folder = played(alloc, base, steps, 0, None)?;
    Ok(whole_in(alloc, &folder)?)
}

fn whole_in(alloc: Global, folder: &Quiet) -> Result<Whole, NoMemory> {
    let text = installation(alloc, folder)?;
    let calls = folder.inner.calls();
    Ok(Whole { calls, text })
}

/// The folder after the steps.
fn played(
    alloc: Global,
    base: &Quiet,
    steps: &List<Step>,
    place: u64,
    way: Option<Way>,
) -> Result<Quiet, RowFault> {
    let mut folder = copy_of(alloc, base)?;
    arm(alloc, &mut folder, place, way)?;
    let mut line = Vec::new(alloc);
    play(alloc, &mut folder, steps.items(), &mut line);
    Ok(folder)
}

fn arm(alloc: Global, folder: &mut Quiet, place: u64, way: Option<Way>) -> Result<(), NoMemory> {
    match way {
        None => {}
        Some(Way::Stops) => folder.inner.fuse(place),
        Some(Way::Fails) => {
            let mut calls = List::new(alloc);
            calls.push(place.saturating_add(1))?;
            folder.inner.fail_at(calls);
        }
    }
    Ok(())
}

fn tally(
    alloc: Global,
    trial: Trial<'_>,
    way: Way,
    calls: u64,
    line: &mut Vec<u8>,
) -> Result<(), RowFault> {
    let mut run: Option<Run> = None;
    for place in 0..=calls {
        let outcome = outcome_at(alloc, trial, way, place)?;
        run = Some(joined(run, outcome, line)?);
    }
    Ok(say_run(line, run)?)
}

/// The run with one outcome more. Where that is another, the run is said.
fn joined(run: Option<Run>, outcome: Outcome, line: &mut Vec<u8>) -> Result<Run, NoMemory> {
    match run {
        Some(run) if run.outcome == outcome => Ok(Run {
            outcome,
            count: run.count.saturating_add(1),
        }),
        _ => {
            say_run(line, run)?;
            Ok(Run { outcome, count: 1 })
        }
    }
}

fn say_run(line: &mut Vec<u8>, run: Option<Run>) -> Result<(), NoMemory> {
    let Some(Run { outcome, count }) = run else {
        return Ok(());
    };
    say(
        line,
        match outcome {
            Outcome::Old => "old ",
            Outcome::New => "new ",
            Outcome::Either => "either ",
            Outcome::Broken => "broken ",
        },
    )?;
    push_number(line, count)
}

fn outcome_at(alloc: Global, trial: Trial<'_>, way: Way, place: u64) -> Result<Outcome, RowFault> {
    let folder = played(alloc, trial.base, trial.steps, place, Some(way))?;
    match way {
        Way::Stops => outcome_of_each(alloc, trial, &folder),
        Way::Fails => Ok(standing(alloc, trial, &folder)?),
    }
}

/// Which installation recoveries of the three images give.
fn outcome_of_each(alloc: Global, trial: Trial<'_>, folder: &Quiet) -> Result<Outcome, RowFault> {
    let mut outcome = None;
    for left in EACH {
        if let Some(one) = outcome_of(alloc, trial, folder, left)? {
            outcome = Some(merged(outcome, one));
        }
    }
    Ok(outcome.unwrap_or(Outcome::Broken))
}

fn merged(outcome: Option<Outcome>, one: Outcome) -> Outcome {
    match outcome {
        Some(other) if other != one => {
            if other == Outcome::Broken || one == Outcome::Broken {
                Outcome::Broken
            } else {
                Outcome::Either
            }
        }
        _ => one,
    }
}

/// Which installation a recovery of an image gives. None where a crash doesn't leave that image.
fn outcome_of(
    alloc: Global,
    trial: Trial<'_>,
    folder: &Quiet,
    left: Left,
) -> Result<Option<Outcome>, RowFault> {
    let Some(mut image) = crashed(alloc, folder, left)? else {
        return Ok(None);
    };
    if !settles(alloc, &mut image) {
        return Ok(Some(Outcome::Broken));
    }
    Ok(Some(standing(alloc, trial, &image)?))
}

/// Recovers, and answers whether the gate is closed then, and all is synced.
fn settles(alloc: Global, folder: &mut Quiet) -> bool {
    recover(alloc, folder).is_ok()
        && matches!(read_gate(alloc, folder), Ok(Gate::IsClosed))
        && folder.inner.touched().is_empty()
}

fn standing(alloc: Global, trial: Trial<'_>, folder: &Quiet) -> Result<Outcome, NoMemory> {
    let text = installation(alloc, folder)?;
    Ok(if text.as_slice() == trial.old {
        Outcome::Old
    } else if text.as_slice() == trial.new {
        Outcome::New
    } else {
        Outcome::Broken
    })
}
