ghost use Rattle.std.specs.Prelude.{◌≡◌, ◌+◌, ◌≤◌, ◌<◌, ◌^◌, length, replicate, None, All, IfOk, MatchOption, IsTrue, ◌↔◌};
ghost use Rattle.pb_core.specs.AtLeast.{at_least};
ghost use Rattle.pb_core.specs.Normal.{IsNormalOver};
ghost use Rattle.deriv_check.specs.Answers.{IsAnswer, IsFirstBad};
ghost use Rattle.deriv_check.specs.Verdict.{CheckUpTo, EndsEmpty};
ghost use Rattle.deriv_check.specs.Database.{database};
ghost use Rattle.deriv_check.specs.LineRule.{HasLiterals, Checks, Fails};
ghost use Rattle.deriv_check.specs.Sound.{AllFollow};
ghost use Rattle.pb_core.specs.Satisfied.{IsUnsatisfiable};
ghost use Rattle.std.specs.Prelude.{map, Ok, OnOk};
ghost use Rattle.deriv_check.specs.declared.derivation.Verdict.TheVariants as verdict;

use crate::derivation::{CheckFault, Derivation, Line, Verdict, Why};
use crate::hints::are_within;
use crate::lines::{conflict, deny};
use crate::scratch::Scratch;
use osgi_version::NoMemory;
use pb_core::{Constraint, Problem};
use std::alloc::Global;

/// Why a line behind these lines doesn't check, if it doesn't. Costs the terms of the hints that it takes.
fn line_fault(
    alloc: Global,
    scratch: &mut Scratch,
    constraints: &[Constraint],
    lines: &[Line],
    line: &Line,
) -> Result<Option<Why>, NoMemory>
    requires few { length scratch.old < 2 ^ 32 }
    requires few_lines { length constraints.now + length lines.now < 2 ^ 63 }
    requires all_open { scratch.old ≡ replicate (length scratch.old) None }
    requires normal { All (λ c. IsNormalOver (length scratch.old) (at_least c)) constraints.now }
    requires literals { All (λ l. HasLiterals (length scratch.old) l.clause) lines.now }
    ensures fault { IfOk result (λ fault. MatchOption fault
        (Checks (length scratch.old) (database constraints.now lines.now) line.now)
        (Fails (length scratch.old) (database constraints.now lines.now) line.now)) }
    ensures size { length scratch.new ≡ length scratch.old }
{
    if !deny(scratch, line.clause.items())? {
        return Ok(Some(Why::Literal));
    }
    let hints = line.hints.items();
    if !are_within(hints, constraints.len() + lines.len()) {
        return Ok(Some(Why::Hint));
    }
    if !conflict(alloc, scratch, constraints, lines, hints)? {
        return Ok(Some(Why::NoConflict));
    }
    Ok(None)
}

/// The number of the first line that doesn't check, and why.
fn first_bad(
    alloc: Global,
    scratch: &mut Scratch,
    constraints: &[Constraint],
    lines: &[Line],
) -> Result<Option<(u64, Why)>, NoMemory>
    requires few { length scratch.old < 2 ^ 32 }
    requires few_constraints { length constraints.now ≤ 1000000000 }
    requires few_lines { length lines.now ≤ 1000000000 }
    requires all_open { scratch.old ≡ replicate (length scratch.old) None }
    requires normal { All (λ c. IsNormalOver (length scratch.old) (at_least c)) constraints.now }
    ensures { IfOk result (λ found. MatchOption found
        (CheckUpTo (length scratch.old) constraints.now lines.now (length lines.now))
        (λ bad. IsFirstBad (length scratch.old) constraints.now lines.now bad.0 bad.1)) }
{
    for i in 0..lines.len() {
        if let Some(why) = line_fault(alloc, scratch, constraints, &lines[..i], &lines[i])? {
            return Ok(Some((i as u64 + 1, why)));
        }
        scratch.clear();
    }
    Ok(None)
}

/// Whether there is a line, and the clause of the last is empty.
fn ends_empty(lines: &[Line]) -> bool
    ensures { IsTrue result ↔ EndsEmpty lines.now }
{
    let count = lines.len();
    count > 0 && lines[count - 1].clause.is_empty()
}

/// The number of the first line that doesn't check over a problem, and why.
fn bad_line(
    alloc: Global,
    problem: &Problem,
    lines: &[Line],
) -> Result<Option<(u64, Why)>, NoMemory>
    requires labels { length problem.now.labels ≤ 1000000000 }
    requires constraints { length problem.now.constraints ≤ 1000000000 }
    requires lines { length lines.now ≤ 1000000000 }
    requires normal { All (λ c. IsNormalOver (length problem.now.labels) (at_least c)) problem.now.constraints }
    ensures { IfOk result (λ found. MatchOption found
        (CheckUpTo (length problem.now.labels) problem.now.constraints lines.now (length lines.now))
        (λ bad. IsFirstBad (length problem.now.labels) problem.now.constraints lines.now bad.0 bad.1)) }
{
    let mut scratch = Scratch::new(alloc, problem.labels.len() as u32)?;
    let found = first_bad(alloc, &mut scratch, problem.constraints.items(), lines)?;
    Ok(found)
}

/// Checks a derivation line by line. A line checks where its literals are distinct variables of the problem, its hints
/// are numbers of constraints or earlier lines, and, with all its literals false, the hints taken in order come to a
/// constraint that is violated; each hint before makes true what it forces. Costs the terms of the hints that it takes.
pub fn check(
    alloc: Global,
    problem: &Problem,
    derivation: &Derivation,
) -> Result<Verdict, CheckFault>
    requires labels { length problem.now.labels ≤ 1000000000 }
    requires constraints { length problem.now.constraints ≤ 1000000000 }
    requires lines { length derivation.now.lines ≤ 1000000000 }
    requires normal { All (λ c. IsNormalOver (length problem.now.labels) (at_least c)) problem.now.constraints }
    ensures exact { IsAnswer (length problem.now.labels) problem.now.constraints derivation.now.lines result }
    ensures follows { OnOk result (AllFollow problem.now.constraints derivation.now.lines) }
    ensures refutes { result ≡ Ok verdict.Refutes → IsUnsatisfiable (map at_least problem.now.constraints) }
{
    let lines = derivation.lines.items();
    if let Some((line, why)) = bad_line(alloc, problem, lines)? {
        return Err(CheckFault::Bad { line, why });
    }
    if ends_empty(lines) {
        Ok(Verdict::Refutes)
    } else {
        Ok(Verdict::Follows)
    }
}
