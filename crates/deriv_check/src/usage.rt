//! What a derivation uses of a problem: a walk from its last line back through hints.
ghost use Rattle.std.specs.Prelude.{◌≡◌, ℕ, ◌+◌, ◌<◌, ◌≤◌, ◌↔◌, ◌⊎◌, length, map, All, Contains, IfOk, IsTrue};
ghost use Rattle.std.specs.List.Sorted.{IsStrictlyIncreasing};
ghost use Rattle.pb_core.specs.AtLeast.{at_least};
ghost use Rattle.pb_core.specs.Satisfied.{IsUnsatisfiable};
ghost use Rattle.deriv_check.specs.LineRule.{hinted};
ghost use Rattle.deriv_check.specs.Marks.{is_marked};
ghost use Rattle.deriv_check.specs.Used.{IsReached, IsUsed, HaveEarlierHints};
ghost use Rattle.deriv_check.specs.Verdict.{CheckUpTo, EndsEmpty};

use crate::derivation::{Derivation, Line};
use osgi_version::{List, NoMemory};
use pb_core::Problem;
use std::alloc::Global;

/// Marks these numbers too.
fn mark(marks: &mut [bool], numbers: &[u32])
    requires { All (λ n. n < length marks.old) numbers.now }
    ensures { (n : ℕ) → IsTrue (is_marked marks.new n) ↔ (IsTrue (is_marked marks.old n) ⊎ Contains numbers.now n) }
{
    for number in numbers {
        marks[*number as usize] = true;
    }
}

/// Marks for the numbers of constraints and lines from 0: those that are reached from the last line.
fn reached(alloc: Global, constraints: usize, lines: &[Line]) -> Result<Vec<bool>, NoMemory>
    requires constraints { constraints ≤ 1000000000 }
    requires lines { length lines.now ≤ 1000000000 }
    requires hints { HaveEarlierHints constraints lines.now }
    ensures size { IfOk result (λ marks. length marks.items ≡ constraints + length lines.now + 1) }
    ensures exact { IfOk result (λ marks. (n : ℕ) → IsTrue (is_marked marks.items n) ↔ IsReached constraints lines.now n) }
{
    let last = constraints + lines.len();
    let mut marks = vec![in alloc; false; last + 1]?;
    marks[last] = true;
    for i in (0..lines.len()).rev() {
        if marks[constraints + i + 1] {
            mark(&mut marks, lines[i].hints.items());
        }
    }
    Ok(marks)
}

/// The marked numbers from 1 to a number, rising.
fn marked_up_to(alloc: Global, marks: &[bool], last: u32) -> Result<List<u32>, NoMemory>
    requires few { last ≤ 1000000000 }
    requires within { last < length marks.now }
    ensures exact { IfOk result (λ found. (n : ℕ) →
        Contains found n ↔ ((0 < n) × (n ≤ last) × IsTrue (is_marked marks.now n))) }
    ensures rising { IfOk result (λ found. IsStrictlyIncreasing found) }
{
    let mut found = List::new(alloc);
    for number in 1..last + 1 {
        if marks[number as usize] {
            found.push(number)?;
        }
    }
    Ok(found)
}

/// The numbers, from 1 and rising, of the constraints that the last line of a derivation goes back to: through all its
/// hints, and those of each line among them. Where that line's clause is empty, no assignment satisfies all of these
/// constraints. Its cost is near that of reading the hints.
pub fn used(
    alloc: Global,
    problem: &Problem,
    derivation: &Derivation,
) -> Result<List<u32>, NoMemory>
    requires constraints { length problem.now.constraints ≤ 1000000000 }
    requires lines { length derivation.now.lines ≤ 1000000000 }
    requires some { 0 < length derivation.now.lines }
    requires checks { CheckUpTo (length problem.now.labels) problem.now.constraints derivation.now.lines (length derivation.now.lines) }
    ensures exact { IfOk result (λ numbers. (n : ℕ) →
        Contains numbers n ↔ IsUsed (length problem.now.constraints) derivation.now.lines n) }
    ensures rising { IfOk result (λ numbers. IsStrictlyIncreasing numbers) }
    ensures refutes { IfOk result (λ numbers. EndsEmpty derivation.now.lines →
        IsUnsatisfiable (hinted (map at_least problem.now.constraints) numbers)) }
{
    let constraints = problem.constraints.len();
    let marks = reached(alloc, constraints, derivation.lines.items())?;
    marked_up_to(alloc, marks.as_slice(), constraints as u32)
}
