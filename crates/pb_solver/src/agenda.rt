ghost use Rattle.std.specs.Prelude.{◌≡◌, ◌<◌, ◌≤◌, ◌+◌, ◌↔◌, ℕ, false, All, IfOk, IfSome, IsTrue, MatchOption, length, slice_index_or};
ghost use Rattle.pb_solver.specs.Values.{IsUnassigned, AreAssigned};
ghost use Rattle.pb_solver.specs.Wanted.{is_wanted};

use crate::pace::Pace;
use crate::ranking::Ranking;
use osgi_version::NoMemory;
use pb_core::{Assignment, Lit};
use pb_trail::Entry;
use std::alloc::Global;

/// The order in which variables are tried, their last values, and when to begin again. It is a hint: what it proposes is
/// tested, and where it has nothing more to propose, all variables are looked at.
#[derive(Drop)]
pub(crate) struct Agenda {
    /// Those whose values were taken back.
    ranking: Ranking,
    /// Then these. Those before `next` have values, or are in the ranking.
    sequence: Vec<u32>,
    next: usize,
    /// The last value of each variable, by variables from 0.
    values: Vec<bool>,
    pace: Pace,
}

/// Whether the number is that of an open variable.
fn is_unassigned(values: &Assignment, variable: u32) -> bool
    ensures { IsTrue result ↔ IsUnassigned values.now variable }
{
    variable > 0 && variable as usize <= values.len() && values.value(variable).is_none()
}

/// The first open variable, if there is one. Looks at all.
fn first_open(values: &Assignment) -> Option<u32>
    requires { length values.now ≤ 1000000000 }
    ensures { MatchOption result (AreAssigned values.now) (IsUnassigned values.now) }
{
    for variable in 1..values.len() as u32 + 1 {
        if is_unassigned(values, variable) {
            return Some(variable);
        }
    }
    None
}

impl Agenda {
    /// First the variables of a list, then all from 1 to a number.
    pub(crate) fn new(alloc: Global, first: &[u32], variables: u32) -> Result<Agenda, NoMemory>
        requires { variables ≤ 1000000000 }
    {
        let mut sequence = first.to_vec(alloc)?;
        for variable in 1..variables + 1 {
            sequence.push(variable)?;
        }
        let values = vec![in alloc; false; variables as usize + 1]?;
        let ranking = Ranking::new(alloc, variables)?;
        let next = 0;
        let pace = Pace::new();
        Ok(Agenda {
            ranking,
            sequence,
            next,
            values,
            pace,
        })
    }

    /// The last value of a variable, or false.
    pub(crate) fn last_value(&self, variable: u32) -> bool {
        self.values.get(variable as usize).copied().unwrap_or(false)
    }

    /// Notes that an entry is taken back.
    fn enter(&mut self, lit: Lit) {
        if (lit.variable as usize) < self.values.len() {
            self.values[lit.variable as usize] = lit.positive;
        }
        self.ranking.enter(lit.variable);
    }

    /// Notes that the entries from a place on are taken back.
    fn enter_all(&mut self, entries: &[Entry], from: usize) {
        for place in from..entries.len() {
            self.enter(entries[place].lit);
        }
    }

    /// Makes variables more active that a conflict rests on.
    fn raise_all(&mut self, variables: &[u32]) {
        for variable in variables {
            self.ranking.raise(*variable);
        }
        self.ranking.age();
    }

    /// Takes note of a conflict that rests on these variables, and that takes at least the entries from a floor on back.
    /// The floor, or 0 where it is time to begin again.
    pub(crate) fn note_conflict(
        &mut self,
        variables: &[u32],
        entries: &[Entry],
        floor: usize,
    ) -> usize
        ensures { result ≤ floor }
    {
        let floor = if self.pace.is_over() { 0 } else { floor };
        self.raise_all(variables);
        self.enter_all(entries, floor);
        floor
    }

    /// The most active variable that is open.
    fn next_ranked(&mut self, values: &Assignment) -> Option<u32>
        ensures { IfSome result (IsUnassigned values.now) }
    {
        while let Some(variable) = self.ranking.pop() {
            if is_unassigned(values, variable) {
                return Some(variable);
            }
        }
        None
    }

    /// The first open variable of the sequence. All calls together look once at each.
    fn next_of_sequence(&mut self, values: &Assignment) -> Option<u32>
        ensures { IfSome result (IsUnassigned values.now) }
    {
        while self.next < self.sequence.len() {
            let variable = self.sequence[self.next];
            self.next += 1;
            if is_unassigned(values, variable) {
                return Some(variable);
            }
        }
        None
    }

    /// The next open variable, if there is one.
    pub(crate) fn next_open(&mut self, values: &Assignment) -> Option<u32>
        requires { length values.now ≤ 1000000000 }
        ensures { MatchOption result (AreAssigned values.now) (IsUnassigned values.now) }
    {
        if let Some(variable) = self.next_ranked(values) {
            return Some(variable);
        }
        if let Some(variable) = self.next_of_sequence(values) {
            return Some(variable);
        }
        let found = first_open(values);
        found
    }
}

/// Which variables are in a list, by variables from 0.
pub(crate) fn marks(alloc: Global, order: &[u32], variables: u32) -> Result<Vec<bool>, NoMemory>
    requires few { variables ≤ 1000000000 }
    requires among { All (λ v. (0 < v) × (v ≤ variables)) order.now }
    ensures size { IfOk result (λ marks. length marks.items ≡ variables + 1) }
    ensures marks { IfOk result (λ marks. (v : ℕ) → slice_index_or marks.items v false ≡ is_wanted order.now v) }
{
    let mut marks = vec![in alloc; false; variables as usize + 1]?;
    for variable in order {
        marks[*variable as usize] = true;
    }
    Ok(marks)
}
