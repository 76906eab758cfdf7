ghost use Rattle.std.specs.Prelude.{◌≡◌, ◌<◌, ◌≤◌, ◌+◌, ◌-◌, ◌++◌, ◌∷◌, [], ℕ, IsTrue, IfOk, OnOk, length, slice_index_or};
ghost use Rattle.pb_core.specs.ConstraintAt.{constraint_at};
ghost use Rattle.pb_core.specs.Slack.{IsViolated};
ghost use Rattle.pb_core.specs.Values.{is_false};
ghost use Rattle.deriv_check.specs.LineRule.{HasHints};
ghost use Rattle.pb_trail.specs.Along.{values_before};
ghost use Rattle.pb_trail.specs.Trail.{IsTrail};
ghost use Rattle.clause_learning.specs.Marks.{is_marked, ArePlaces, HasMarks, KeepsMarks, AddsBelow, KeepsOthers, KeepsFrom, HaveMarks};
ghost use Rattle.clause_learning.specs.Reasons.{IsForced, ReasonsFrom};
ghost use Rattle.clause_learning.specs.Explained.{IsExplained, IsCut};
ghost use Rattle.clause_learning.specs.Collected.{IsCollected};

use osgi_version::{List, NoMemory};
use pb_core::Lit;
use pb_trail::Trail;
use std::alloc::Global;

/// One analysis of a conflict. The entries from `top` on are resolved; of those before it the marked variables are the
/// ones that the conflict still rests on.
#[derive(Drop)]
pub(crate) struct Cut {
    /// Where a variable's entry stands.
    pub(crate) places: Vec<usize>,
    /// Marks by variable.
    pub(crate) seen: Vec<bool>,
    /// The constraints that were taken up, the conflict first.
    pub(crate) hints: Vec<u32>,
    pub(crate) top: usize,
    /// One above the first place that may be resolved down to.
    pub(crate) bottom: usize,
    /// One above the lowest marked place of those, where the analysis stops.
    pub(crate) stop: usize,
}

/// Where the entry of each variable stands, by variables from 0.
fn places(alloc: Global, trail: &Trail) -> Result<Vec<usize>, NoMemory>
    requires good { IsTrail trail.now }
    ensures size { IfOk result (λ v. length v.items ≡ length trail.now.kept.values + 1) }
    ensures places { IfOk result (λ v. ArePlaces trail.now.entries.items v.items) }
{
    let mut places = vec![in alloc; 0; trail.kept.values().len() + 1]?;
    for place in 0..trail.entries.len() {
        places[trail.entries[place].lit.variable as usize] = place;
    }
    Ok(places)
}

/// A stop, or a lower one that isn't below the bottom.
fn lowered(stop: usize, bottom: usize, lower: usize) -> usize
    ensures low { result ≤ stop }
    ensures here { bottom ≤ lower → result ≤ lower }
    ensures same { lower < bottom → result ≡ stop }
    ensures above { bottom ≤ stop → bottom ≤ result }
{
    if bottom <= lower {
        stop.min(lower)
    } else {
        stop
    }
}

impl Cut {
    /// Nothing marked.
    fn new(alloc: Global, trail: &Trail, bottom: usize, stop: usize) -> Result<Cut, NoMemory>
        requires good { IsTrail trail.now }
        requires below { bottom ≤ stop }
        ensures marks { IfOk result (HasMarks trail.now) }
        ensures none { IfOk result (λ cut. (v : ℕ) → ¬ (IsTrue (is_marked cut.seen.items v))) }
        ensures hints { IfOk result (λ cut. cut.hints.items ≡ []) }
        ensures top { IfOk result (λ cut. cut.top ≡ length trail.now.entries.items) }
        ensures bottom { IfOk result (λ cut. cut.bottom ≡ bottom) }
        ensures stop { IfOk result (λ cut. cut.stop ≡ stop) }
    {
        let places = places(alloc, trail)?;
        let seen = vec![in alloc; false; trail.kept.values().len() + 1]?;
        let hints = Vec::new(alloc);
        let top = trail.entries.len();
        Ok(Cut {
            places,
            seen,
            hints,
            top,
            bottom,
            stop,
        })
    }

    /// Marks a literal's variable, where the literal was false before a limit.
    fn mark(&mut self, trail: &Trail, lit: Lit, limit: usize)
        requires good { IsTrail trail.now }
        requires marks { HasMarks trail.now self.old }
        requires limit { limit ≤ self.old.top }
        requires from_one { 0 < lit.variable }
        requires within { lit.variable ≤ length trail.now.kept.values }
        ensures marks { HasMarks trail.now self.new }
        ensures keeps { KeepsMarks self.old self.new }
        ensures below { AddsBelow limit self.old self.new }
        ensures marked { IsTrue (is_false (values_before (length trail.now.kept.values) trail.now.entries.items limit) lit) → IsTrue (is_marked self.new.seen.items lit.variable) }
    {
        let place = self.places[lit.variable as usize];
        if place >= limit || !trail.kept.values().is_false(lit) {
            return;
        }
        self.seen[lit.variable as usize] = true;
        self.stop = lowered(self.stop, self.bottom, place + 1);
    }

    /// Marks each literal of a constraint that was false before a limit.
    fn mark_terms(&mut self, trail: &Trail, number: u32, limit: usize)
        requires good { IsTrail trail.now }
        requires marks { HasMarks trail.now self.old }
        requires limit { limit ≤ self.old.top }
        requires from_one { 0 < number }
        requires within { number ≤ length trail.now.kept.constraints }
        ensures marks { HasMarks trail.now self.new }
        ensures keeps { KeepsMarks self.old self.new }
        ensures below { AddsBelow limit self.old self.new }
        ensures marked { HaveMarks trail.now limit self.new.seen.items (constraint_at trail.now.kept.constraints number).terms (length (constraint_at trail.now.kept.constraints number).terms) }
    {
        for term in trail.kept.terms(number) {
            self.mark(trail, term.lit, limit);
        }
    }

    /// Takes up a violated constraint.
    fn begin(&mut self, trail: &Trail, conflict: u32) -> Result<(), NoMemory>
        requires good { IsTrail trail.now }
        requires marks { HasMarks trail.now self.old }
        requires from_one { 0 < conflict }
        requires within { conflict ≤ length trail.now.kept.constraints }
        requires violated { IsViolated trail.now.kept.values (constraint_at trail.now.kept.constraints conflict) }
        requires top { self.old.top ≡ length trail.now.entries.items }
        requires hints { self.old.hints.items ≡ [] }
        ensures cut { OnOk result (IsCut trail.now self.new) }
        ensures bottom { self.new.bottom ≡ self.old.bottom }
        ensures stop { self.new.stop ≤ self.old.stop }
        ensures top { self.new.top ≡ self.old.top }
    {
        self.hints.push(conflict)?;
        self.mark_terms(trail, conflict, self.top);
        Ok(())
    }

    /// Takes up the reason of a forced entry, in the place of its mark.
    fn resolve(&mut self, trail: &Trail, place: usize) -> Result<(), NoMemory>
        requires good { IsTrail trail.now }
        requires cut { IsCut trail.now self.old }
        requires below { place < self.old.top }
        requires forced { IsForced trail.now place }
        ensures cut { OnOk result (IsCut trail.now self.new) }
        ensures keeps { OnOk result (KeepsOthers trail.now place self.old self.new) }
        ensures bottom { self.new.bottom ≡ self.old.bottom }
    {
        let entry = trail.entries[place];
        self.hints.push(entry.reason)?;
        self.seen[entry.lit.variable as usize] = false;
        self.mark_terms(trail, entry.reason, place);
        Ok(())
    }

    /// Goes one entry down. The variable of one that is resolved is put behind those that were met.
    fn step(&mut self, trail: &Trail, met: &mut List<u32>) -> Result<(), NoMemory>
        requires good { IsTrail trail.now }
        requires cut { IsCut trail.now self.old }
        requires above { self.old.stop < self.old.top }
        requires reason { ReasonsFrom trail.now self.old.bottom }
        ensures cut { OnOk result (IsCut trail.now self.new) }
        ensures top { OnOk result (self.new.top + 1 ≡ self.old.top) }
        ensures bottom { self.new.bottom ≡ self.old.bottom }
        ensures stop { OnOk result (self.new.stop ≤ self.old.stop) }
    {
        let place = self.top - 1;
        if !self.seen[trail.entries[place].lit.variable as usize] {
            self.top = place;
            return Ok(());
        }
        met.push(trail.entries[place].lit.variable)?;
        self.resolve(trail, place)?;
        self.top = place;
        Ok(())
    }

    /// Resolves down to the stop.
    fn run(&mut self, trail: &Trail, met: &mut List<u32>) -> Result<(), NoMemory>
        requires good { IsTrail trail.now }
        requires cut { IsCut trail.now self.old }
        requires reason { ReasonsFrom trail.now self.old.bottom }
        ensures cut { OnOk result (IsCut trail.now self.new) }
        ensures done { OnOk result (self.new.top ≤ self.new.stop) }
        ensures bottom { self.new.bottom ≡ self.old.bottom }
        ensures stop { OnOk result (self.new.stop ≤ self.old.stop) }
    {
        while self.stop < self.top {
            self.step(trail, met)?;
        }
        Ok(())
    }

    /// Analyses a violated constraint down to the lowest marked place from one below `bottom` on, or to `stop`. The
    /// variables that are resolved are put behind those that were met.
    pub(crate) fn of(
        alloc: Global,
        trail: &Trail,
        conflict: u32,
        bottom: usize,
        stop: usize,
        met: &mut List<u32>,
    ) -> Result<Cut, NoMemory>
        requires good { IsTrail trail.now }
        requires from_one { 0 < conflict }
        requires within { conflict ≤ length trail.now.kept.constraints }
        requires violated { IsViolated trail.now.kept.values (constraint_at trail.now.kept.constraints conflict) }
        requires below { bottom ≤ stop }
        requires reason { ReasonsFrom trail.now bottom }
        ensures cut { IfOk result (IsCut trail.now) }
        ensures done { IfOk result (λ cut. cut.top ≤ cut.stop) }
        ensures bottom { IfOk result (λ cut. cut.bottom ≡ bottom) }
        ensures stop { IfOk result (λ cut. cut.stop ≤ stop) }
    {
        let mut cut = Cut::new(alloc, trail, bottom, stop)?;
        cut.begin(trail, conflict)?;
        cut.run(trail, met)?;
        Ok(cut)
    }

    /// Whether each literal of an entry's reason that was false before it is marked.
    fn is_covered(&self, trail: &Trail, place: usize) -> bool
        requires good { IsTrail trail.now }
        requires marks { HasMarks trail.now self.now }
        requires within { place < length trail.now.entries.items }
        requires forced { IsForced trail.now place }
    {
        for term in trail.kept.terms(trail.entries[place].reason) {
            let variable = term.lit.variable as usize;
            let earlier = self.places[variable] < place && trail.kept.values().is_false(term.lit);
            if earlier && !self.seen[variable] {
                return false;
            }
        }
        true
    }

    /// Takes a mark away whose entry follows from the other marks.
    fn shorten_at(&mut self, trail: &Trail, place: usize) -> Result<(), NoMemory>
        requires good { IsTrail trail.now }
        requires cut { IsCut trail.now self.old }
        requires below { place < self.old.top }
        requires early { place < self.old.bottom }
        ensures cut { OnOk result (IsCut trail.now self.new) }
        ensures keeps { OnOk result (KeepsFrom trail.now (place + 1) self.old self.new) }
    {
        let entry = trail.entries[place];
        if entry.reason == 0 || !self.seen[entry.lit.variable as usize] {
            return Ok(());
        }
        if !self.is_covered(trail, place) {
            return Ok(());
        }
        self.resolve(trail, place)?;
        Ok(())
    }

    /// Takes the marks of entries before a place away that follow from other marks. It goes down, so that a mark still
    /// stands when an entry behind it is looked at.
    pub(crate) fn shorten(&mut self, trail: &Trail, before: usize) -> Result<(), NoMemory>
        requires good { IsTrail trail.now }
        requires cut { IsCut trail.now self.old }
        requires below { before ≤ self.old.top }
        requires early { before ≤ self.old.bottom }
        ensures cut { OnOk result (IsCut trail.now self.new) }
        ensures keeps { OnOk result (KeepsFrom trail.now before self.old self.new) }
    {
        for place in (0..before).rev() {
            self.shorten_at(trail, place)?;
        }
        Ok(())
    }

    /// The complements of the marked literals, the latest first.
    pub(crate) fn clause(&self, alloc: Global, trail: &Trail) -> Result<List<Lit>, NoMemory>
        requires good { IsTrail trail.now }
        requires cut { IsCut trail.now self.now }
        ensures { IfOk result (IsCollected trail.now self.now 0) }
    {
        let mut lits = List::new(alloc);
        for place in (0..self.top).rev() {
            let lit = trail.entries[place].lit;
            if self.seen[lit.variable as usize] {
                lits.push(lit.complement())?;
            }
        }
        Ok(lits)
    }
}
