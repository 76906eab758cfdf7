ghost use Rattle.std.specs.Prelude.{◌≡◌, ◌<◌, ◌≤◌, IfSome, length};

use osgi_version::NoMemory;
use std::alloc::Global;

/// How much of its own size the gain grows by at each conflict: one part in so many.
const GROWTH: u64 = 64;

/// Above this gain all activities are scaled down.
const MOST_GAIN: u64 = 1 << 50;

/// By how many bits.
const SCALE: u32 = 40;

/// Variables by activity, the most active first: a binary heap that knows where each variable stands. It is a hint, so
/// nothing rests on its order, and a place that doesn't exist is passed over.
#[derive(Drop)]
pub(crate) struct Ranking {
    heap: Vec<u32>,
    /// One above the place of each variable in the heap, or 0 where it isn't there.
    places: Vec<usize>,
    activities: Vec<u64>,
    /// What a variable's activity grows by. It grows itself, so that later conflicts count for more.
    gain: u64,
}

impl Ranking {
    /// No variable yet, and room for those from 1 to a number.
    pub(crate) fn new(alloc: Global, variables: u32) -> Result<Ranking, NoMemory>
        requires { variables ≤ 1000000000 }
    {
        let count = variables as usize + 1;
        let heap = Vec::with_capacity(alloc, count)?;
        let places = vec![in alloc; 0; count]?;
        let activities = vec![in alloc; 0; count]?;
        let gain = 1024;
        Ok(Ranking {
            heap,
            places,
            activities,
            gain,
        })
    }

    /// The variable at a place of the heap, or 0.
    fn at(&self, place: usize) -> u32 {
        self.heap.get(place).copied().unwrap_or(0)
    }

    /// The activity of the variable at a place of the heap.
    fn activity_at(&self, place: usize) -> u64 {
        self.activities
            .get(self.at(place) as usize)
            .copied()
            .unwrap_or(0)
    }

    fn place_of(&self, variable: u32) -> usize {
        self.places.get(variable as usize).copied().unwrap_or(0)
    }

    fn note_place(&mut self, variable: u32, place: usize)
        ensures { self.new.heap ≡ self.old.heap }
    {
        if (variable as usize) < self.places.len() {
            self.places[variable as usize] = place;
        }
    }

    /// Puts a variable at a place of the heap.
    fn put(&mut self, place: usize, variable: u32)
        ensures { length self.new.heap.items ≡ length self.old.heap.items }
    {
        if place < self.heap.len() {
            self.heap[place] = variable;
        }
        self.note_place(variable, place.saturating_add(1));
    }

    /// Lets the variables at two places change places.
    fn exchange(&mut self, one: usize, other: usize)
        ensures { length self.new.heap.items ≡ length self.old.heap.items }
    {
        let first = self.at(one);
        let second = self.at(other);
        self.put(one, second);
        self.put(other, first);
    }

    /// Moves the variable at a place up past less active ones.
    fn rise(&mut self, from: usize) {
        let mut place = from;
        while place > 0 {
            let parent = (place - 1) / 2;
            if self.activity_at(parent) >= self.activity_at(place) {
                return;
            }
            self.exchange(parent, place);
            place = parent;
        }
    }

    /// The more active of the two places below one, if there is any.
    fn child(&self, place: usize) -> Option<usize>
        ensures { IfSome result (λ child. (place < child) × (child < length self.now.heap.items)) }
    {
        let left = place.checked_mul(2)?.checked_add(1)?;
        if left >= self.heap.len() {
            return None;
        }
        let right = left + 1;
        if right < self.heap.len() && self.activity_at(right) > self.activity_at(left) {
            return Some(right);
        }
        Some(left)
    }

    /// Moves the variable at the first place down past more active ones.
    fn sink(&mut self)
        ensures { length self.new.heap.items ≡ length self.old.heap.items }
    {
        let mut place = 0;
        while let Some(child) = self.child(place) {
            if self.activity_at(place) >= self.activity_at(child) {
                return;
            }
            self.exchange(place, child);
            place = child;
        }
    }

    /// Enters a variable that isn't there. There is room for each variable once, so this takes no memory.
    pub(crate) fn enter(&mut self, variable: u32) {
        if self.place_of(variable) > 0 {
            return;
        }
        let place = self.heap.len();
        if self.heap.push(variable).is_err() {
            return;
        }
        self.put(place, variable);
        self.rise(place);
    }

    /// Takes the most active variable.
    pub(crate) fn pop(&mut self) -> Option<u32>
        ensures { IfSome result (λ variable. length self.new.heap.items < length self.old.heap.items) }
    {
        let first = self.at(0);
        let last = self.heap.pop()?;
        self.put(0, last);
        self.note_place(first, 0);
        self.sink();
        Some(first)
    }

    /// Makes a variable more active.
    pub(crate) fn raise(&mut self, variable: u32) {
        if (variable as usize) < self.activities.len() {
            let activity = self.activities[variable as usize];
            self.activities[variable as usize] = activity.saturating_add(self.gain);
        }
        let place = self.place_of(variable);
        if place > 0 {
            self.rise(place - 1);
        }
    }

    /// Makes the gain greater, and once it is too great scales all down.
    pub(crate) fn age(&mut self) {
        self.gain = self.gain.saturating_add(self.gain / GROWTH);
        if self.gain <= MOST_GAIN {
            return;
        }
        self.gain >>= SCALE;
        for variable in 0..self.activities.len() {
            self.activities[variable] >>= SCALE;
        }
    }
}
