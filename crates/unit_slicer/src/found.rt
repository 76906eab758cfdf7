ghost use Rattle.std.specs.Prelude.{◌≡◌, ◌≢◌, ℕ, ◌<◌, ◌≤◌, [], length, Ok, Err, IfOk, OnOk, AllPairs, slice_get, ◌↔◌, IsTrue, Contains};
ghost use Rattle.unit_slicer.specs.Found.{Numbers, Adds, AreTooMany};
ghost use Rattle.unit_slicer.specs.declared.fault.SliceFault.TheVariants as faults;

use crate::fault::SliceFault;
use std::alloc::{AllocError, Global};
use std::marker::Model;

const MOST_UNITS: usize = 8_192;

/// The units that were found so far, by their numbers: at most 8,192, each once, in the order in which they were found.
#[derive(Drop)]
pub(crate) struct Found {
    numbers: Vec<u32>,
    /// Whether each unit of the catalog was found, by its number.
    seen: Vec<bool>,
}

impl Model for Found {
    ghost use Rattle.std.specs.Prelude.{length};
    ghost use Rattle.unit_slicer.specs.Found.{Numbers, AreMarked};

    ghost Value = { Numbers };

    ghost view = { λ a. record { units = length a.seen.items; found = a.numbers.items } };

    ghost invariant = { λ a. AreMarked a.numbers.items a.seen.items };
}

impl Found {
    /// None of so many units.
    pub(crate) fn new(alloc: Global, units: u32) -> Result<Found, AllocError>
        ensures { IfOk result (λ found. found ≡ record { units = units; found = [] }) }
    {
        let seen = vec![in alloc; false; units as usize]?;
        Ok(Found {
            numbers: Vec::new(alloc),
            seen,
        })
    }

    /// The number that was found at this place.
    pub(crate) fn get(&self, place: usize) -> Option<u32>
        ensures value { result ≡ slice_get self.now.found place }
        ensures few { length self.now.found ≤ 8192 }
    {
        self.numbers.get(place).copied()
    }

    /// Whether the number was found.
    pub(crate) fn has(&self, number: u32) -> bool
        ensures { IsTrue result ↔ Contains self.now.found number }
    {
        (number as usize) < self.seen.len() && self.seen[number as usize]
    }

    /// Adds the number, unless it was found before.
    pub(crate) fn add(&mut self, number: u32) -> Result<(), SliceFault>
        requires { number < self.old.units }
        ensures ok { OnOk result (Adds (λ n. n ≡ number) self.old self.new) }
        ensures too_large { result ≡ Err faults.TooLarge → AreTooMany (λ n. n ≡ number) self.old }
    {
        if self.seen[number as usize] {
            return Ok(());
        }
        if self.numbers.len() == MOST_UNITS {
            return Err(SliceFault::TooLarge);
        }
        self.numbers.push(number)?;
        self.seen[number as usize] = true;
        Ok(())
    }

    pub(crate) fn into_numbers(self) -> Vec<u32>
        ensures value { result.items ≡ self.found }
        ensures few { length self.found ≤ 8192 }
        ensures distinct { AllPairs (λ m n. m ≢ n) self.found }
    {
        self.numbers
    }
}
