//! Numbers by the hashes of what they are looked up by.

ghost use Rattle.std.specs.Prelude.{◌≡◌, ℕ, ◌+◌, ◌<◌, Contains, OnOk};
ghost use Rattle.unit_catalog.specs.Listed.{listed, IsRising, RisesBelow, AreRising, Keeps, KeepsBelow};

use osgi_version::NoMemory;
use std::alloc::{AllocError, Global};
use std::collections::BTreeMap;

/// Numbers of units by a hash, rising at each. A number may stand where its unit doesn't belong, so each is looked at.
#[derive(Drop)]
pub(crate) struct Index {
    numbers: BTreeMap<u64, Vec<u32>>,
}

impl Index {
    pub(crate) fn new(alloc: Global) -> Index
        ensures { AreRising 0 result }
    {
        Index {
            numbers: BTreeMap::new(alloc),
        }
    }

    /// The numbers at a key, rising.
    pub(crate) fn numbers(&self, key: u64) -> &[u32]
        ensures { result.now ≡ listed self.now key }
    {
        match self.numbers.get(&key) {
            Some(numbers) => numbers.as_slice(),
            None => &[],
        }
    }

    /// Puts the number to those at the key. No greater one is there.
    pub(crate) fn put(&mut self, alloc: Global, key: u64, number: u32) -> Result<(), NoMemory>
        requires { AreRising (number + 1) self.old }
        ensures has { OnOk result (Contains (listed self.new key) number) }
        ensures rising { AreRising (number + 1) self.new }
        ensures kept { Keeps self.old self.new }
    {
        match self.numbers.get_mut(&key) {
            Some(numbers) => push_new(numbers, number)?,
            None => {
                let mut numbers = Vec::new(alloc);
                numbers.push(number)?;
                self.numbers.insert(key, numbers)?;
            }
        }
        Ok(())
    }

    /// Takes the number from those at the key, where it is the last of them.
    pub(crate) fn take_out(&mut self, key: u64, number: u32)
        requires { AreRising (number + 1) self.old }
        ensures rising { AreRising (number + 1) self.new }
        ensures kept { KeepsBelow number self.old self.new }
    {
        if let Some(numbers) = self.numbers.get_mut(&key) {
            pop_number(numbers, number);
        }
    }
}

/// Puts the number at the end, unless it is there.
fn push_new(numbers: &mut Vec<u32>, number: u32) -> Result<(), AllocError>
    requires { RisesBelow (number + 1) numbers.old.items }
    ensures has { OnOk result (Contains numbers.new.items number) }
    ensures rising { RisesBelow (number + 1) numbers.new.items }
    ensures kept { (n : ℕ) → Contains numbers.old.items n → Contains numbers.new.items n }
{
    if numbers.last().copied() != Some(number) {
        numbers.push(number)?;
    }
    Ok(())
}

/// Takes the number from the end, if it is there.
fn pop_number(numbers: &mut Vec<u32>, number: u32)
    requires { RisesBelow (number + 1) numbers.old.items }
    ensures rising { RisesBelow (number + 1) numbers.new.items }
    ensures kept { (n : ℕ) → n < number → Contains numbers.old.items n → Contains numbers.new.items n }
{
    if numbers.last().copied() == Some(number) {
        numbers.pop();
    }
}
