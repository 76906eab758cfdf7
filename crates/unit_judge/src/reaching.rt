//! Units that are reached one after the other.

ghost use Rattle.std.specs.Prelude.{◌≡◌, ◌↔◌, ℕ, ◌<◌, [], IsTrue, IfOk, OnOk, length, Contains};
ghost use Rattle.unit_catalog.specs.Order.{AreInOrder};
ghost use Rattle.unit_judge.specs.Leading.{Takes, LeadsToAt, FollowsAt, IsRootAt};

use crate::members::place_of;
use crate::needs::asks;
use ldap_filter::Env;
use osgi_version::NoMemory;
use std::alloc::{AllocError, Global};
use unit_catalog::ProviderIndex;
use unit_model::{Required, Unit, UnitName};

/// A mark for each unit, and the numbers of the marked ones in the order in which they were reached.
#[derive(Drop)]
pub(crate) struct Reached {
    pub(crate) marks: Vec<bool>,
    pub(crate) order: Vec<usize>,
}

/// Whether the requirement leads to what matches it.
fn takes(required: &Required, env: &Env) -> bool
    ensures { IsTrue result ↔ Takes env.now required.now }
{
    asks(required, env) && 0 < required.max
}

impl Reached {
    ghost use Rattle.unit_judge.specs.Reaching.{IsMarked, IsListed, Marks, HasMarked};

    /// Nothing is reached, of so many units.
    pub(crate) fn new(alloc: Global, count: usize) -> Result<Reached, AllocError>
        ensures size { IfOk result (λ reached. length reached.marks.items ≡ count) }
        ensures none { IfOk result (λ reached. (n : ℕ) → ¬ (IsMarked reached.marks.items n)) }
        ensures listed { IfOk result IsListed }
    {
        let marks = vec![in alloc; false; count]?;
        let order = Vec::new(alloc);
        Ok(Reached { marks, order })
    }

    fn is_open(&self, number: usize) -> bool
        ensures { IsTrue result ↔ ((number < length self.now.marks.items) × ¬ (IsMarked self.now.marks.items number)) }
    {
        number < self.marks.len() && !self.marks[number]
    }

    /// Marks the number, unless it is marked.
    fn reach(&mut self, number: usize) -> Result<(), AllocError>
        ensures marks { OnOk result (Marks (λ n. n ≡ number) self.old self.new) }
        ensures has { OnOk result (HasMarked (λ n. n ≡ number) self.new) }
    {
        if self.is_open(number) {
            self.order.push(number)?;
            self.marks[number] = true;
        }
        Ok(())
    }

    /// Marks the units that the requirement leads to.
    fn reach_providers(
        &mut self,
        alloc: Global,
        index: &ProviderIndex<'_>,
        required: &Required,
        env: &Env,
    ) -> Result<(), NoMemory>
        ensures marks { OnOk result (Marks (LeadsToAt index.now env.now required.now) self.old self.new) }
        ensures has { OnOk result (HasMarked (LeadsToAt index.now env.now required.now) self.new) }
    {
        if !takes(required, env) {
            return Ok(());
        }
        let providers = index.providers(alloc, required)?;
        self.reach_all(providers.items())?;
        Ok(())
    }

    fn reach_all(&mut self, numbers: &[u32]) -> Result<(), AllocError>
        ensures marks { OnOk result (Marks (Contains numbers.now) self.old self.new) }
        ensures has { OnOk result (HasMarked (Contains numbers.now) self.new) }
    {
        for number in numbers {
            self.reach(*number as usize)?;
        }
        Ok(())
    }

    /// Marks the units that the unit leads to.
    pub(crate) fn follow(
        &mut self,
        alloc: Global,
        index: &ProviderIndex<'_>,
        unit: &Unit,
        env: &Env,
    ) -> Result<(), NoMemory>
        ensures marks { OnOk result (Marks (FollowsAt index.now env.now unit.now) self.old self.new) }
        ensures has { OnOk result (HasMarked (FollowsAt index.now env.now unit.now) self.new) }
    {
        for required in unit.required.items() {
            self.reach_providers(alloc, index, required, env)?;
        }
        Ok(())
    }

    /// Marks the units that are roots.
    pub(crate) fn reach_roots(
        &mut self,
        units: &[Unit],
        roots: &[UnitName],
    ) -> Result<(), AllocError>
        requires { AreInOrder units.now }
        ensures marks { OnOk result (Marks (IsRootAt units.now roots.now) self.old self.new) }
        ensures has { OnOk result (HasMarked (IsRootAt units.now roots.now) self.new) }
    {
        for root in roots {
            if let Some(place) = place_of(units, root) {
                self.reach(place)?;
            }
        }
        Ok(())
    }
}
