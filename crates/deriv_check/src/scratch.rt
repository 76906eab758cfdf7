ghost use Rattle.std.specs.Prelude.{◌≡◌, ◌<◌, ◌≤◌, length, replicate, None, IfOk, OnOk};
ghost use Rattle.pb_core.specs.Values.{make_true};

use osgi_version::NoMemory;
use pb_core::{Assignment, Lit};
use std::alloc::Global;
use std::marker::Model;

/// Values for one line. The trail has the variables that were given one, so that a line costs what it assigns.
#[derive(Drop)]
pub(crate) struct Scratch {
    values: Assignment,
    trail: Vec<u32>,
}

impl Model for Scratch {
    ghost use Rattle.std.specs.Prelude.{List, Option, Bool};
    ghost use Rattle.deriv_check.specs.Trail.{Covers};

    ghost Value = { List (Option Bool) };

    ghost view = { λ s. s.values };

    ghost invariant = { λ s. Covers s.values s.trail.items };
}

impl Scratch {
    /// All variables open.
    pub(crate) fn new(alloc: Global, variables: u32) -> Result<Scratch, NoMemory>
        ensures { IfOk result (λ scratch. scratch ≡ replicate variables None) }
    {
        let values = Assignment::new(alloc, variables)?;
        Ok(Scratch {
            values,
            trail: Vec::new(alloc),
        })
    }

    pub(crate) fn values(&self) -> &Assignment
        ensures { result.now ≡ self.now }
    {
        &self.values
    }

    pub(crate) fn make_true(&mut self, lit: Lit) -> Result<(), NoMemory>
        requires from_one { 0 < lit.variable }
        requires within { lit.variable ≤ length self.old }
        ensures ok { OnOk result (self.new ≡ make_true self.old lit) }
        ensures size { length self.new ≡ length self.old }
    {
        self.trail.push(lit.variable)?;
        self.values.set(lit.variable, Some(lit.positive));
        Ok(())
    }

    /// All variables open again.
    pub(crate) fn clear(&mut self)
        ensures { self.new ≡ replicate (length self.old) None }
    {
        while let Some(variable) = self.trail.pop() {
            self.values.set(variable, None);
        }
    }
}
