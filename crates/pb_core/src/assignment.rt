ghost use Rattle.std.specs.Prelude.{◌≡◌, ◌<◌, ◌≤◌, ◌↔◌, length, replicate, None, IfOk, IsTrue};
ghost use Rattle.pb_core.specs.Values.{value_of, set_value, is_true, is_false, is_open};
ghost use Rattle.pb_core.specs.Literal.{same_truth};

use crate::literal::Lit;
use osgi_version::{NoMemory, Twin};
use std::alloc::Global;
use std::marker::Model;

/// Values of variables from 1 to a number. A variable without a value is open.
#[derive(Debug, Drop)]
pub struct Assignment {
    values: Vec<Option<bool>>,
}

impl Model for Assignment {
    ghost use Rattle.std.specs.Prelude.{List, Option, Bool};

    ghost Value = { List (Option Bool) };

    ghost view = { λ a. a.values.items };
}

fn has_truth(value: bool, truth: bool) -> bool
    ensures { result ≡ same_truth value truth }
{
    value == truth
}

impl Assignment {
    /// All variables from 1 to this number, each open.
    pub fn new(alloc: Global, variables: u32) -> Result<Assignment, NoMemory>
        ensures { IfOk result (λ values. values ≡ replicate variables None) }
    {
        Ok(Assignment {
            values: vec![in alloc; None; variables as usize]?,
        })
    }

    /// How many variables there are.
    pub fn len(&self) -> usize
        ensures { result ≡ length self.now }
    {
        self.values.len()
    }

    pub fn is_empty(&self) -> bool
        ensures { IsTrue result ↔ (length self.now ≡ 0) }
    {
        self.values.is_empty()
    }

    /// The value of a variable, numbered from 1.
    pub fn value(&self, variable: u32) -> Option<bool>
        requires from_one { 0 < variable }
        requires within { variable ≤ length self.now }
        ensures { result ≡ value_of self.now variable }
    {
        self.values[variable as usize - 1]
    }

    /// Whether the literal is true. It is neither true nor false where its variable is open.
    pub fn is_true(&self, lit: Lit) -> bool
        requires from_one { 0 < lit.variable }
        requires within { lit.variable ≤ length self.now }
        ensures { result ≡ is_true self.now lit }
    {
        match self.value(lit.variable) {
            Some(value) => has_truth(value, lit.positive),
            None => false,
        }
    }

    /// Whether the literal is false.
    pub fn is_false(&self, lit: Lit) -> bool
        requires from_one { 0 < lit.variable }
        requires within { lit.variable ≤ length self.now }
        ensures { result ≡ is_false self.now lit }
    {
        self.is_true(lit.complement())
    }

    /// Whether the literal's variable has no value.
    pub fn is_open(&self, lit: Lit) -> bool
        requires from_one { 0 < lit.variable }
        requires within { lit.variable ≤ length self.now }
        ensures { result ≡ is_open self.now lit }
    {
        self.value(lit.variable).is_none()
    }

    /// Gives a variable this value, or makes it open.
    pub fn set(&mut self, variable: u32, value: Option<bool>)
        requires from_one { 0 < variable }
        requires within { variable ≤ length self.old }
        ensures { self.new ≡ set_value self.old variable value }
    {
        self.values[variable as usize - 1] = value;
    }
}

impl Twin for Assignment {
    fn copy(&self) -> Result<Assignment, NoMemory> {
        Ok(Assignment {
            values: self.values.as_slice().to_vec(*self.values.allocator())?,
        })
    }
}

impl PartialEq for Assignment {
    ghost use Rattle.pb_core.specs.TruthEquality.{values_eq, values_partial_equiv};

    ghost eq = { values_eq };

    ghost laws = { values_partial_equiv };

    fn eq(&self, other: &Assignment) -> bool {
        self.values == other.values
    }
}

impl Eq for Assignment {
    ghost use Rattle.pb_core.specs.TruthEquality.{values_equiv};

    ghost laws = { values_equiv };
}
