ghost use Rattle.std.specs.Prelude.{◌≡◌, ◌≤◌, ◌<◌, ◌++◌, ◌∷◌, [], All, length, OnOk, OnErr, IfErr};
ghost use Rattle.pb_core.specs.Normalised.{IsModerate};
ghost use Rattle.pb_rows.specs.Normalising.{Adds, AreTooMany, term_count};
ghost use Rattle.pb_rows.specs.declared.fault.EncodeFault.TheVariants as faults;

use crate::fault::EncodeFault;
use osgi_version::List;
use pb_core::{Constraint, Origin, SignedTerm, normalise};
use std::alloc::Global;
use std::marker::Model;

const MOST_TERMS: u64 = 4_000_000;

/// Constraints in the order in which their rows were added, with at most 4,000,000 terms.
#[derive(Drop)]
pub struct Constraints {
    list: List<Constraint>,
    terms: u64,
}

impl Model for Constraints {
    ghost use Rattle.std.specs.Prelude.{◌≡◌, ◌≤◌, List as Items};
    ghost use Rattle.pb_core.specs.declared.constraint.Constraint.{Constraint as Kept};
    ghost use Rattle.pb_rows.specs.Normalising.{term_count};

    ghost Value = { Items Kept };

    ghost view = { λ a. a.list };

    ghost invariant = { λ a. (a.terms ≡ term_count a.list) × (a.terms ≤ 4000000) };
}

impl Constraints {
    /// No constraint yet.
    pub fn new(alloc: Global) -> Constraints
        ensures { result ≡ [] }
    {
        Constraints {
            list: List::new(alloc),
            terms: 0,
        }
    }

    /// The constraints.
    pub fn into_list(self) -> List<Constraint>
        ensures value { result ≡ self }
        ensures few { term_count result ≤ 4000000 }
    {
        let Constraints { list, terms: _ } = self;
        list
    }

    /// The allocator that the constraints are kept by.
    pub fn allocator(&self) -> Global {
        self.list.allocator()
    }

    /// Adds the normal form of the row that the coefficients of the true literals sum to at least the degree, or
    /// nothing where every assignment satisfies it. Nothing is added where the row is refused.
    pub fn push(
        &mut self,
        terms: &List<SignedTerm>,
        degree: i64,
        origin: Origin,
    ) -> Result<(), EncodeFault>
        requires few { length terms.now ≤ 8194 }
        requires coefs { All (λ t. IsModerate t.coef) terms.now }
        requires degree { IsModerate degree }
        ensures added { OnOk result
            (Adds (record { terms = terms.now; degree = degree; origin = origin } ∷ []) self.old self.new) }
        ensures too_large { IfErr result (λ e. e ≡ faults.TooLarge →
            AreTooMany (record { terms = terms.now; degree = degree; origin = origin } ∷ []) self.old) }
        ensures refused { OnErr result (self.new ≡ self.old) }
    {
        match normalise(self.list.allocator(), terms, degree, origin)? {
            Some(constraint) => self.keep(constraint),
            None => Ok(()),
        }
    }

    fn keep(&mut self, constraint: Constraint) -> Result<(), EncodeFault>
        ensures kept { OnOk result (self.new ≡ self.old ++ constraint ∷ []) }
        ensures too_large { IfErr result (λ e. e ≡ faults.TooLarge → 4000000 < term_count (self.old ++ constraint ∷ [])) }
        ensures refused { OnErr result (self.new ≡ self.old) }
    {
        let more = constraint.terms.len() as u64;
        if MOST_TERMS - self.terms < more {
            return Err(EncodeFault::TooLarge);
        }
        self.list.push(constraint)?;
        self.terms += more;
        Ok(())
    }
}
