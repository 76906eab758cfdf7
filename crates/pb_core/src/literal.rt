use osgi_version::{NoMemory, Twin};

/// A variable, numbered from 1, or its complement.
#[derive(Clone, Copy, Debug, PartialEq, Eq)]
pub struct Lit {
    pub variable: u32,
    pub positive: bool,
}

impl Lit {
    ghost use Rattle.std.specs.Prelude.{◌≡◌};
    ghost use Rattle.pb_core.specs.Literal.{complement};

    /// The literal that is true exactly where this one is false.
    pub fn complement(self) -> Lit
        ensures { result ≡ complement self }
    {
        Lit {
            variable: self.variable,
            positive: !self.positive,
        }
    }
}

/// A literal with what it adds to a sum where it is true.
#[derive(Clone, Copy, Debug, PartialEq, Eq)]
pub struct Term {
    pub coef: u64,
    pub lit: Lit,
}

/// The same with a coefficient that may be negative.
#[derive(Clone, Copy, Debug, PartialEq, Eq)]
pub struct SignedTerm {
    pub coef: i64,
    pub lit: Lit,
}

impl Twin for Lit {
    fn copy(&self) -> Result<Lit, NoMemory> {
        Ok(*self)
    }
}

impl Twin for Term {
    fn copy(&self) -> Result<Term, NoMemory> {
        Ok(*self)
    }
}

impl Twin for SignedTerm {
    fn copy(&self) -> Result<SignedTerm, NoMemory> {
        Ok(*self)
    }
}
