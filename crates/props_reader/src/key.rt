ghost use Rattle.std.specs.Prelude.{nat_eq};
ghost use Rattle.std.specs.Cmp.Lexicographic.{pointwise};
ghost use Rattle.std.specs.Cmp.Rules.{hashing};
ghost use Rattle.std.proofs.Common.{rules};
ghost use Rattle.std.specs.Hash as fed;

use osgi_version::Text;
use std::hash::{Hash, Hasher};

/// A key that can be looked up.
#[derive(PartialEq, Eq, Drop)]
pub(crate) struct Key {
    pub(crate) text: Text,
}

impl Hash for Key {
    ghost hash_input = { λ key. fed.str key.text };

    ghost respects_eq = { Prim.search (hashing, rules) };

    fn hash<H: Hasher>(&self, state: &mut H) {
        self.text.as_str().hash(state);
    }
}
