ghost use Rattle.std.specs.Prelude.{◌≡◌, ◌≤◌, length, nat_eq};
ghost use Rattle.std.specs.Option.{SomeIff};
ghost use Rattle.std.specs.Cmp.Lexicographic.{pointwise, nat_list_eq_equiv};
ghost use Rattle.std.specs.Cmp.{partial_equiv_from_equiv};

use osgi_version::{List, NoMemory, Twin};
use std::marker::Model;

const MOST_BYTES: usize = 67_174_400;

/// What a file holds: at most 67,174,400 bytes, which are 64 MiB and 64 KiB.
#[derive(Debug, Drop)]
pub struct Blob {
    bytes: List<u8>,
}

impl Model for Blob {
    ghost use Rattle.std.specs.Prelude.{List, ℕ, ◌≤◌, length};

    ghost Value = { List ℕ };

    ghost view = { λ a. a.bytes };

    ghost invariant = { λ a. length a.bytes ≤ 67174400 };
}

impl Blob {
    /// None exactly where there are too many bytes.
    pub fn new(bytes: List<u8>) -> Option<Blob>
        ensures { SomeIff result (length bytes ≤ 67174400) bytes }
    {
        if bytes.len() > MOST_BYTES {
            return None;
        }
        Some(Blob { bytes })
    }

    pub fn bytes(&self) -> &[u8]
        ensures value { result.now ≡ self.now }
        ensures short { length self.now ≤ 67174400 }
    {
        self.bytes.items()
    }
}

impl Twin for Blob {
    fn copy(&self) -> Result<Blob, NoMemory> {
        let bytes = self.bytes.copy()?;
        Ok(Blob { bytes })
    }
}

impl PartialEq for Blob {
    ghost eq = { pointwise nat_eq };

    ghost laws = { partial_equiv_from_equiv nat_list_eq_equiv };

    fn eq(&self, other: &Blob) -> bool {
        self.bytes == other.bytes
    }
}

impl Eq for Blob {
    ghost laws = { nat_list_eq_equiv };
}
