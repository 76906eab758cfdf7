ghost use Rattle.std.specs.Prelude.{◌≡◌, ◌↔◌, IfOk, IsTrue, Contains, nat_eq};
ghost use Rattle.std.specs.Option.{SomeIff};
ghost use Rattle.std.specs.Cmp.{partial_equiv_from_equiv, partial_order_from_agreeing_total};
ghost use Rattle.std.specs.Cmp.Lexicographic.{pointwise, slice_cmp, nat_list_cmp_total, nat_list_eq_equiv, texts_ties};
ghost use Rattle.std.specs.Ordering.{nat_cmp, as_partial_cmp};
ghost use Rattle.std.proofs.Common.{refl};
ghost use Rattle.folder_core.specs.Name.{IsName};

use osgi_version::{NoMemory, Text, Twin};
use std::cmp::Ordering;
use std::marker::Model;

const MOST_BYTES: usize = 255;

/// The name of a file, a directory or a link: 1 to 255 bytes of UTF-8 with no `/` and no NUL, and not `.` or `..`.
#[derive(Debug, Drop)]
pub struct Name {
    text: Text,
}

impl Model for Name {
    ghost use Rattle.std.specs.Prelude.{List, ℕ};
    ghost use Rattle.folder_core.specs.Name.{IsName};

    ghost Value = { List ℕ };

    ghost view = { λ a. a.text };

    ghost invariant = { λ a. IsName a.text };
}

impl Name {
    /// The name with this text. None exactly where the text is no name.
    pub fn new(text: &Text) -> Result<Option<Name>, NoMemory>
        ensures { IfOk result (λ name. SomeIff name (IsName text.now) text.now) }
    {
        if !is_name(text) {
            return Ok(None);
        }
        let text = text.copy()?;
        Ok(Some(Name { text }))
    }

    pub fn text(&self) -> &Text
        ensures value { result.now ≡ self.now }
        ensures name { IsName self.now }
    {
        &self.text
    }
}

fn has_byte(bytes: &[u8], byte: u8) -> bool
    ensures { IsTrue result ↔ Contains bytes.now byte }
{
    bytes.contains(&byte)
}

fn is_name(text: &Text) -> bool
    ensures { IsTrue result ↔ IsName text.now }
{
    let bytes = text.bytes();
    match bytes {
        [] | b"." | b".." => false,
        _ => bytes.len() <= MOST_BYTES && !has_byte(bytes, b'/') && !has_byte(bytes, 0),
    }
}

impl Twin for Name {
    fn copy(&self) -> Result<Name, NoMemory> {
        let text = self.text.copy()?;
        Ok(Name { text })
    }
}

impl PartialEq for Name {
    ghost eq = { pointwise nat_eq };

    ghost laws = { partial_equiv_from_equiv nat_list_eq_equiv };

    fn eq(&self, other: &Name) -> bool {
        self.text == other.text
    }
}

impl Eq for Name {
    ghost laws = { nat_list_eq_equiv };
}

/// By the bytes.
impl Ord for Name {
    ghost cmp = { slice_cmp nat_cmp };

    ghost total = { nat_list_cmp_total };

    ghost matches_partial_cmp = { λ a b. refl };

    ghost matches_eq = { texts_ties };

    fn cmp(&self, other: &Name) -> Ordering {
        self.text.bytes().cmp(other.text.bytes())
    }
}

impl PartialOrd for Name {
    ghost partial_cmp = { as_partial_cmp (slice_cmp nat_cmp) };

    ghost laws = { partial_order_from_agreeing_total (slice_cmp nat_cmp) nat_list_cmp_total (λ a b. refl) texts_ties };

    fn partial_cmp(&self, other: &Name) -> Option<Ordering> {
        Some(self.cmp(other))
    }
}
