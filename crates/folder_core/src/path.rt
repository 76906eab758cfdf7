ghost use Rattle.std.specs.Prelude.{◌≡◌, [], IfOk, OnErr, MatchOption, nat_eq};
ghost use Rattle.std.specs.Cmp.{partial_equiv_from_equiv, partial_order_from_agreeing_total};
ghost use Rattle.std.specs.Cmp.Lexicographic.{pointwise, slice_cmp, nat_list_cmp_total, nat_list_eq_equiv, lists_equiv, lists_ties, lists_total, texts_ties};
ghost use Rattle.std.specs.Ordering.{nat_cmp, as_partial_cmp};
ghost use Rattle.std.proofs.Common.{refl};
ghost use Rattle.folder_core.specs.Path.{IsPath, path_text, IsPathOf, HasNoPath, Pushes};

use crate::name::Name;
use osgi_version::{List, NoMemory, Text, Twin};
use std::alloc::Global;
use std::cmp::Ordering;
use std::marker::Model;

const MOST_NAMES: usize = 64;

/// A place in a folder or a tree: at most 64 names from the root down. The root has none.
#[derive(Debug, Drop)]
pub struct Path {
    alloc: Global,
    names: List<Name>,
}

impl Model for Path {
    ghost use Rattle.std.specs.Prelude.{List, ℕ};
    ghost use Rattle.folder_core.specs.Path.{IsPath};

    ghost Value = { List (List ℕ) };

    ghost view = { λ a. a.names };

    ghost invariant = { λ a. IsPath a.names };
}

impl Path {
    pub fn root(alloc: Global) -> Path
        ensures { result ≡ [] }
    {
        Path {
            alloc,
            names: List::new(alloc),
        }
    }

    /// Adds a name at the end and answers true, or answers false where 64 names are there. Then, and refused, it
    /// changes nothing.
    pub fn push(&mut self, name: Name) -> Result<bool, NoMemory>
        ensures ok { IfOk result (λ pushed. Pushes pushed self.old name self.new) }
        ensures err { OnErr result (self.new ≡ self.old) }
    {
        if self.names.len() == MOST_NAMES {
            return Ok(false);
        }
        self.names.push(name)?;
        Ok(true)
    }

    pub fn names(&self) -> &List<Name>
        ensures value { result.now ≡ self.now }
        ensures path { IsPath self.now }
    {
        &self.names
    }

    /// The path with this text. None exactly where no path has it.
    pub fn read(alloc: Global, text: &Text) -> Result<Option<Path>, NoMemory>
        ensures { IfOk result (λ path. MatchOption path (HasNoPath text.now) (IsPathOf text.now)) }
    {
        let mut path = Path::root(alloc);
        if text.as_str().is_empty() {
            return Ok(Some(path));
        }
        for piece in text.as_str().split('/') {
            let piece = Text::from_str(alloc, piece)?;
            let Some(name) = Name::new(&piece)? else {
                return Ok(None);
            };
            if !path.push(name)? {
                return Ok(None);
            }
        }
        Ok(Some(path))
    }

    /// The names, with `/` between each two.
    pub fn text(&self) -> Result<Text, NoMemory>
        ensures { IfOk result (λ text. text ≡ path_text self.now) }
    {
        let mut text = String::new(self.alloc);
        for (place, name) in self.names.items().iter().enumerate() {
            if place > 0 {
                text.push('/')?;
            }
            text.push_str(name.text().as_str())?;
        }
        Text::from_str(self.alloc, text.as_str())
    }
}

impl Twin for Path {
    fn copy(&self) -> Result<Path, NoMemory> {
        let names = self.names.copy()?;
        Ok(Path {
            alloc: self.alloc,
            names,
        })
    }
}

impl PartialEq for Path {
    ghost eq = { pointwise (pointwise nat_eq) };

    ghost laws = { partial_equiv_from_equiv (lists_equiv nat_list_eq_equiv) };

    fn eq(&self, other: &Path) -> bool {
        self.names == other.names
    }
}

impl Eq for Path {
    ghost laws = { lists_equiv nat_list_eq_equiv };
}

/// By the names in turn, so that a path comes before those below it.
impl Ord for Path {
    ghost cmp = { slice_cmp (slice_cmp nat_cmp) };

    ghost total = { lists_total nat_list_cmp_total };

    ghost matches_partial_cmp = { λ a b. refl };

    ghost matches_eq = { lists_ties (slice_cmp nat_cmp) texts_ties };

    fn cmp(&self, other: &Path) -> Ordering {
        self.names.items().cmp(other.names.items())
    }
}

impl PartialOrd for Path {
    ghost partial_cmp = { as_partial_cmp (slice_cmp (slice_cmp nat_cmp)) };

    ghost laws = { partial_order_from_agreeing_total (slice_cmp (slice_cmp nat_cmp)) (lists_total nat_list_cmp_total) (λ a b. refl) (lists_ties (slice_cmp nat_cmp) texts_ties) };

    fn partial_cmp(&self, other: &Path) -> Option<Ordering> {
        Some(self.cmp(other))
    }
}
