//! The unit that a word names.

ghost use Rattle.std.specs.Prelude.{◌≡◌, Some, MatchOption, IfOk, IfErr, All, slice_get};
ghost use Rattle.std.specs.Option.{option_map};
ghost use Rattle.inf_reader.specs.InForm.{IsUnitInForm};
ghost use Rattle.director_words.specs.Root.{IsRootWord};
ghost use Rattle.director_words.specs.declared.status.Status.TheVariants as status;
ghost use Rattle.director_core.specs.Found.{Finds, FindsNone};
ghost use Rattle.director_core.specs.LookUp.{IsNumberOfRoot, IsOfNoRoot, IsOfNumber};
ghost use Rattle.director_core.specs.Stops.{Stops};

use director_words::{Root, Status};
use ldap_filter::Env;
use osgi_version::{Text, Twin};
use std::alloc::Global;
use unit_catalog::Catalog;
use unit_model::{Unit, UnitName};

/// The unit that the word names. `Unknown` holds the word where it names none.
pub(crate) fn look_up(alloc: Global, word: Text, catalog: &Catalog) -> Result<Unit, Status>
    requires word { IsRootWord word }
    requires form { All IsUnitInForm catalog.now }
    ensures found { IfOk result (Finds word catalog.now) }
    ensures form { IfOk result IsUnitInForm }
    ensures refused { IfErr result (Stops ⊥ ⊥ ⊥ (λ s. (s ≡ status.Unknown word) × FindsNone word catalog.now)) }
{
    let Some(root) = Root::read(alloc, word.bytes())? else {
        unreachable!()
    };
    match unit_of(alloc, root, catalog) {
        Some(unit) => Ok(unit.copy()?),
        None => Err(Status::Unknown(word)),
    }
}

/// The unit of the root.
fn unit_of<'a>(alloc: Global, root: Root, catalog: &'a Catalog) -> Option<&'a Unit>
    ensures { MatchOption result (IsOfNoRoot root catalog.now) (λ unit. IsOfNumber root catalog.now unit.now) }
{
    let number = number_of(alloc, root, catalog)?;
    catalog.unit(number)
}

/// The number of the root's unit: the one of its version, or without a version the greatest that applies.
fn number_of(alloc: Global, root: Root, catalog: &Catalog) -> Option<u32>
    ensures { IsNumberOfRoot root.id root.version catalog.now result }
{
    let Root { id, version } = root;
    match version {
        Some(version) => catalog.find(&UnitName { id, version }),
        None => catalog.greatest(id.bytes(), &Env::new(alloc)),
    }
}
