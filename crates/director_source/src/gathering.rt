//! What was read of a source so far.

ghost use Rattle.std.specs.Prelude.{◌≡◌, ◌≤◌, ◌∷◌, ℕ, List as Items, Ok, Err, IfOk, IfErr, OnOk, length, All};
ghost use Rattle.unit_model.specs.declared.unit.Unit.{Unit};
ghost use Rattle.inf_reader.specs.InForm.{IsUnitInForm};
ghost use Rattle.inf_reader.specs.Readings.{Readings, ReadsAll};
ghost use Rattle.director_words.specs.Status.{CanPrint};
ghost use Rattle.director_source.specs.Gathering.{IsGathering, gathered_in};
ghost use Rattle.director_source.specs.Source.{counted, added, with_description, nothing_gathered};
ghost use Rattle.director_source.specs.SourceStop.{StopsReading};

use crate::describing::describe;
use director_words::{LimitName, Status};
use folder_core::{After, Name};
use osgi_version::{List, NoMemory, Twin};
use std::alloc::Global;
use unit_catalog::{Catalog, CatalogFault};
use unit_model::Unit;

const LONGEST_DESCRIPTION: u64 = 1_048_576;

const MOST_BYTES: u64 = 67_108_864;

const MOST_UNITS: u64 = 65_536;

/// How many bytes the descriptions of some folders have, and their units.
#[derive(Drop)]
pub(crate) struct Gathering {
    pub(crate) bytes: u64,
    pub(crate) catalog: Catalog,
}

impl Gathering {
    /// Nothing was read.
    pub(crate) fn new(alloc: Global) -> Result<Gathering, NoMemory>
        ensures nothing { IfOk result (λ gathering. gathered_in gathering ≡ nothing_gathered) }
        ensures is { IfOk result IsGathering }
    {
        let catalog = Catalog::new(alloc)?;
        Ok(Gathering { bytes: 0, catalog })
    }

    /// Adds the units of a folder's description. After an `Err` it is of no use.
    pub(crate) fn describe(
        &mut self,
        alloc: Global,
        folder: &Name,
        bytes: &[u8],
    ) -> Result<(), Status>
        requires { IsGathering self.old }
        ensures is { OnOk result (IsGathering self.new) }
        ensures found { OnOk result ((read : Readings) → ReadsAll read
            → with_description read folder.now (gathered_in self.old) bytes.now ≡ Ok (gathered_in self.new)) }
        ensures refused { IfErr result (StopsReading (λ s. (read : Readings) → ReadsAll read
            → with_description read folder.now (gathered_in self.old) bytes.now ≡ Err s) ⊥) }
        ensures printable { IfErr result CanPrint }
    {
        let total = counted(self.bytes, bytes)?;
        let more = describe(alloc, folder, bytes)?;
        self.add_all(&more)?;
        self.bytes = total;
        Ok(())
    }

    /// Adds the units. The first of a name wins.
    fn add_all(&mut self, more: &List<Unit>) -> Result<(), Status>
        requires is { IsGathering self.old }
        requires form { All IsUnitInForm more.now }
        ensures is { OnOk result (IsGathering self.new) }
        ensures same { OnOk result (self.new.bytes ≡ self.old.bytes) }
        ensures found { OnOk result (added self.old.catalog more.now ≡ Ok self.new.catalog) }
        ensures refused { IfErr result (StopsReading (λ s. added self.old.catalog more.now ≡ Err s) ⊥) }
        ensures printable { IfErr result CanPrint }
    {
        for unit in more.items() {
            self.add(unit.copy()?)?;
        }
        Ok(())
    }

    /// Adds the unit, where its name is new.
    fn add(&mut self, unit: Unit) -> Result<(), Status>
        requires is { IsGathering self.old }
        requires form { IsUnitInForm unit }
        ensures is { OnOk result (IsGathering self.new) }
        ensures same { OnOk result (self.new.bytes ≡ self.old.bytes) }
        ensures found { OnOk result ((more : Items Unit) → added self.old.catalog (unit ∷ more) ≡ added self.new.catalog more) }
        ensures refused { IfErr result (StopsReading (λ s. (more : Items Unit) → added self.old.catalog (unit ∷ more) ≡ Err s) ⊥) }
        ensures printable { IfErr result CanPrint }
    {
        match self.catalog.add(unit) {
            Ok(_) => Ok(()),
            Err(CatalogFault::Full) => Err(Status::Limit {
                what: LimitName::Units,
                most: MOST_UNITS,
            }),
            Err(CatalogFault::NoMemory) => Err(Status::NoMemory(After::Unchanged)),
        }
    }
}

/// How many bytes the descriptions have with this one.
#[tactic(auto, unfolding(crate::specs::Source::counted))]
fn counted(before: u64, bytes: &[u8]) -> Result<u64, Status>
    requires { before ≤ 67108864 }
    ensures found { IfOk result (λ total. counted before bytes.now ≡ Ok total) }
    ensures within { IfOk result (λ total. total ≤ 67108864) }
    ensures refused { IfErr result (StopsReading (λ s. counted before bytes.now ≡ Err s) ⊥) }
    ensures printable { IfErr result CanPrint }
{
    let more = bytes.len() as u64;
    if more > LONGEST_DESCRIPTION {
        return Err(Status::Limit {
            what: LimitName::InfBytes,
            most: LONGEST_DESCRIPTION,
        });
    }
    if before + more > MOST_BYTES {
        return Err(Status::Limit {
            what: LimitName::SourceBytes,
            most: MOST_BYTES,
        });
    }
    Ok(before + more)
}
