//! The units of one folder's description.

ghost use Rattle.std.specs.Prelude.{◌≡◌, Ok, Err, IfOk, IfErr, All};
ghost use Rattle.inf_reader.specs.InForm.{IsUnitInForm};
ghost use Rattle.inf_reader.specs.Readings.{Readings, ReadsAll};
ghost use Rattle.director_words.specs.Status.{CanPrint};
ghost use Rattle.director_source.specs.Source.{described, refusal_status};
ghost use Rattle.director_source.specs.SourceStop.{StopsReading};

use director_words::{LimitName, SourceWhy, Status};
use folder_core::{After, Name};
use inf_reader::{InfRefusal, units_of};
use osgi_version::{List, NoMemory, Twin};
use props_reader::{PropsFault, read};
use std::alloc::Global;
use unit_model::Unit;

const MOST_REQUIREMENTS: u64 = 1024;

/// The units that the bytes of a folder's description describe.
pub(crate) fn describe(alloc: Global, folder: &Name, bytes: &[u8]) -> Result<List<Unit>, Status>
    ensures found { IfOk result (λ units. (read : Readings) → ReadsAll read → described read folder.now bytes.now ≡ Ok units) }
    ensures form { IfOk result (All IsUnitInForm) }
    ensures refused { IfErr result (StopsReading (λ s. (read : Readings) → ReadsAll read
        → described read folder.now bytes.now ≡ Err s) ⊥) }
    ensures printable { IfErr result CanPrint }
{
    let pairs = match read(alloc, bytes) {
        Ok(pairs) => pairs,
        Err(PropsFault::BadEscape { line }) => {
            let folder = folder.text().copy()?;
            let why = SourceWhy::Line(line);
            return Err(Status::SourceRefused { folder, why });
        }
        Err(PropsFault::NoMemory) => return Err(Status::NoMemory(After::Unchanged)),
    };
    match units_of(alloc, folder.text().bytes(), &pairs) {
        Ok(units) => Ok(units),
        Err(refusal) => Err(refusal_status(folder, refusal)?),
    }
}

/// Too many requirements pass a limit. The folder is refused for all else.
fn refusal_status(folder: &Name, refusal: InfRefusal) -> Result<Status, NoMemory>
    ensures { IfOk result (λ status. status ≡ refusal_status folder.now refusal) }
{
    match refusal {
        InfRefusal::TooManyRequirements(_) => Ok(Status::Limit {
            what: LimitName::Requirements,
            most: MOST_REQUIREMENTS,
        }),
        InfRefusal::NoMemory => Err(NoMemory),
        refusal => Ok(Status::SourceRefused {
            folder: folder.text().copy()?,
            why: SourceWhy::Inf(refusal),
        }),
    }
}
