//! The source, folder by folder.

ghost use Rattle.std.specs.Prelude.{◌≡◌, ◌≤◌, ◌<◌, ◌||◌, codes, nat_eq, length, Ok, Err, IfOk, IfErr, IsSomeAnd, OnOk, All};
ghost use Rattle.std.specs.Cmp.Lexicographic.{pointwise};
ghost use Rattle.folder_core.specs.Cause.{Rose};
ghost use Rattle.folder_core.specs.Step.{OnTold};
ghost use Rattle.inf_reader.specs.InForm.{IsUnitInForm};
ghost use Rattle.inf_reader.specs.Readings.{Readings, ReadsAll};
ghost use Rattle.director_words.specs.Status.{CanPrint};
ghost use Rattle.director_words.specs.declared.limit.LimitName.TheVariants.{InfBytes};
ghost use Rattle.director_words.specs.declared.status.Status.TheVariants as status;
ghost use Rattle.director_source.specs.Gathering.{IsGathering, gathered_in};
ghost use Rattle.director_source.specs.Source.{SourceGives, with_found, description_of};
ghost use Rattle.director_source.specs.SourceStop.{StopsReading};

use crate::gathering::Gathering;
use crate::places::path_of;
use director_words::{LimitName, Status};
use folder_core::{After, Blob, Name, Path, Tree, TreeError};
use std::alloc::Global;
use unit_catalog::Catalog;

const LONGEST_DESCRIPTION: u64 = 1_048_576;

/// The units of the folders of the source, the first of a name winning: folder by folder in the order of their names,
/// and in a folder in the order in which its description has them. A folder without a description is passed over. What
/// comes first of a refused folder, a limit that is passed, or a fault of the source, is the answer.
pub fn read_source<T: Tree>(alloc: Global, source: &mut T) -> Result<Catalog, Status>
    ensures found { IfOk result (λ units. OnTold (T.told source.old) (λ files. SourceGives files (Ok units))) }
    ensures form { IfOk result (All IsUnitInForm) }
    ensures refused { IfErr result (StopsReading (λ s. OnTold (T.told source.old) (λ files. SourceGives files (Err s)))
        (Rose (T.faults source.old) (T.faults source.new))) }
    ensures printable { IfErr result CanPrint }
    ensures stays { T.told source.new ≡ T.told source.old }
    ensures later { T.faults source.old ≤ T.faults source.new }
{
    let folders = match source.kids(alloc, &Path::root(alloc)) {
        Ok(folders) => folders,
        Err(TreeError::NoMemory) => return Err(Status::NoMemory(After::Unchanged)),
        Err(_) => return Err(Status::SourceFault),
    };
    let mut so_far = Gathering::new(alloc)?;
    for folder in folders.items() {
        read_folder(alloc, source, folder, &mut so_far)?;
    }
    Ok(so_far.catalog)
}

/// Adds the units of a folder. One without a description is passed over.
fn read_folder<T: Tree>(
    alloc: Global,
    source: &mut T,
    folder: &Name,
    so_far: &mut Gathering,
) -> Result<(), Status>
    requires { IsGathering so_far.old }
    ensures is { OnOk result (IsGathering so_far.new) }
    ensures found { OnOk result (OnTold (T.told source.old) (λ files. (read : Readings) → ReadsAll read
        → with_found read folder.now (gathered_in so_far.old) (description_of files folder.now) ≡ Ok (gathered_in so_far.new))) }
    ensures refused { IfErr result (StopsReading (λ s. OnTold (T.told source.old) (λ files. (read : Readings) → ReadsAll read
        → with_found read folder.now (gathered_in so_far.old) (description_of files folder.now) ≡ Err s))
        (Rose (T.faults source.old) (T.faults source.new))) }
    ensures printable { IfErr result CanPrint }
    ensures stays { T.told source.new ≡ T.told source.old }
    ensures later { T.faults source.old ≤ T.faults source.new }
{
    match find_description(alloc, source, folder)? {
        Some(description) => so_far.describe(alloc, folder, description.bytes()),
        None => Ok(()),
    }
}

/// The description of a folder: its `p2.inf`, or else its `META-INF/p2.inf`.
fn find_description<T: Tree>(
    alloc: Global,
    source: &mut T,
    folder: &Name,
) -> Result<Option<Blob>, Status>
    ensures found { IfOk result (λ found. OnTold (T.told source.old) (λ files. description_of files folder.now ≡ found)) }
    ensures refused { IfErr result (StopsReading (λ s. OnTold (T.told source.old) (λ files. (s ≡ status.Limit InfBytes 1048576)
        × IsSomeAnd (description_of files folder.now) (λ bytes. 1048576 < length bytes)))
        (Rose (T.faults source.old) (T.faults source.new))) }
    ensures printable { IfErr result CanPrint }
    ensures stays { T.told source.new ≡ T.told source.old }
    ensures later { T.faults source.old ≤ T.faults source.new }
{
    if holds_artifacts(folder) {
        return Ok(None);
    }
    let name = folder.text().as_str();
    let above = path_of(alloc, &[name, "p2.inf"])?;
    if let Some(description) = read_file(alloc, source, &above)? {
        return Ok(Some(description));
    }
    let within = path_of(alloc, &[name, "META-INF", "p2.inf"])?;
    read_file(alloc, source, &within)
}

fn holds_artifacts(folder: &Name) -> bool
    ensures { result ≡ (pointwise nat_eq folder.now (codes "artifacts") || pointwise nat_eq folder.now (codes "artifacts.sha256")) }
{
    let name = folder.text().as_str();
    name == "artifacts" || name == "artifacts.sha256"
}

fn read_file<T: Tree>(alloc: Global, source: &mut T, path: &Path) -> Result<Option<Blob>, Status>
    ensures found { IfOk result (λ found. OnTold (T.told source.old) (λ files. files path.now ≡ found)) }
    ensures refused { IfErr result (StopsReading (λ s. OnTold (T.told source.old) (λ files. (s ≡ status.Limit InfBytes 1048576)
        × IsSomeAnd (files path.now) (λ bytes. 1048576 < length bytes)))
        (Rose (T.faults source.old) (T.faults source.new))) }
    ensures printable { IfErr result CanPrint }
    ensures stays { T.told source.new ≡ T.told source.old }
    ensures later { T.faults source.old ≤ T.faults source.new }
{
    match source.read(alloc, path, LONGEST_DESCRIPTION) {
        Ok(found) => Ok(found),
        Err(TreeError::Failed) => Err(Status::SourceFault),
        Err(TreeError::TooLarge) => Err(Status::Limit {
            what: LimitName::InfBytes,
            most: LONGEST_DESCRIPTION,
        }),
        Err(TreeError::NoMemory) => Err(Status::NoMemory(After::Unchanged)),
    }
}
