ghost use Rattle.std.specs.Prelude.{◌≡◌, ◌≤◌, ◌↔◌, length, IfOk, IfSome, IsTrue};
ghost use Rattle.std.specs.Ordering.{nat_cmp, is_lt};
ghost use Rattle.std.specs.Cmp.Lexicographic.{slice_cmp};
ghost use Rattle.folder_core.specs.Name.{AreRising};

use crate::faults::HostFault;
use folder_core::{Blob, Name};
use osgi_version::{List, Text};
use std::alloc::Global;
use std::fs::{File, Files, read_dir};
use std::io;
use std::io::{ErrorKind, Read};

/// The bytes of the file at a text, or None where it has more than `limit` bytes. Where the host gives all bytes that it
/// told of, and was asked for one more, it isn't asked again.
pub fn read_file<R: Files>(
    files: &R,
    alloc: Global,
    text: &str,
    told: u64,
    limit: u64,
) -> Result<Option<Blob>, HostFault>
    requires { limit ≤ 67174400 }
    ensures { IfOk result (λ blob. IfSome blob (λ bytes. length bytes ≤ limit)) }
{
    if told > limit {
        return Ok(None);
    }
    let mut file = File::open(files, text)?;
    let mut bytes = vec![in alloc; 0; told as usize + 1]?;
    let count = read_some(&mut file, bytes.as_mut_slice())?;
    bytes.truncate(count);
    if count as u64 != told {
        // One byte more than may be there shows that there are too many.
        file.take((limit + 1).saturating_sub(count as u64))
            .read_to_end(&mut bytes)?;
    }
    if bytes.len() as u64 > limit {
        return Ok(None);
    }
    Ok(Blob::new(List::from_vec(bytes)))
}

/// How many bytes the first read gives: none also where a signal interrupts it.
fn read_some(file: &mut impl Read, room: &mut [u8]) -> io::Result<usize>
    ensures { IfOk result (λ count. count ≤ length room.new) }
{
    match file.read(room) {
        Err(error) if error.kind() == ErrorKind::Interrupted => Ok(0),
        outcome => outcome,
    }
}

/// The names of all that stands in a directory, in rising order. An entry whose name is no `Name` is a fault, and so is
/// one that the host names twice.
pub fn read_names<R: Files + AllocGlobal + Clone + Drop>(
    runtime: &R,
    alloc: Global,
    text: &str,
) -> Result<List<Name>, HostFault>
    ensures { IfOk result AreRising }
{
    let mut names = Vec::new(alloc);
    for entry in read_dir(runtime, text)? {
        let name = Text::from_str(alloc, entry?.file_name())?;
        let Some(name) = Name::new(&name)? else {
            return Err(HostFault::Failed);
        };
        names.push(name)?;
    }
    names.sort_unstable_by(|a, b| a.text().bytes().cmp(b.text().bytes()));
    if !are_rising(names.as_slice()) {
        return Err(HostFault::Failed);
    }
    Ok(List::from_vec(names))
}

fn are_rising(names: &[Name]) -> bool
    ensures { IsTrue result ↔ AreRising names.now }
{
    names.is_sorted_by(is_before)
}

fn is_before(name: &Name, next: &Name) -> bool
    ensures { result ≡ is_lt (slice_cmp nat_cmp name.now next.now) }
{
    name.text().bytes().cmp(next.text().bytes()).is_lt()
}
