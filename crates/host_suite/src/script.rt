//! A host that does what a row says.

use host_adapters::Lockable;
use std::alloc::Allocator;
use std::cell::Cell;
use std::fs::{Files, Metadata, OpenFile, OpenOptions, Permissions};
use std::io;
use std::io::{ErrorKind, Read, Seek, SeekFrom, Write};
use std::os::unix::fs::PermissionsExt;
use suite_row::Row;

/// The calls that a host has to get, one after the other: the fields of a row from one on, each `CALL,PLACE,ANSWER`.
#[derive(Drop)]
pub struct Script<'a> {
    row: &'a Row,
    first: usize,
    /// The call of this number fails.
    fails_at: usize,
    made: Cell<usize>,
}

/// What a call answers, where a field says that it comes.
fn answer_to<'a>(field: &'a str, call: &str, place: &str) -> Option<&'a str> {
    let mut words = field.split(',');
    if words.next()? != call || words.next()? != place {
        return None;
    }
    Some(words.next().unwrap_or(""))
}

impl<'a> Script<'a> {
    pub fn new(row: &'a Row, first: usize, fails_at: usize) -> Script<'a> {
        Script {
            row,
            first,
            fails_at,
            made: Cell::new(0),
        }
    }

    /// How many calls came, each in its turn.
    pub fn made(&self) -> usize {
        self.made.get()
    }

    /// Answers the next call. After one that isn't in its turn none is.
    fn call(&self, call: &str, place: &str) -> io::Result<&'a str> {
        let number = self.made.get();
        let field = self.row.word(self.first.saturating_add(number));
        let Some(answer) = answer_to(field, call, place) else {
            self.made.set(usize::MAX);
            return Err(unsupported());
        };
        self.made.set(number.saturating_add(1));
        if number == self.fails_at {
            return Err(io::Error::from(ErrorKind::OutOfMemory));
        }
        Ok(answer)
    }
}

fn unsupported() -> io::Error {
    io::Error::from(ErrorKind::Unsupported)
}

fn standing(kind: &str) -> io::Result<Metadata> {
    match kind {
        "dir" => Ok(Metadata::of_dir()),
        "file" => Ok(Metadata::of_file(0)),
        "link" => Ok(Metadata::of_symlink(0)),
        _ => Err(io::Error::from(ErrorKind::NotFound)),
    }
}

#[derive(Clone, Copy)]
pub struct Host<'a>(pub &'a Script<'a>);

impl<'a> Files for Host<'a> {
    type File = Opened<'a>;

    type Dir = &'a [u8];

    fn open_file(&self, how: &OpenOptions, path: &str) -> io::Result<Opened<'a>> {
        let call = if how.asks_create_new() {
            "create"
        } else {
            "open"
        };
        let name = self.0.call(call, path)?;
        Ok(Opened {
            script: self.0,
            name,
        })
    }

    fn open_dir(&self, path: &str) -> io::Result<&'a [u8]> {
        Ok(self.0.call("list", path)?.as_bytes())
    }

    fn metadata(&self, path: &str) -> io::Result<Metadata> {
        standing(self.0.call("stat", path)?)
    }

    fn symlink_metadata(&self, path: &str) -> io::Result<Metadata> {
        standing(self.0.call("look", path)?)
    }

    fn copy(&self, _from: &str, _to: &str) -> io::Result<u64> {
        Err(unsupported())
    }

    fn rename(&self, _from: &str, _to: &str) -> io::Result<()> {
        Err(unsupported())
    }

    fn remove_file(&self, path: &str) -> io::Result<()> {
        self.0.call("remove", path)?;
        Ok(())
    }

    fn create_dir(&self, path: &str) -> io::Result<()> {
        self.0.call("mkdir", path)?;
        Ok(())
    }

    fn remove_dir(&self, path: &str) -> io::Result<()> {
        self.0.call("rmdir", path)?;
        Ok(())
    }

    fn remove_dir_all<B: Allocator>(&self, _alloc: B, _path: &str) -> io::Result<()> {
        Err(unsupported())
    }

    fn symlink(&self, original: &str, link: &str) -> io::Result<()> {
        let target = self.0.call("symlink", link)?;
        if target == original {
            Ok(())
        } else {
            Err(unsupported())
        }
    }
}

/// A file or a directory that the host has opened, by the name that its script gives it.
#[derive(Clone, Copy)]
pub struct Opened<'a> {
    script: &'a Script<'a>,
    name: &'a str,
}

impl OpenFile for Opened<'_> {
    fn metadata(&self) -> io::Result<Metadata> {
        Err(unsupported())
    }

    fn set_len(&self, _size: u64) -> io::Result<()> {
        Err(unsupported())
    }

    fn sync_all(&self) -> io::Result<()> {
        self.script.call("sync", self.name)?;
        Ok(())
    }

    fn sync_data(&self) -> io::Result<()> {
        Err(unsupported())
    }

    fn set_permissions(&self, permissions: Permissions) -> io::Result<()> {
        let call = if permissions.mode() == 0o644 {
            "644"
        } else {
            "chmod"
        };
        self.script.call(call, self.name)?;
        Ok(())
    }
}

impl Lockable for Opened<'_> {
    fn try_hold(&self) -> io::Result<bool> {
        Ok(self.script.call("lock", self.name)? != "held")
    }
}

impl Read for Opened<'_> {
    fn read(&mut self, _into: &mut [u8]) -> io::Result<usize> {
        Err(unsupported())
    }
}

impl Write for Opened<'_> {
    fn write(&mut self, piece: &[u8]) -> io::Result<usize> {
        let content = self.script.call("write", self.name)?;
        if piece == content.as_bytes() {
            Ok(piece.len())
        } else {
            Err(unsupported())
        }
    }

    fn flush(&mut self) -> io::Result<()> {
        Ok(())
    }
}

impl Seek for Opened<'_> {
    fn seek(&mut self, _to: SeekFrom) -> io::Result<u64> {
        Err(unsupported())
    }
}
