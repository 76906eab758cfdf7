use director_core::run;
use director_words::Status;
use folder_core::Sink;
use host_adapters::{Arguments, HostFolder, HostTree, StdInput, StdSink};
use std::env::{Env, FillError};
use std::test::Fail;
use std::{env, fs, process};

const SOURCE: &str = "units.0.id=a
units.0.version=1.0.0
";

const LINES: &str = "plan ide 1
add a/1.0.0
done ide 1
";

const STATE: &str = "p2state 1
profile ide
number 1
root a 1.0.0
unit a 1.0.0
update a [0.0.0,1.0.0) 0 %-
provides org.eclipse.equinox.p2.iu a 1.0.0
end
end state
";

/// A place for a test's files, where nothing stands yet.
fn room(rt: HostRuntime, name: &str) -> Result<String, Fail> {
    let holder = env::temp_dir(&rt)?;
    let holder = holder.as_str();
    let id = process::id(rt.process());
    let room = format!(in rt.alloc(); "{holder}/p2-{name}-{id}")?;
    if fs::exists(&rt, room.as_str())? {
        fs::remove_dir_all(&rt, room.as_str())?;
    }
    Ok(room)
}

/// Words that a program is called with, one blank between them. No word where the bytes are none.
#[derive(Clone, Copy)]
struct Given<'a>(&'a [u8]);

impl Env for Given<'_> {
    fn arg(&self, i: usize, buf: &mut [u8]) -> Result<usize, FillError> {
        if self.0.is_empty() {
            return Err(FillError::NotPresent);
        }
        let mut words = self.0.split(|byte| *byte == b' ');
        let word = words.nth(i).ok_or(FillError::NotPresent)?;
        if word.len() > buf.len() {
            return Err(FillError::TooLong);
        }
        buf[..word.len()].copy_from_slice(word);
        Ok(word.len())
    }

    fn var(&self, _name: &str, _buf: &mut [u8]) -> Result<usize, FillError> {
        Err(FillError::NotPresent)
    }

    fn var_at(&self, _i: usize, _buf: &mut [u8]) -> Result<usize, FillError> {
        Err(FillError::NotPresent)
    }
}

fn make_source(rt: HostRuntime, room: &str) -> Result<(), Fail> {
    fs::create_dir_all(&rt, format!(in rt.alloc(); "{room}/source/f")?)?;
    fs::write(
        &rt,
        format!(in rt.alloc(); "{room}/source/f/p2.inf")?,
        SOURCE,
    )?;
    Ok(())
}

/// What a call with these words ends with, and what it writes then.
fn perform<K: Sink>(rt: HostRuntime, arguments: Arguments, out: &mut K) -> Status {
    let mut folder = HostFolder::new(rt, arguments.folder);
    let mut source = HostTree::new(rt, arguments.source);
    let mut input = StdInput::new(rt.reader());
    let words = arguments.words.as_slice();
    run(rt.alloc(), words, &mut folder, &mut source, &mut input, out)
}

fn installs(rt: HostRuntime, words: &str, written: &mut Vec<u8>) -> bool {
    let mut out = StdSink::new(written);
    match Arguments::read(&(Given(words.as_bytes()), rt.alloc())) {
        Ok(arguments) => perform(rt, arguments, &mut out) == Status::Done,
        Err(_) => false,
    }
}

fn is_installed(rt: HostRuntime, room: &str) -> Result<bool, Fail> {
    let words = format!(in rt.alloc(); "p2 {room}/folder {room}/source install -p ide a")?;
    let mut written = Vec::new(rt.alloc());
    let done = installs(rt, words.as_str(), &mut written);
    Ok(done && written.as_slice() == LINES.as_bytes())
}

fn reads(rt: HostRuntime, room: &str, at: &str, wanted: &str) -> Result<bool, Fail> {
    let file = format!(in rt.alloc(); "{room}/{at}")?;
    let content = fs::read_to_string(&rt, file.as_str())?;
    Ok(content.as_str() == wanted)
}

/// The folder isn't there before.
fn is_reached(rt: HostRuntime, at: &str) -> Result<bool, Fail> {
    make_source(rt, at)?;
    let is_reached = is_installed(rt, at)?
        && reads(rt, at, "folder/profiles/ide/1.state", STATE)?
        && reads(rt, at, "folder/profiles/ide/current", "1\n")?;
    fs::remove_dir_all(&rt, at)?;
    Ok(is_reached)
}

#[test]
fn install_reaches_the_host(rt: HostRuntime) -> Result<(), Fail> {
    let room = room(rt, "install_reaches_the_host")?;
    assert!(rt; is_reached(rt, room.as_str())?);
    Ok(())
}
