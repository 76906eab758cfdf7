//! The program: `main`, which hands the host to the command.
#![tactic(auto)]

ghost use Rattle.std.specs.Prelude.{◌≡◌};
ghost use Rattle.std.specs.Process.{exit_status};
ghost use Rattle.director_words.specs.Status.{code_of};

use director_core::run;
use director_words::{Status, short_line};
use folder_core::After;
use host_adapters::{Arguments, ArgumentsFault, HostFolder, HostTree, StdInput, StdSink};
use std::process::ExitCode;

fn main(rt: HostRuntime) -> ExitCode {
    let status = match Arguments::read(&rt) {
        Ok(arguments) => perform(rt, arguments),
        Err(ArgumentsFault::Usage) => refused(rt, Status::Usage),
        Err(ArgumentsFault::NoMemory) => refused(rt, Status::NoMemory(After::Unchanged)),
    };
    exit(&status)
}

/// What the process ends with.
fn exit(status: &Status) -> ExitCode
    ensures { exit_status result ≡ code_of status.now }
{
    ExitCode::from(status.code())
}

/// Performs the command, which prints its own lines.
fn perform(rt: HostRuntime, arguments: Arguments) -> Status {
    let mut folder = HostFolder::new(rt, arguments.folder);
    let mut source = HostTree::new(rt, arguments.source);
    let mut input = StdInput::new(rt.reader());
    let mut out = StdSink::new(rt.stdout());
    run(
        rt.alloc(),
        arguments.words.as_slice(),
        &mut folder,
        &mut source,
        &mut input,
        &mut out,
    )
}

/// Prints the line of a refusal that comes before the command is known. Where even this can't be written, the status tells.
fn refused(rt: HostRuntime, status: Status) -> Status
    ensures { result ≡ status }
{
    let _ = rt.write_all(short_line(&status));
    status
}
