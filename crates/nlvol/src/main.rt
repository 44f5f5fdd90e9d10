//! Runs a script of file calls, checkpoints, mounts and rounds of cleaning on a volume in memory.
#![tactic(auto)]

mod clearing;
mod ending;
mod inputs;
pub mod laws;
mod prompting;
mod script_volume;
mod sessions;
mod starting;
mod telling;

use nl_saving::StandIns;
use prompting::{Typed, Watched};
use sessions::session;
use std::cell::Cell;
use std::fs::File;
use std::io::{BufWriter, Eprint, ErrorKind, IsTerminal};
use std::process::ExitCode;
use std::rt::Files;
use std::sync::Wait;
use std::thread::Threads;
use std::{env, io};
use telling::SessionEnd;

/// The program's name and the words behind it.
fn words(rt: &HostRuntime) -> io::Result<Vec<String>> {
    let words = env::args(rt)?.collect(rt.alloc())?;
    Ok(words)
}

/// The words behind the program's name, as they lie in these.
fn arguments<'a>(rt: &HostRuntime, words: &'a [String]) -> io::Result<Vec<&'a str>> {
    let arguments = words
        .iter()
        .skip(1)
        .map(String::as_str)
        .collect(rt.alloc())?;
    Ok(arguments)
}

/// Runs the session of a person who types its lines, and is asked for each.
fn typed<R: AllocGlobal + Files<File = File> + Eprint + Threads + Wait + Sync>(
    rt: &HostRuntime,
    handles: &R,
    arguments: &[&str],
) -> io::Result<SessionEnd> {
    let is_misread = Cell::new(false);
    let watched = Watched {
        out: rt.stdout(),
        is_misread: &is_misread,
    };
    let mut output = BufWriter::new(rt.alloc(), watched)?;
    let input = Typed::new(rt, &is_misread);
    let errors = &mut rt.stderr();
    Ok(session(handles, arguments, true, input, &mut output, errors))
}

/// Runs the session of a script.
fn piped<R: AllocGlobal + Files<File = File> + Eprint + Threads + Wait + Sync>(
    rt: &HostRuntime,
    handles: &R,
    arguments: &[&str],
) -> io::Result<SessionEnd> {
    let mut output = BufWriter::new(rt.alloc(), rt.stdout())?;
    let errors = &mut rt.stderr();
    Ok(session(handles, arguments, false, rt.stdin(), &mut output, errors))
}

/// Answers the exit status. `handles` is the system too, with what `main` alone may hand on: threads, and
/// that a call may wait.
fn run<R: AllocGlobal + Files<File = File> + Eprint + Threads + Wait + Sync>(
    rt: &HostRuntime,
    handles: &R,
) -> io::Result<u8> {
    let words = words(rt)?;
    let arguments = arguments(rt, words.as_slice())?;
    let is_typed = rt.stdin().is_terminal() && rt.stderr().is_terminal();
    let end = if is_typed {
        typed(rt, handles, arguments.as_slice())?
    } else {
        piped(rt, handles, arguments.as_slice())?
    };
    Ok(end.status)
}

/// Tells why the words can't be read or the output has no buffer, and answers the exit status.
fn refused(rt: &HostRuntime, error: &io::Error) -> u8 {
    if error.kind() == ErrorKind::OutOfMemory {
        let _ = eprintln!(rt; "start: error 18 Memory");
        return 1;
    }
    let _ = eprintln!(rt; "error: an argument is not UTF-8");
    2
}

fn main(rt: HostRuntime) -> ExitCode {
    let Ok(stand_ins) = StandIns::take(&rt) else {
        let _ = eprintln!(rt; "/dev/null: cannot be opened");
        return ExitCode::from(1);
    };
    let status = match run(&rt, &rt) {
        Ok(status) => status,
        Err(error) => refused(&rt, &error),
    };
    drop(stand_ins);
    ExitCode::from(status)
}
