//! Keeps folders of the host with their history, in a volume with continuous snapshots.
#![tactic(auto)]

mod amounts;
mod archives;
mod asking;
mod backup;
mod checking;
mod checkpoints;
mod clearing;
mod commands;
mod comparing;
mod complaining;
mod copying;
mod df;
mod excluding;
mod faults;
mod forgetting;
mod fullness;
mod gauge;
mod history;
mod hosting;
mod image_files;
mod images;
mod json;
mod judging;
mod keeping;
mod lasting;
mod looking;
mod making;
mod manifests;
mod moments;
mod options;
mod outline;
mod own_files;
mod page;
mod parts;
mod pinning;
mod printing;
mod progress;
mod pruning;
mod rescue;
mod restore;
mod reverting;
mod scanning;
mod showing;
mod sizes;
mod storing;
mod sums;
mod telling;
mod unpacking;
mod verdicts;
mod views;

use asking::{Clock, Outcome, judge_paths};
use clap::ArgMatches;
use commands::Command;
use complaining::{complain, complain_more, complain_whole};
use faults::{Fault, REFUSED};
use jiff::tz::TimeZone;
use moments::{Zones, now};
use nl_saving::StandIns;
use options::{command_of, program};
use printing::Printer;
use std::io::{BufWriter, IsTerminal, Write};
use std::process::ExitCode;
use std::{env, io};

/// Does a command.
fn done<W: Write>(
    rt: &HostRuntime,
    command: Command,
    matches: &ArgMatches<'_>,
    clock: &Clock<'_>,
    printer: &mut Printer<W>,
) -> Result<Outcome, Fault> {
    match command {
        Command::Init => making::init(rt, matches, clock),
        Command::Backup => backup::backup(rt, matches, clock, printer),
        Command::Restore => restore::restore(rt, matches, clock),
        Command::Revert => reverting::revert(rt, matches, clock, printer),
        Command::Untar => archives::untar(rt, matches, clock, printer),
        Command::Copy => copying::copy(rt, matches, clock, printer),
        Command::Forget => forgetting::forget(rt, matches, clock, printer),
        Command::Pin => pinning::pin(rt, matches, clock, printer),
        Command::Prune => pruning::prune(rt, matches, clock, printer),
        Command::Check => checking::check(rt, matches, printer),
        Command::Rescue => rescue::rescue(rt, matches, printer),
        Command::Looks(look) => looking::look(rt, look, matches, clock, printer),
    }
}

/// Does a command, and writes what is left of what it tells. A command that saves an image leaves nothing.
fn done_and_told<W: Write>(
    rt: &HostRuntime,
    command: Command,
    matches: &ArgMatches<'_>,
    clock: &Clock<'_>,
    printer: &mut Printer<W>,
) -> Result<Outcome, Fault> {
    let outcome = done(rt, command, matches, clock, printer)?;
    printer.out.flush()?;
    Ok(outcome)
}

/// Why `rescue` isn't done whole. Where standard output fails, something was laid out before.
fn rescue_fault(rt: &HostRuntime, matches: &ArgMatches<'_>, fault: Fault) -> Fault {
    let error = match fault {
        Fault::Output(error) => error,
        fault => return fault,
    };
    let folder = matches.get_str("FOLDER").unwrap_or("");
    let done = format!(in rt.alloc(); "{folder} has what was rescued so far");
    Fault::Behind(done.unwrap_or(String::new(rt.alloc())), error)
}

/// Does a command, and answers the status.
fn status_of<W: Write>(
    rt: &HostRuntime,
    command: Command,
    matches: &ArgMatches<'_>,
    clock: &Clock<'_>,
    printer: &mut Printer<W>,
) -> Result<u8, Fault> {
    match done_and_told(rt, command, matches, clock, printer) {
        Ok(outcome) => Ok(outcome.status()),
        Err(fault) if matches!(command, Command::Rescue) => Err(rescue_fault(rt, matches, fault)),
        Err(fault) => Err(fault),
    }
}

/// Does a command by the clock as a zone has it, and answers the status.
fn run_in_zone(
    rt: &HostRuntime,
    command: Command,
    matches: &ArgMatches<'_>,
    zone: TimeZone<'_>,
) -> Result<u8, Fault> {
    let clock = Clock {
        now: now(rt)?,
        zone,
    };
    let mut printer = Printer {
        out: BufWriter::new(rt.alloc(), rt.stdout())?,
        is_terminal: rt.stdout().is_terminal(),
    };
    status_of(rt, command, matches, &clock, &mut printer)
}

/// Does the command that is asked for, and answers the status.
fn run_command(rt: &HostRuntime, matches: &ArgMatches<'_>) -> Result<u8, Fault> {
    let Some((name, matches)) = matches.subcommand() else {
        return Ok(REFUSED);
    };
    let Some(command) = command_of(name) else {
        return Ok(REFUSED);
    };
    judge_paths(rt.alloc(), matches)?;
    let zones = Zones::read(rt);
    run_in_zone(rt, command, matches, zones.zone())
}

fn tell_lines(rt: &HostRuntime, lines: &[String]) {
    for line in lines {
        complain_more(rt, format_args!("  {line}"));
    }
}

fn tell_fault(rt: &HostRuntime, fault: &Fault) -> u8 {
    match fault {
        Fault::Told(text) => complain(rt, text),
        Fault::Listed(text, lines) => {
            complain(rt, text);
            tell_lines(rt, lines.as_slice());
        }
        Fault::Memory => complain(rt, "there is no memory"),
        Fault::Output(error) => complain(rt, format_args!("standard output: {error}")),
        Fault::Behind(done, error) => {
            complain(rt, format_args!("{done}; standard output: {error}"));
        }
    }
    fault.status()
}

/// Writes the help or the version, or what is wrong with the words.
fn tell_words(rt: &HostRuntime, error: &clap::Error) -> u8 {
    if error.exit_code() == 0 {
        match print!(rt; "{error}") {
            Ok(()) => 0,
            Err(_) => REFUSED,
        }
    } else {
        complain_whole(rt, error);
        REFUSED
    }
}

/// Does what the words behind the program's name say, and answers the status.
fn run_words(rt: &HostRuntime, words: &[&str]) -> io::Result<u8> {
    let program = program(rt.alloc())?;
    Ok(match program.try_get_matches_from(words) {
        Ok(matches) => match run_command(rt, &matches) {
            Ok(status) => status,
            Err(fault) => tell_fault(rt, &fault),
        },
        Err(error) => tell_words(rt, &error),
    })
}

fn run(rt: &HostRuntime) -> io::Result<u8> {
    let words: Vec<String> = env::args(rt)?.collect(rt.alloc())?;
    let words: Vec<&str> = words
        .iter()
        .skip(1)
        .map(String::as_str)
        .collect(rt.alloc())?;
    run_words(rt, words.as_slice())
}

/// Tells why nothing is done, and answers the status.
fn refused(rt: &HostRuntime, error: &io::Error) -> u8 {
    complain(rt, error);
    REFUSED
}

fn main(rt: HostRuntime) -> ExitCode {
    let stand_ins = match StandIns::take(&rt) {
        Ok(stand_ins) => stand_ins,
        Err(error) => {
            complain(&rt, format_args!("/dev/null: cannot be opened: {error}"));
            return ExitCode::from(REFUSED);
        }
    };
    let status = match run(&rt) {
        Ok(status) => status,
        Err(error) => refused(&rt, &error),
    };
    drop(stand_ins);
    ExitCode::from(status)
}
