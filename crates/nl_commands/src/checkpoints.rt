//! Commands on checkpoints, and the moment that these are made at: what they may be given, and what
//! they ask for then. Their errors: `Usage` where a word is not of its kind, and `Memory`.
ghost use Rattle.std.specs.Prelude.{◌≡◌};
ghost use Rattle.nl_types.specs.Plain.Calls.{IsUnless};
ghost use Rattle.nl_commands.specs.CheckpointCommands.{at_given, chcp_given, lscp_given, mkcp_given, mode_at, mode_if, mode_in, rmcp_given};

use crate::command::Command;
use crate::error::LineError;
use crate::grammar::{Argument, Given};
use crate::operands::{checkpoint_at, number_at, numbers_at, optional_number_at, ranges_at};
use nl_types::{ListOptions, Mode};
use std::alloc::Global;

pub const AT_ARGUMENTS: &[Argument<'static>] = &[Argument::Operand("moment")];

/// `at MOMENT`
pub fn at(given: &Given<'_>) -> Result<Command, LineError>
    ensures { result ≡ at_given given.now }
{
    let moment = number_at(given, "moment")?;
    Ok(Command::At(moment))
}

pub const MKCP_ARGUMENTS: &[Argument<'static>] = &[Argument::Flag("snapshot", 's')];

fn mode_if(is_snapshot: bool) -> Mode
    ensures { result ≡ mode_if is_snapshot }
{
    if is_snapshot {
        Mode::Snapshot
    } else {
        Mode::Plain
    }
}

/// `mkcp [-s]`
pub fn mkcp(given: &Given<'_>) -> Command
    ensures { result ≡ mkcp_given given.now }
{
    let is_snapshot = given.has("snapshot");
    Command::Mkcp(mode_if(is_snapshot))
}

pub const CHCP_ARGUMENTS: &[Argument<'static>] = &[
    Argument::Operand("mode"),
    Argument::Operands("numbers"),
];

fn mode_in(word: &str) -> Result<Mode, LineError>
    ensures { result ≡ mode_in word.now }
{
    match word {
        "cp" => Ok(Mode::Plain),
        "ss" => Ok(Mode::Snapshot),
        _ => Err(LineError::Usage),
    }
}

fn mode_at(given: &Given<'_>, id: &str) -> Result<Mode, LineError>
    ensures { result ≡ mode_at id.now given.now }
{
    match given.text(id) {
        Some(word) => mode_in(word),
        None => Err(LineError::Usage),
    }
}

/// `chcp cp|ss NUMBER..`
pub fn chcp(alloc: Global, given: &Given<'_>) -> Result<Command, LineError>
    ensures { IsUnless LineError.Memory result (chcp_given given.now) }
{
    let mode = mode_at(given, "mode")?;
    let numbers = numbers_at(alloc, given, "numbers")?;
    Ok(Command::Chcp(mode, numbers))
}

pub const LSCP_ARGUMENTS: &[Argument<'static>] = &[
    Argument::Flag("reverse", 'r'),
    Argument::Flag("snapshots", 's'),
    Argument::Flag("minor", 'a'),
    Argument::Value("from", 'i'),
    Argument::Value("count", 'n'),
];

/// `lscp [-r] [-s] [-a] [-i NUMBER] [-n COUNT]`
pub fn lscp(given: &Given<'_>) -> Result<Command, LineError>
    ensures { result ≡ lscp_given given.now }
{
    let from = checkpoint_at(given, "from")?;
    let count = optional_number_at(given, "count")?;
    let options = ListOptions {
        reverse: given.has("reverse"),
        snapshots_only: given.has("snapshots"),
        with_minor: given.has("minor"),
        from,
        count,
    };
    Ok(Command::Lscp(options))
}

pub const RMCP_ARGUMENTS: &[Argument<'static>] = &[
    Argument::Flag("quiet", 'f'),
    Argument::Operands("ranges"),
];

/// `rmcp [-f] RANGE..`
pub fn rmcp(alloc: Global, given: &Given<'_>) -> Result<Command, LineError>
    ensures { IsUnless LineError.Memory result (rmcp_given given.now) }
{
    let quiet = given.has("quiet");
    let ranges = ranges_at(alloc, given, "ranges")?;
    Ok(Command::Rmcp { quiet, ranges })
}
