//! Commands that show what is at a path: what they may be given, and what they ask for then. Their
//! errors: `Usage` where a word is not of its kind, and `Memory`.
ghost use Rattle.nl_types.specs.Plain.Calls.{IsUnless};
ghost use Rattle.nl_commands.specs.AskingCommands.{catm_given, show_given};

use crate::command::{Command, Shown};
use crate::error::LineError;
use crate::grammar::{Argument, Given};
use crate::operands::{bytes_at, mount_at, number_at, paths_at};
use nl_types::MountNumber;
use std::alloc::Global;

pub const SHOW_ARGUMENTS: &[Argument<'static>] = &[
    Argument::Value("mount", 'm'),
    Argument::Operand("path"),
];

/// `cat [-m MOUNT] PATH`, `ls [-m MOUNT] PATH` or `stat [-m MOUNT] PATH`
pub fn show(alloc: Global, what: Shown, given: &Given<'_>) -> Result<Command, LineError>
    ensures { IsUnless LineError.Memory result (show_given what given.now) }
{
    let mount = mount_at(given, "mount")?;
    let path = bytes_at(alloc, given, "path")?;
    Ok(Command::Show { what, mount, path })
}

pub const CATM_ARGUMENTS: &[Argument<'static>] = &[
    Argument::Operand("mount"),
    Argument::Operands("path"),
];

/// `catm MOUNT PATH..`
pub fn catm(alloc: Global, given: &Given<'_>) -> Result<Command, LineError>
    ensures { IsUnless LineError.Memory result (catm_given given.now) }
{
    let mount = number_at(given, "mount")?;
    let paths = paths_at(alloc, given, "path")?;
    Ok(Command::Catm {
        mount: MountNumber::new(mount),
        paths,
    })
}
