//! Commands on segments and mounts: what they may be given, and what they ask for then. Their error:
//! `Usage` where a word is not of its kind.
ghost use Rattle.std.specs.Prelude.{◌≡◌};
ghost use Rattle.nl_commands.specs.SegmentCommands.{lssu_given, mount_given, resize_given, umount_given};

use crate::command::Command;
use crate::error::LineError;
use crate::grammar::{Argument, Given};
use crate::operands::number_at;
use nl_types::{CheckpointNumber, MountNumber};

pub const LSSU_ARGUMENTS: &[Argument<'static>] = &[
    Argument::Flag("all", 'a'),
    Argument::Flag("long", 'l'),
];

/// `lssu [-a] [-l]`
pub fn lssu(given: &Given<'_>) -> Command
    ensures { result ≡ lssu_given given.now }
{
    let all = given.has("all");
    let long = given.has("long");
    Command::Lssu { all, long }
}

pub const MOUNT_ARGUMENTS: &[Argument<'static>] = &[Argument::Operand("checkpoint")];

/// `mount CHECKPOINT`
pub fn mount(given: &Given<'_>) -> Result<Command, LineError>
    ensures { result ≡ mount_given given.now }
{
    let checkpoint = number_at(given, "checkpoint")?;
    Ok(Command::Mount(CheckpointNumber::new(checkpoint)))
}

pub const UMOUNT_ARGUMENTS: &[Argument<'static>] = &[Argument::Operand("mount")];

/// `umount MOUNT`
pub fn umount(given: &Given<'_>) -> Result<Command, LineError>
    ensures { result ≡ umount_given given.now }
{
    let mount = number_at(given, "mount")?;
    Ok(Command::Umount(MountNumber::new(mount)))
}

pub const RESIZE_ARGUMENTS: &[Argument<'static>] = &[Argument::Operand("segments")];

/// `resize SEGMENTS`
pub fn resize(given: &Given<'_>) -> Result<Command, LineError>
    ensures { result ≡ resize_given given.now }
{
    let segments = number_at(given, "segments")?;
    Ok(Command::Resize(segments))
}
