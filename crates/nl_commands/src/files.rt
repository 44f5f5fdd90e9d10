//! Commands that change the tree of files: what they may be given, and what they ask for then. Their
//! errors: `Usage` where a word is not of its kind, and `Memory`.
ghost use Rattle.std.specs.Prelude.{◌≡◌, min};
ghost use Rattle.nl_types.specs.Plain.Calls.{IsUnless};
ghost use Rattle.nl_commands.specs.FileCommands.{create_given, fill_given, mkdir_given, most_filled, mv_given, rm_given, rmdir_given, truncate_given, write_given};

use crate::command::Command;
use crate::error::LineError;
use crate::grammar::{Argument, Given};
use crate::numbers::number;
use crate::operands::{byte_in, bytes_at, bytes_of};
use nl_types::Change;
use nl_types::limits::FILE_LIMIT;
use std::alloc::Global;

/// One byte more than a file may have: what `fill` is refused for all greater counts too.
const MOST_FILLED: u64 = FILE_LIMIT + 1;

/// What `create`, `mkdir`, `rm` and `rmdir` are given.
pub const PATH_ARGUMENTS: &[Argument<'static>] = &[Argument::Operand("path")];

/// `create PATH`
pub fn create(alloc: Global, given: &Given<'_>) -> Result<Command, LineError>
    ensures { IsUnless LineError.Memory result (create_given given.now) }
{
    let path = bytes_at(alloc, given, "path")?;
    Ok(Command::Change(Change::Create { path }))
}

/// `mkdir PATH`
pub fn mkdir(alloc: Global, given: &Given<'_>) -> Result<Command, LineError>
    ensures { IsUnless LineError.Memory result (mkdir_given given.now) }
{
    let path = bytes_at(alloc, given, "path")?;
    Ok(Command::Change(Change::Mkdir { path }))
}

/// `rm PATH`
pub fn rm(alloc: Global, given: &Given<'_>) -> Result<Command, LineError>
    ensures { IsUnless LineError.Memory result (rm_given given.now) }
{
    let path = bytes_at(alloc, given, "path")?;
    Ok(Command::Change(Change::Unlink { path }))
}

/// `rmdir PATH`
pub fn rmdir(alloc: Global, given: &Given<'_>) -> Result<Command, LineError>
    ensures { IsUnless LineError.Memory result (rmdir_given given.now) }
{
    let path = bytes_at(alloc, given, "path")?;
    Ok(Command::Change(Change::Rmdir { path }))
}

/// What `mv`, `write`, `fill` and `truncate` are given: all operands as one argument, since the library looks
/// at each pair of arguments that are given.
pub const OPERANDS_ARGUMENTS: &[Argument<'static>] = &[Argument::Operands("operands")];

/// `mv FROM TO`
pub fn mv(alloc: Global, given: &Given<'_>) -> Result<Command, LineError>
    ensures { IsUnless LineError.Memory result (mv_given given.now) }
{
    let Some([from, to]) = given.texts("operands") else {
        return Err(LineError::Usage);
    };
    let from = bytes_of(alloc, from)?;
    let to = bytes_of(alloc, to)?;
    Ok(Command::Change(Change::Rename { from, to }))
}

/// `write PATH OFFSET TEXT`
pub fn write(alloc: Global, given: &Given<'_>) -> Result<Command, LineError>
    ensures { IsUnless LineError.Memory result (write_given given.now) }
{
    let Some([path, offset, text]) = given.texts("operands") else {
        return Err(LineError::Usage);
    };
    let offset = number(offset)?;
    let path = bytes_of(alloc, path)?;
    let bytes = bytes_of(alloc, text)?;
    Ok(Command::Change(Change::Write {
        path,
        offset,
        bytes,
    }))
}

fn counted(count: u64) -> u64
    ensures { result ≡ min count most_filled }
{
    if count < MOST_FILLED {
        count
    } else {
        MOST_FILLED
    }
}

/// `fill PATH OFFSET BYTE COUNT`
pub fn fill(alloc: Global, given: &Given<'_>) -> Result<Command, LineError>
    ensures { IsUnless LineError.Memory result (fill_given given.now) }
{
    let Some([path, offset, byte, count]) = given.texts("operands") else {
        return Err(LineError::Usage);
    };
    let offset = number(offset)?;
    let byte = byte_in(byte)?;
    let count = number(count)?;
    let path = bytes_of(alloc, path)?;
    Ok(Command::Fill {
        path,
        offset,
        byte,
        count: counted(count),
    })
}

/// `truncate PATH SIZE`
pub fn truncate(alloc: Global, given: &Given<'_>) -> Result<Command, LineError>
    ensures { IsUnless LineError.Memory result (truncate_given given.now) }
{
    let Some([path, size]) = given.texts("operands") else {
        return Err(LineError::Usage);
    };
    let size = number(size)?;
    let path = bytes_of(alloc, path)?;
    Ok(Command::Change(Change::Truncate { path, size }))
}
