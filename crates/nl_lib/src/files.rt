//! Changes of the files of the current tree. Each call is one event of the pen, with a copy of the bytes that
//! it is handed; where there is no memory for the copy, the event is refused by `Memory`.
//!
//! A path is refused by `BadPath` where it doesn't begin with a slash or is too long, and by `BadName` where
//! a part of it is no name. On the way to its last part a walk is refused by `NotFound` where nothing stands
//! at a part, and by `NotDir` where a file does. What else a call is refused by is said there.
ghost use Rattle.nl_types.specs.declared.event.Change.TheVariants as change;
ghost use Rattle.nl_types.specs.declared.event.Event.TheVariants.{Apply};
ghost use Rattle.nl_types.specs.declared.reply.Answer.TheVariants as answer;
ghost use Rattle.nl_commit.specs.Layout.{Does, unshared};
ghost use Rattle.nl_types.specs.Changes.{change_at};
ghost use Rattle.nl_types.specs.Replies.{reply_with};
ghost use Rattle.nl_lib.specs.Calls.{done_reply};

use crate::changes::{applied, apply};
use nl_core::Pen;
use nl_device::Device;
use nl_types::{Change, Event, Items, PathCall, VolError, copies, written};
use std::alloc::Global;

/// Changes what stands at a path.
fn change_path<D: Device>(
    alloc: Global,
    pen: &mut Pen<D>,
    call: PathCall,
    path: &[u8],
) -> Result<(), VolError>
    ensures { Does unshared pen.old (Apply (change_at call path.now)) (done_reply result) pen.new }
{
    pen.means_a_world();
    let Ok(path) = Items::from_slice(alloc, path) else {
        return Err(VolError::Memory);
    };
    apply(pen, Event::Apply(call.change(path)))
}

/// Makes an empty file. Refused by `Exists` where something stands at the path, and by `TooBig` where the
/// tree has as many paths as it may.
pub fn create<D: Device>(alloc: Global, pen: &mut Pen<D>, path: &[u8]) -> Result<(), VolError>
    ensures { Does unshared pen.old (Apply (change.Create path.now)) (done_reply result) pen.new }
{
    change_path(alloc, pen, PathCall::Create, path)
}

/// Makes an empty directory. Refused as `create` is.
pub fn mkdir<D: Device>(alloc: Global, pen: &mut Pen<D>, path: &[u8]) -> Result<(), VolError>
    ensures { Does unshared pen.old (Apply (change.Mkdir path.now)) (done_reply result) pen.new }
{
    change_path(alloc, pen, PathCall::Mkdir, path)
}

/// Sets where a file ends, in bytes. Where that is past its end, zeros stand between. Refused by `NotFound`
/// where nothing stands at the path, by `IsDir` where a directory does, and by `TooBig` where a file can't be
/// so large.
pub fn truncate<D: Device>(
    alloc: Global,
    pen: &mut Pen<D>,
    path: &[u8],
    size: u64,
) -> Result<(), VolError>
    ensures { Does unshared pen.old (Apply (change.Truncate path.now size)) (done_reply result) pen.new }
{
    change_path(alloc, pen, PathCall::Truncate(size), path)
}

/// Removes a file. Refused by `NotFound` where nothing stands at the path, and by `IsDir` where a directory
/// does.
pub fn remove<D: Device>(alloc: Global, pen: &mut Pen<D>, path: &[u8]) -> Result<(), VolError>
    ensures { Does unshared pen.old (Apply (change.Unlink path.now)) (done_reply result) pen.new }
{
    change_path(alloc, pen, PathCall::Unlink, path)
}

/// Removes an empty directory. Refused by `BadPath` for the root, by `NotFound` where nothing stands at the
/// path, by `NotDir` where a file does, and by `NotEmpty` where the directory has names.
pub fn rmdir<D: Device>(alloc: Global, pen: &mut Pen<D>, path: &[u8]) -> Result<(), VolError>
    ensures { Does unshared pen.old (Apply (change.Rmdir path.now)) (done_reply result) pen.new }
{
    change_path(alloc, pen, PathCall::Rmdir, path)
}

/// Writes bytes over those of a file from an offset on, and answers how many. Where the offset is past the
/// end, zeros stand between. A write of none changes nothing. Refused by `NotFound` where nothing stands at
/// the path, by `IsDir` where a directory does, and by `TooBig` where a file can't be so large.
pub fn write<D: Device>(
    alloc: Global,
    pen: &mut Pen<D>,
    path: &[u8],
    offset: u64,
    bytes: &[u8],
) -> Result<u64, VolError>
    ensures { Does unshared pen.old (Apply (change.Write path.now offset bytes.now))
        (reply_with answer.Written result) pen.new }
{
    pen.means_a_world();
    let Ok((path, bytes)) = copies(alloc, path, bytes) else {
        return Err(VolError::Memory);
    };
    let event = Event::Apply(Change::Write {
        path,
        offset,
        bytes,
    });
    written(applied(pen, event))
}

/// Gives what stands at a path another one, with all that lies below it, after POSIX. A file takes the place
/// of a file, and a directory that of an empty directory. To its own path it changes nothing.
///
/// Refused by `BadPath` for the root, by `NotFound` where nothing stands at the first path, and by
/// `IntoItself` where that is a directory above the second; then by `IsDir` and `NotDir` where a file would
/// take the place of a directory or a directory that of a file, and by `NotEmpty` where that directory has
/// names.
pub fn rename<D: Device>(
    alloc: Global,
    pen: &mut Pen<D>,
    from: &[u8],
    to: &[u8],
) -> Result<(), VolError>
    ensures { Does unshared pen.old (Apply (change.Rename from.now to.now)) (done_reply result) pen.new }
{
    pen.means_a_world();
    let Ok((from, to)) = copies(alloc, from, to) else {
        return Err(VolError::Memory);
    };
    apply(pen, Event::Apply(Change::Rename { from, to }))
}
