//! Changes of the current tree. A path is bytes, and each call is one event with a copy of what it is lent.
ghost use Rattle.nl_types.specs.declared.event.Change.TheVariants as change;
ghost use Rattle.nl_types.specs.declared.event.Event.TheVariants.{Apply};
ghost use Rattle.nl_c.specs.Calls.{IsDoneUnlessMemory};

use crate::calls::{copied, done};
use crate::status::MEMORY;
use crate::volume::Volume;
use nl_types::{Change, Event};
use std::alloc::Global;

/// Makes an empty file.
#[unsafe(no_mangle)]
pub extern "C" fn nlvol_create(alloc: Global, volume: &mut Volume, path: &[u8]) -> u32
    ensures { IsDoneUnlessMemory volume.old.place.held
        (Apply (change.Create path.now)) result volume.new.place.held }
{
    match copied(alloc, path) {
        Ok(path) => done(alloc, volume, &Event::Apply(Change::Create { path })),
        Err(status) => status,
    }
}

/// Makes an empty directory.
#[unsafe(no_mangle)]
pub extern "C" fn nlvol_mkdir(alloc: Global, volume: &mut Volume, path: &[u8]) -> u32
    ensures { IsDoneUnlessMemory volume.old.place.held
        (Apply (change.Mkdir path.now)) result volume.new.place.held }
{
    match copied(alloc, path) {
        Ok(path) => done(alloc, volume, &Event::Apply(Change::Mkdir { path })),
        Err(status) => status,
    }
}

/// Removes a file.
#[unsafe(no_mangle)]
pub extern "C" fn nlvol_unlink(alloc: Global, volume: &mut Volume, path: &[u8]) -> u32
    ensures { IsDoneUnlessMemory volume.old.place.held
        (Apply (change.Unlink path.now)) result volume.new.place.held }
{
    match copied(alloc, path) {
        Ok(path) => done(alloc, volume, &Event::Apply(Change::Unlink { path })),
        Err(status) => status,
    }
}

/// Removes an empty directory.
#[unsafe(no_mangle)]
pub extern "C" fn nlvol_rmdir(alloc: Global, volume: &mut Volume, path: &[u8]) -> u32
    ensures { IsDoneUnlessMemory volume.old.place.held
        (Apply (change.Rmdir path.now)) result volume.new.place.held }
{
    match copied(alloc, path) {
        Ok(path) => done(alloc, volume, &Event::Apply(Change::Rmdir { path })),
        Err(status) => status,
    }
}

/// Gives what stands at a path another one, with all that lies below it.
#[unsafe(no_mangle)]
pub extern "C" fn nlvol_rename(alloc: Global, volume: &mut Volume, from: &[u8], to: &[u8]) -> u32
    ensures { IsDoneUnlessMemory volume.old.place.held
        (Apply (change.Rename from.now to.now)) result volume.new.place.held }
{
    match (copied(alloc, from), copied(alloc, to)) {
        (Ok(from), Ok(to)) => done(alloc, volume, &Event::Apply(Change::Rename { from, to })),
        _ => MEMORY,
    }
}

/// Sets where a file ends, in bytes. Where that is past its end, zeros stand between.
#[unsafe(no_mangle)]
pub extern "C" fn nlvol_truncate(alloc: Global, volume: &mut Volume, path: &[u8], size: u64) -> u32
    ensures { IsDoneUnlessMemory volume.old.place.held
        (Apply (change.Truncate path.now size)) result volume.new.place.held }
{
    match copied(alloc, path) {
        Ok(path) => done(
            alloc,
            volume,
            &Event::Apply(Change::Truncate { path, size }),
        ),
        Err(status) => status,
    }
}

/// Writes bytes over those of a file from an offset on. Where the offset is past the end, zeros stand
/// between.
#[unsafe(no_mangle)]
pub extern "C" fn nlvol_write(
    alloc: Global,
    volume: &mut Volume,
    path: &[u8],
    offset: u64,
    bytes: &[u8],
) -> u32
    ensures { IsDoneUnlessMemory volume.old.place.held
        (Apply (change.Write path.now offset bytes.now)) result volume.new.place.held }
{
    match (copied(alloc, path), copied(alloc, bytes)) {
        (Ok(path), Ok(bytes)) => {
            let change = Change::Write {
                path,
                offset,
                bytes,
            };
            done(alloc, volume, &Event::Apply(change))
        }
        _ => MEMORY,
    }
}
