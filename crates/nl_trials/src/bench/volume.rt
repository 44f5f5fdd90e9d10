//! The volume that is measured, and what is done on it.
use crate::events::{checkpoint, creation, filling};
use crate::volumes;
use nl_core::Pen;
use nl_device::MemDevice;
use nl_types::{Event, Mode, VolError};
use std::alloc::{AllocError, Global};

/// The least bytes of the large file.
pub(crate) const LENGTH: usize = 1_048_576;

/// The segments of a volume, of 64 blocks each, whose large file has so many bytes.
pub(crate) fn segments_for(length: usize) -> u32 {
    if length > LENGTH { 2048 } else { 256 }
}

/// The path of a file that is read.
pub(crate) fn large() -> &'static [u8] {
    b"/large"
}

/// The path of a file of one byte, which is overwritten.
fn small() -> &'static [u8] {
    b"/small"
}

pub(crate) fn small_creation(alloc: Global) -> Result<Event, AllocError> {
    creation(alloc, small())
}

/// One byte over that of the small file, another one each turn.
pub(crate) fn small_write(alloc: Global, turn: u64) -> Result<Event, AllocError> {
    filling(alloc, small(), 0, (turn % 256) as u8, 1)
}

pub(crate) fn plain_checkpoint() -> Event {
    checkpoint(Mode::Plain, 0)
}

/// Adds what makes both files, and snapshot 2 of them. The list is lent, so that no exit drops it.
fn add_preparation(
    alloc: Global,
    length: usize,
    events: &mut Vec<Event>,
) -> Result<(), AllocError> {
    events.push(small_creation(alloc)?)?;
    events.push(creation(alloc, large())?)?;
    events.push(filling(alloc, large(), 0, b'a', length)?)?;
    events.push(checkpoint(Mode::Snapshot, 0))?;
    Ok(())
}

/// What makes both files, the large one of so many bytes, and snapshot 2 of them.
pub(crate) fn preparation(alloc: Global, length: usize) -> Result<Vec<Event>, AllocError> {
    let mut events = Vec::new(alloc);
    add_preparation(alloc, length, &mut events)?;
    Ok(events)
}

/// A pen on a new volume, whose large file will have so many bytes.
pub(crate) fn new_pen(alloc: Global, length: usize) -> Result<Pen<MemDevice>, VolError> {
    volumes::new_pen(alloc, segments_for(length), 64)
}
