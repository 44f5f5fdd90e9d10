//! Events that steps ask for: files that are made and written, and checkpoints.
use nl_core::Pen;
use nl_device::MemDevice;
use nl_types::{Change, Event, Items, Mode, VolError, without_answer};
use std::alloc::{AllocError, Global};

/// Makes a file.
pub(crate) fn creation(alloc: Global, path: &[u8]) -> Result<Event, AllocError> {
    let path = Items::from_slice(alloc, path)?;
    Ok(Event::Apply(Change::Create { path }))
}

fn write_of(
    alloc: Global,
    path: &[u8],
    offset: u64,
    bytes: Items<u8>,
) -> Result<Event, AllocError> {
    let path = Items::from_slice(alloc, path)?;
    Ok(Event::Apply(Change::Write {
        path,
        offset,
        bytes,
    }))
}

/// Writes bytes from an offset on.
pub(crate) fn writing(
    alloc: Global,
    path: &[u8],
    offset: u64,
    bytes: &[u8],
) -> Result<Event, AllocError> {
    let bytes = Items::from_slice(alloc, bytes)?;
    write_of(alloc, path, offset, bytes)
}

/// Writes a byte so many times, from an offset on.
pub(crate) fn filling(
    alloc: Global,
    path: &[u8],
    offset: u64,
    byte: u8,
    count: usize,
) -> Result<Event, AllocError> {
    let bytes = vec![in alloc; byte; count]?;
    write_of(alloc, path, offset, Items::from_vec(bytes))
}

pub(crate) fn checkpoint(mode: Mode, moment: u64) -> Event {
    Event::Checkpoint { mode, moment }
}

/// Does an event whose answer doesn't matter.
pub(crate) fn done(pen: &mut Pen<MemDevice>, event: &Event) -> Result<(), VolError> {
    without_answer(pen.apply(event))
}

/// Does an event that nothing else needs. It is dropped here, by one call, and at no exit of a caller: a drop
/// that the compiler adds takes as long to prove as a hundred calls.
pub(crate) fn done_once(pen: &mut Pen<MemDevice>, event: Event) -> Result<(), VolError> {
    let went = done(pen, &event);
    drop(event);
    went
}

/// Does events whose answers don't matter, up to the first refusal.
pub(crate) fn do_all(pen: &mut Pen<MemDevice>, events: &[Event]) -> Result<(), VolError> {
    for event in events {
        done(pen, event)?;
    }
    Ok(())
}
