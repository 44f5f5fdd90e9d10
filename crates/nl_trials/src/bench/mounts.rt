//! Reads of a mount on a pen.
use crate::bench::clock::{now, since};
use crate::bench::volume::{LENGTH, large, new_pen, preparation};
use crate::events::{do_all, done, done_once};
use nl_core::Pen;
use nl_device::MemDevice;
use nl_types::{Ask, CheckpointNumber, Event, Items, MountNumber, VolError};
use std::alloc::{AllocError, Global};
use std::time::{Clock, Duration};

/// Mounts the snapshot. The first mount of a volume has number 1.
fn mount(pen: &mut Pen<MemDevice>) -> Result<MountNumber, VolError> {
    done_once(pen, Event::Mount(CheckpointNumber::new(2)))?;
    Ok(MountNumber::new(1))
}

fn prepare(alloc: Global, pen: &mut Pen<MemDevice>) -> Result<(), VolError> {
    let events = preparation(alloc, LENGTH)?;
    do_all(pen, events.as_slice())
}

/// A read of the large file.
fn read_of(alloc: Global, mount: MountNumber) -> Result<Event, AllocError> {
    let path = Items::from_slice(alloc, large())?;
    let len = LENGTH as u64;
    Ok(Event::MountRead(
        mount,
        Ask::Bytes {
            path,
            offset: 0,
            len,
        },
    ))
}

fn read_often(pen: &mut Pen<MemDevice>, read: &Event, count: u64) -> Result<(), VolError> {
    for _ in 0..count {
        done(pen, read)?;
    }
    Ok(())
}

fn time_often<R: Clock>(
    rt: &R,
    pen: &mut Pen<MemDevice>,
    read: &Event,
    count: u64,
) -> Result<Duration, VolError> {
    let begun = now(rt)?;
    read_often(pen, read, count)?;
    since(rt, begun)
}

fn time_reads<R: Clock>(
    rt: &R,
    pen: &mut Pen<MemDevice>,
    read: Event,
    count: u64,
) -> Result<Duration, VolError> {
    let took = time_often(rt, pen, &read, count);
    drop(read);
    took
}

fn time_on<R: Clock>(
    rt: &R,
    alloc: Global,
    pen: &mut Pen<MemDevice>,
    count: u64,
) -> Result<Duration, VolError> {
    prepare(alloc, pen)?;
    let mount = mount(pen)?;
    time_reads(rt, pen, read_of(alloc, mount)?, count)
}

/// How long so many reads take, each into new memory.
pub(crate) fn read_pen<R: Clock>(rt: &R, alloc: Global, count: u64) -> Result<Duration, VolError> {
    let mut pen = new_pen(alloc, LENGTH)?;
    let took = time_on(rt, alloc, &mut pen, count);
    pen.give_all_back();
    drop(pen);
    took
}
