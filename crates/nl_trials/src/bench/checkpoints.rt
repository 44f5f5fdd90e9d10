//! Checkpoints of one changed block on a pen, by the call for events alone or by the one for events beside
//! readers.
use crate::bench::volume::{LENGTH, new_pen, plain_checkpoint, small_creation, small_write};
use crate::events::{done, done_once};
use nl_core::{Commit, Pen};
use nl_device::MemDevice;
use nl_types::{Event, VolError, without_answer};
use std::alloc::Global;

/// The pen's call that an event is done by.
#[derive(Clone, Copy)]
pub(crate) enum Call {
    Apply,
    ApplyNoting,
}

fn done_noting(
    pen: &mut Pen<MemDevice>,
    event: &Event,
    notes: &mut Vec<Commit>,
) -> Result<(), VolError> {
    without_answer(pen.apply_noting(event, notes))
}

/// Does an event on the pen. The commits of one beside readers are dropped.
fn done_by(
    pen: &mut Pen<MemDevice>,
    call: Call,
    event: Event,
    notes: &mut Vec<Commit>,
) -> Result<(), VolError> {
    let went = match call {
        Call::Apply => done(pen, &event),
        Call::ApplyNoting => done_noting(pen, &event, notes),
    };
    notes.clear();
    drop(event);
    went
}

/// Overwrites the file's byte.
fn overwrite(
    alloc: Global,
    pen: &mut Pen<MemDevice>,
    call: Call,
    turn: u64,
    notes: &mut Vec<Commit>,
) -> Result<(), VolError> {
    done_by(pen, call, small_write(alloc, turn)?, notes)
}

/// Overwrites the file's byte so often, with a checkpoint behind each.
fn overwrite_often(
    alloc: Global,
    pen: &mut Pen<MemDevice>,
    call: Call,
    count: u64,
    notes: &mut Vec<Commit>,
) -> Result<(), VolError> {
    for turn in 0..count {
        overwrite(alloc, pen, call, turn, notes)?;
        done_by(pen, call, plain_checkpoint(), notes)?;
    }
    Ok(())
}

fn make_file(alloc: Global, pen: &mut Pen<MemDevice>) -> Result<(), VolError> {
    done_once(pen, small_creation(alloc)?)
}

/// Makes the file, and so many changes of it.
fn change_often(
    alloc: Global,
    pen: &mut Pen<MemDevice>,
    call: Call,
    count: u64,
) -> Result<(), VolError> {
    make_file(alloc, pen)?;
    let mut notes = Vec::new(alloc);
    overwrite_often(alloc, pen, call, count, &mut notes)
}

/// Makes so many checkpoints.
pub(crate) fn make_checkpoints(alloc: Global, call: Call, count: u64) -> Result<(), VolError> {
    let mut pen = new_pen(alloc, LENGTH)?;
    let went = change_often(alloc, &mut pen, call, count);
    drop(pen);
    went
}
