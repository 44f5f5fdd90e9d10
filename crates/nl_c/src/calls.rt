//! One event of the volume that a handle leads to, and what of it goes back to the caller.
ghost use Rattle.std.specs.Prelude.{◌≡◌, IfErr, IfOk};
ghost use Rattle.nl_c.specs.Calls.{Answers, Applies, IsDone};
ghost use Rattle.nl_c.specs.Statuses.{memory};

use crate::status::{CLOSED, DONE, MEMORY, error_number};
use crate::volume::Volume;
use nl_types::{Answer, Event, Items, Reply};
use std::alloc::Global;

/// Does an event. None where the handle is closed.
fn apply(alloc: Global, volume: &mut Volume, event: &Event) -> Option<Reply>
    ensures { Applies volume.old.place.held event.now result volume.new.place.held }
{
    let mut held = volume.take(alloc)?;
    held.pen.means_a_world();
    let reply = held.pen.apply(event);
    volume.put(held);
    Some(reply)
}

/// Does an event. Refused by the number of its refusal, or by that of a closed handle.
pub(crate) fn answer(alloc: Global, volume: &mut Volume, event: &Event) -> Result<Answer, u32>
    ensures { Answers volume.old.place.held event.now result volume.new.place.held }
{
    match apply(alloc, volume, event) {
        None => Err(CLOSED),
        Some(Ok(answer)) => Ok(answer),
        Some(Err(error)) => Err(error_number(error)),
    }
}

/// Does an event whose answer says no more than that it is done.
pub(crate) fn done(alloc: Global, volume: &mut Volume, event: &Event) -> u32
    ensures { IsDone volume.old.place.held event.now result volume.new.place.held }
{
    match answer(alloc, volume, event) {
        Ok(_) => DONE,
        Err(status) => status,
    }
}

/// A copy of what the caller lends.
pub(crate) fn copied(alloc: Global, bytes: &[u8]) -> Result<Items<u8>, u32>
    ensures copied { IfOk result (λ copied. copied ≡ bytes.now) }
    ensures refused { IfErr result (λ status. status ≡ memory) }
{
    match Items::from_slice(alloc, bytes) {
        Ok(copied) => Ok(copied),
        Err(_) => Err(MEMORY),
    }
}
