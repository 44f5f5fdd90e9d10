//! What room there is for the next checkpoint, in blocks.
ghost use Rattle.std.specs.Prelude.{◌≡◌};
ghost use Rattle.nl_c.specs.RoomCalls.{IsBoundTold, IsRoomBound, IsRoomTold, room_told};

use crate::status::{CLOSED, DONE, error_number};
use crate::volume::Volume;
use nl_core::{Pen, Room};
use nl_device::MemDevice;
use std::alloc::Global;

/// What a checkpoint takes of the room that there is.
#[repr(C)]
#[derive(Clone, Copy)]
pub struct RoomTold {
    /// How many blocks it writes, or no fewer.
    pub blocks: u64,
    /// How many it has room for.
    pub free: u64,
}

fn room_told(room: Room) -> RoomTold
    ensures { result ≡ room_told room }
{
    RoomTold {
        blocks: room.blocks as u64,
        free: room.free as u64,
    }
}

/// What is told without a draft.
fn bound_of(pen: &Pen<MemDevice>) -> RoomTold
    ensures { IsRoomBound pen.now result }
{
    RoomTold {
        blocks: pen.room_bound() as u64,
        free: pen.segments().room(true) as u64,
    }
}

/// Tells how many blocks the next checkpoint writes, and how many it has room for: where these are fewer, and
/// only there, it is refused by 16. It takes as long as the checkpoint without its writes.
///
/// Refused by 18.
#[unsafe(no_mangle)]
pub extern "C" fn nlvol_room(alloc: Global, volume: &mut Volume, room: &mut RoomTold) -> u32
    ensures told { IsRoomTold volume.old.place.held room.old result room.new }
    ensures same { volume.new.place.held ≡ volume.old.place.held }
{
    match volume.take(alloc) {
        None => CLOSED,
        Some(held) => {
            let found = held.pen.room();
            volume.put(held);
            match found {
                Ok(found) => {
                    *room = room_told(found);
                    DONE
                }
                Err(error) => error_number(error),
            }
        }
    }
}

/// Tells as many blocks as the next checkpoint writes, or more, and how many it has room for. It takes no
/// memory, and looks at nothing that changed.
#[unsafe(no_mangle)]
pub extern "C" fn nlvol_room_bound(alloc: Global, volume: &mut Volume, room: &mut RoomTold) -> u32
    ensures told { IsBoundTold volume.old.place.held room.old result room.new }
    ensures same { volume.new.place.held ≡ volume.old.place.held }
{
    match volume.take(alloc) {
        None => CLOSED,
        Some(held) => {
            *room = bound_of(&held.pen);
            volume.put(held);
            DONE
        }
    }
}
