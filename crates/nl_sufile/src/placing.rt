//! Which logs an event's payload goes into.
ghost use Rattle.std.specs.Prelude.{◌≡◌, ◌+◌, ◌≤◌, IfOk, IfErr, IsErrOf, IfSome, MatchOption, List};
ghost use Rattle.nl_types.specs.Plain.Limits as limits;
ghost use Rattle.nl_types.specs.declared.segment.Log.{Log};
ghost use Rattle.nl_types.specs.Blocks.Placing.{GoOn, has_room};
ghost use Rattle.nl_sufile.specs.Private.NextPlace.{IsNowhere, IsNextPlace};
ghost use Rattle.nl_sufile.specs.Private.Room.{payload_in, payload_left};
ghost use Rattle.nl_sufile.specs.Room.{HasRoomOn};
ghost use Rattle.nl_sufile.specs.Table.{IsNoSpaceOrMemory};

use crate::clean::FreeSegments;
use nl_types::{Log, MAX_PAYLOAD, Position, VolError};
use std::alloc::Global;

// Where the next log begins. A segment that it takes is not free then.
fn next_place(blocks: u32, left: Option<Position>, free: &mut FreeSegments<'_>) -> Option<Position>
    requires { IfSome left (λ place. place.block ≤ 4096) }
    ensures { MatchOption result (IsNowhere blocks left free.old)
        (λ place. IsNextPlace (has_room blocks left) blocks left free.old place free.new) }
{
    if let Some(place) = left
        && place.block + 2 <= blocks
    {
        return Some(place);
    }
    let segment = free.pop_first()?;
    Some(Position { segment, block: 0 })
}

/// The logs that take `n` payload blocks, from the place left on and in the free segments. Refused by
/// `NoSpace` where these end before the payload, and by `Memory`.
pub fn place_on(
    alloc: Global,
    blocks: u32,
    left: Option<Position>,
    free: FreeSegments<'_>,
    n: usize,
) -> Result<Vec<Log>, VolError>
    requires few { 2 ≤ blocks }
    requires many { blocks ≤ limits.segment_block_limit }
    requires inside { IfSome left (λ place. place.block ≤ blocks) }
    ensures fits { IfOk result (λ logs. GoOn blocks left free.entry n logs.items) }
    ensures none { IsErrOf result VolError.NoSpace → (logs : List Log) → GoOn blocks left free.entry n logs
        → ⊥ }
    ensures errors { IfErr result IsNoSpaceOrMemory }
{
    // A log that is shorter than the others ends its segment, or the list.
    let most = n / MAX_PAYLOAD as usize + free.len() + 2;
    let mut logs = Vec::with_capacity(alloc, most.min(n))?;
    let mut left = left;
    let mut free = free;
    let mut rest = n;
    while rest > 0 {
        let Some(place) = next_place(blocks, left, &mut free) else {
            return Err(VolError::NoSpace);
        };
        let room = (blocks - place.block - 1).min(MAX_PAYLOAD);
        let count = rest.min(room as usize) as u32;
        logs.push(Log {
            segment: place.segment,
            first: place.block,
            count,
        })?;
        rest -= count as usize;
        left = Some(Position {
            segment: place.segment,
            block: place.block + 1 + count,
        });
    }
    Ok(logs)
}

// How many payload blocks go into so many blocks of a segment, behind the summary blocks of their logs.
fn payload_in(blocks: u32) -> u32
    requires { blocks ≤ limits.segment_block_limit }
    ensures { result ≡ payload_in blocks }
{
    blocks - blocks.div_ceil(MAX_PAYLOAD + 1)
}

// How many payload blocks go into a segment from the place left on.
fn payload_left(blocks: u32, left: Option<Position>) -> u32
    requires many { blocks ≤ limits.segment_block_limit }
    requires inside { IfSome left (λ place. place.block ≤ blocks) }
    ensures value { result ≡ payload_left blocks left }
    ensures few { result ≤ blocks }
{
    match left {
        Some(place) => payload_in(blocks - place.block),
        None => 0,
    }
}

/// How many payload blocks logs take, from the place left on and in the free segments. It passes no segment,
/// and takes no memory.
pub fn room_on(blocks: u32, left: Option<Position>, free: FreeSegments<'_>) -> usize
    requires few { 2 ≤ blocks }
    requires many { blocks ≤ limits.segment_block_limit }
    requires inside { IfSome left (λ place. place.block ≤ blocks) }
    ensures { HasRoomOn blocks left free.entry result }
{
    let in_active = payload_left(blocks, left) as usize;
    let in_each = payload_in(blocks) as usize;
    in_active + free.len() * in_each
}
