//! Needed pages are listed, and moved out of their segment.
ghost use Rattle.std.specs.Prelude.{◌≡◌, ◌<◌, ◌≤◌, IfOk, IfErr, OnErr, OnOk, length, take};
ghost use Rattle.nl_types.specs.Blocks.Entries.{is_needed};
ghost use Rattle.nl_types.specs.Blocks.Segments.{IsClosed};
ghost use Rattle.nl_vstore.specs.Located.{needed_in, needed_count};
ghost use Rattle.nl_vstore.specs.Stores.{IsMoved, IsMoveRefused};
ghost use Rattle.nl_reclaim.specs.Cleaning.{CanBeMoved, HasListedFirst, HasListedNone, split};

use crate::judging::judge;
use crate::keeping::Keeping;
use crate::needed::{Needed, first_needed};
use nl_types::{CheckpointNumber, Segment, VolError};
use nl_vstore::Vstore;
use std::alloc::Global;

/// How many pages a move took out of its segment, and how many needed ones are left in it.
#[derive(Clone, Copy)]
pub struct MoveCount {
    pub moved: u32,
    pub left: u32,
}

fn split_count(count: u32, limit: u32) -> MoveCount
    ensures { result ≡ split limit count }
{
    if count < limit {
        MoveCount {
            moved: count,
            left: 0,
        }
    } else {
        MoveCount {
            moved: limit,
            left: count - limit,
        }
    }
}

/// The first needed numbers of a segment that takes no more logs, and how many there are.
fn list_first<V: Vstore, K: Keeping>(
    alloc: Global,
    store: &V,
    keeping: &K,
    segment: Segment,
    limit: u32,
) -> Result<Needed, VolError>
    requires segment { segment < length (V.store store.now).segments.each }
    requires closed { IsClosed (V.store store.now).segments segment }
    ensures first { IfOk result (λ n. n.first.items
        ≡ take limit (needed_in (V.store store.now) (is_needed (K.kept keeping.now)) segment)) }
    ensures count { IfOk result (λ n. n.count
        ≡ needed_count (V.store store.now) (is_needed (K.kept keeping.now)) segment) }
    ensures movable { IfOk result (λ n. CanBeMoved segment n.first.items (V.store store.now)) }
    ensures refused { OnErr result (result ≡ Err VolError.Memory) }
{
    let needed = first_needed(alloc, store, keeping, segment, limit)?;
    Ok(needed)
}

/// The first half of a move: it lists the first needed numbers of a segment, by block and up to a limit, and
/// counts all of them. It looks at each block of the segment.
///
/// Refused by `BadRange` for a limit of 0, then as `judge` says, before anything is looked at. Then refused
/// by `Memory`.
pub fn list_needed<V: Vstore, K: Keeping>(
    alloc: Global,
    store: &V,
    keeping: &K,
    segment: Segment,
    limit: u32,
) -> Result<Needed, VolError>
    ensures listed { IfOk result (λ n. HasListedFirst (is_needed (K.kept keeping.now)) segment limit
        (V.store store.now) n.first.items n.count) }
    ensures movable { IfOk result (λ n. CanBeMoved segment n.first.items (V.store store.now)) }
    ensures refused { IfErr result (HasListedNone segment limit (V.store store.now)) }
{
    if limit == 0 {
        return Err(VolError::BadRange);
    }
    match judge(store.table(), segment) {
        Ok(_) => list_first(alloc, store, keeping, segment, limit),
        Err(refusal) => Err(refusal),
    }
}

/// The second half: the pages of the listed numbers are moved elsewhere, in that order, each read from the
/// device and written again. It answers how many these are, and how many needed ones are left. The checkpoint
/// is the one of the logs' summaries, and `now` their moment in whole seconds.
///
/// Refused by `NoSpace` where no list of logs fits, by `Memory`, and by `Fault` where the device failed: no
/// number has changed then.
pub fn move_listed<V: Vstore>(
    alloc: Global,
    store: &mut V,
    needed: &Needed,
    segment: Segment,
    checkpoint: CheckpointNumber,
    now: u64,
) -> Result<MoveCount, VolError>
    requires { CanBeMoved segment needed.now.first.items (V.store store.old) }
    ensures count { IfOk result (λ m. m ≡ split (length needed.now.first.items) needed.now.count) }
    ensures moved { OnOk result (IsMoved segment checkpoint now needed.now.first.items
        (V.store store.old) (V.store store.new)) }
    ensures refused { IfErr result (IsMoveRefused checkpoint now needed.now.first.items
        (V.store store.old) (V.store store.new)) }
    ensures counted { (V.store store.old).failures ≤ (V.store store.new).failures }
{
    let first = needed.first.as_slice();
    match store.relocate(alloc, segment, first, checkpoint, now) {
        Ok(()) => Ok(split_count(needed.count, first.len() as u32)),
        Err(refusal) => Err(refusal),
    }
}
