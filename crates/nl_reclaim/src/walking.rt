//! The counts of a store, made by a walk over all its numbers.
ghost use Rattle.std.specs.Prelude.{◌≡◌, ℕ, ◌+◌, length, replicate, IfOk, OnOk};
ghost use Rattle.nl_types.specs.Blocks.Entries.{is_needed};
ghost use Rattle.nl_vstore.specs.Stores.{capacity, content_in};
ghost use Rattle.nl_reclaim.specs.EndLists.{with_found};
ghost use Rattle.nl_reclaim.specs.PrivateCounts.Places.{HaveRoom};
ghost use Rattle.nl_reclaim.specs.PrivateCounts.Walked.{HasWalked, ending_of};

use crate::counting::count_one;
use crate::ends::Ended;
use crate::{Keeping, is_number_needed};
use nl_sufile::{SegmentCounts, laws};
use nl_types::{CheckpointNumber, VirtualNumber};
use nl_vstore::Vstore;
use std::alloc::{AllocError, Global};

/// Puts a number behind the others, where it has ended.
fn note_end(
    ended: &mut Vec<Ended>,
    number: VirtualNumber,
    end: Option<CheckpointNumber>,
) -> Result<(), AllocError>
    ensures { OnOk result (ended.new.items ≡ with_found ended.old.items number end) }
{
    if let Some(end) = end {
        ended.push(Ended {
            number: Some(number),
            end,
        })?;
    }
    Ok(())
}

/// Where a number in use has ended.
fn end_of<V: Vstore>(store: &V, number: VirtualNumber) -> Option<CheckpointNumber>
    ensures { result ≡ ending_of (content_in (V.store store.now) number) }
{
    match store.period(number) {
        Some(period) => period.end,
        None => None,
    }
}

/// Counts a number where it is needed, and puts it behind the others where it has ended.
fn walk_one<V: Vstore, K: Keeping>(
    store: &V,
    keeping: &K,
    counts: &mut SegmentCounts,
    ended: &mut Vec<Ended>,
    number: VirtualNumber,
) -> Result<(), AllocError>
    requires { HaveRoom (V.store store.now) counts.old }
    ensures { OnOk result ((n : ℕ) → number ≡ n + 1
        → HasWalked (V.store store.now) (is_needed (K.kept keeping.now)) n counts.old ended.old.items
        → HasWalked (V.store store.now) (is_needed (K.kept keeping.now)) number counts.new ended.new.items) }
{
    laws::counts_follow_blocks();
    if is_number_needed(store, keeping, number) {
        count_one(store, counts, number);
        note_end(ended, number, end_of(store, number))?;
        Ok(())
    } else {
        Ok(())
    }
}

/// Counts the needed numbers of a store, and answers the ends of those that have ended.
pub(crate) fn walk<V: Vstore, K: Keeping>(
    alloc: Global,
    store: &V,
    keeping: &K,
    counts: &mut SegmentCounts,
) -> Result<Vec<Ended>, AllocError>
    requires { counts.old ≡ replicate (length (V.store store.now).segments.each) 0 }
    ensures { IfOk result (λ ended. HasWalked (V.store store.now) (is_needed (K.kept keeping.now))
        (capacity (V.store store.now)) counts.new ended.items) }
{
    laws::counts_follow_blocks();
    let mut ended = Vec::new(alloc);
    for below in 0..store.capacity() {
        let number = VirtualNumber::new(below + 1);
        walk_one(store, keeping, counts, &mut ended, number)?;
    }
    Ok(ended)
}
