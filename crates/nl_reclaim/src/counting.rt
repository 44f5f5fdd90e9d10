//! Counts of pages that are written or moved.
ghost use Rattle.std.specs.Prelude.{◌≡◌, ℕ, ◌<◌, length, map, slice_index_or};
ghost use Rattle.nl_types.specs.Blocks.PartialMaps.{Partial};
ghost use Rattle.nl_sufile.specs.BySegment.{one_less};
ghost use Rattle.nl_vstore.specs.Batches.{number_of_payload};
ghost use Rattle.nl_vstore.specs.Stores.{address_in};
ghost use Rattle.nl_reclaim.specs.PrivateCounts.Adding.{GetBlocks, LeaveSegment, mixed};
ghost use Rattle.nl_reclaim.specs.PrivateCounts.Places.{AreCountsIn, HasOneMore, HaveRoom};

use nl_sufile::{SegmentCounts, laws};
use nl_types::{Segment, VirtualNumber};
use nl_vstore::{Payload, Vstore};

/// One page more stands where that of the number does.
pub(crate) fn count_one<V: Vstore>(store: &V, counts: &mut SegmentCounts, number: VirtualNumber)
    requires { HaveRoom (V.store store.now) counts.old }
    ensures { HasOneMore (V.store store.now) number counts.old counts.new }
{
    if let Some(segment) = store.segment_of(number) {
        counts.add(segment);
    }
}

/// Counts the pages of births.
pub(crate) fn count_births<V: Vstore>(store: &V, counts: &mut SegmentCounts, births: &[Payload])
    requires { (old : Partial ℕ) × GetBlocks (V.store store.now) (map number_of_payload births.now) old
        × AreCountsIn (V.store store.now) old counts.old }
    ensures { (old : Partial ℕ) → GetBlocks (V.store store.now) (map number_of_payload births.now) old
        → AreCountsIn (V.store store.now) old counts.old
        → AreCountsIn (V.store store.now)
        (mixed (map number_of_payload births.now) (address_in (V.store store.now)) old) counts.new }
{
    laws::counts_follow_blocks();
    for birth in births {
        count_one(store, counts, birth.0.number);
    }
}

/// The page of a number stands in a segment no more.
fn move_one<V: Vstore>(
    store: &V,
    counts: &mut SegmentCounts,
    segment: Segment,
    number: VirtualNumber,
)
    requires room { HaveRoom (V.store store.now) counts.old }
    requires segment { segment < length counts.old }
    requires some { 0 < slice_index_or counts.old segment 0 }
    ensures { HasOneMore (V.store store.now) number (one_less segment counts.old) counts.new }
{
    counts.take(segment);
    count_one(store, counts, number);
}

/// Counts pages where they stand now, which stood in a segment.
pub(crate) fn count_moves<V: Vstore>(
    store: &V,
    counts: &mut SegmentCounts,
    segment: Segment,
    numbers: &[VirtualNumber],
)
    requires { (old : Partial ℕ) × LeaveSegment (V.store store.now) segment numbers.now old
        × AreCountsIn (V.store store.now) old counts.old }
    ensures { (old : Partial ℕ) → LeaveSegment (V.store store.now) segment numbers.now old
        → AreCountsIn (V.store store.now) old counts.old
        → AreCountsIn (V.store store.now)
        (mixed numbers.now (address_in (V.store store.now)) old) counts.new }
{
    laws::counts_follow_blocks();
    for number in numbers {
        move_one(store, counts, segment, *number);
    }
}
