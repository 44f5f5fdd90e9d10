//! Numbers that no kept checkpoint needs any more.
ghost use Rattle.std.specs.Prelude.{◌≡◌, ◌<◌, ◌≤◌, ℕ, List, Some, length, not};
ghost use Rattle.std.specs.Bool.{OnFalse, OnTrue};
ghost use Rattle.nl_types.specs.Blocks.Entries.{is_needed};
ghost use Rattle.nl_vstore.specs.Located.{needs};
ghost use Rattle.nl_vstore.specs.Stores.{content_in};
ghost use Rattle.nl_reclaim.specs.declared.ends.Ended.{Ended};
ghost use Rattle.nl_reclaim.specs.EndLists.{end_at};
ghost use Rattle.nl_reclaim.specs.PrivateCounts.Listed.{AreListed, HasLetGo, HasLetGoAll, IsTakenOff, ListsAt};

use crate::ends::Ends;
use crate::{Keeping, is_number_needed};
use nl_sufile::{SegmentCounts, laws};
use nl_types::VirtualNumber;
use nl_vstore::Vstore;

/// Takes a listed number off the count of its segment where it isn't needed, and tells whether.
fn take_off<V: Vstore, K: Keeping>(
    store: &V,
    keeping: &K,
    counts: &mut SegmentCounts,
    number: VirtualNumber,
) -> bool
    requires { (ends : List Ended) × (index : ℕ) × AreListed (V.store store.now) counts.old ends
        × ListsAt ends index (Some number) }
    ensures told { result ≡ not
        (needs (is_needed (K.kept keeping.now)) (content_in (V.store store.now)) number) }
    ensures taken { OnTrue result (IsTakenOff (V.store store.now) number counts.old counts.new) }
    ensures same { OnFalse result (counts.new ≡ counts.old) }
{
    laws::counts_follow_blocks();
    if is_number_needed(store, keeping, number) {
        return false;
    }
    match store.segment_of(number) {
        Some(segment) => {
            counts.take(segment);
            true
        }
        None => unreachable!(),
    }
}

/// Lets the number at a place go, where it isn't needed, and takes it off the count of its segment.
fn let_one_go<V: Vstore, K: Keeping>(
    store: &V,
    keeping: &K,
    counts: &mut SegmentCounts,
    ends: &mut Ends,
    index: usize,
)
    requires index { index < length ends.old.ended }
    requires listed { AreListed (V.store store.now) counts.old ends.old.ended }
    ensures listed { AreListed (V.store store.now) counts.new ends.new.ended }
    ensures gone { HasLetGo (needs (is_needed (K.kept keeping.now)) (content_in (V.store store.now)))
        index ends.old.ended ends.new.ended }
    ensures room { ends.new.room ≡ ends.old.room }
{
    let Some(number) = ends.number(index) else {
        return;
    };
    laws::counts_follow_blocks();
    if take_off(store, keeping, counts, number) {
        ends.blank(index);
    }
}

/// Lets all numbers of a run of places go that aren't needed, and takes each off the count of its segment.
pub(crate) fn let_go<V: Vstore, K: Keeping>(
    store: &V,
    keeping: &K,
    counts: &mut SegmentCounts,
    ends: &mut Ends,
    from: usize,
    to: usize,
)
    requires order { from ≤ to }
    requires run { to ≤ length ends.old.ended }
    requires listed { AreListed (V.store store.now) counts.old ends.old.ended }
    ensures listed { AreListed (V.store store.now) counts.new ends.new.ended }
    ensures gone { HasLetGoAll (needs (is_needed (K.kept keeping.now)) (content_in (V.store store.now)))
        from to ends.old.ended ends.new.ended }
    ensures room { ends.new.room ≡ ends.old.room }
{
    for index in from..to {
        let_one_go(store, keeping, counts, ends, index);
    }
}

/// Takes the number at a place off the count of its segment, where it isn't needed. The list stays, as if the
/// number were still there: `left` is what would be left of it.
fn take_one_off<V: Vstore, K: Keeping>(
    store: &V,
    keeping: &K,
    counts: &mut SegmentCounts,
    ends: &Ends,
    index: usize,
)
    requires { (left : List Ended) × AreListed (V.store store.now) counts.old left
        × ListsAt left index (end_at ends.now.ended index).number }
    ensures { (left : List Ended) → AreListed (V.store store.now) counts.old left
        → ListsAt left index (end_at ends.now.ended index).number
        → (new : List Ended) × AreListed (V.store store.now) counts.new new
        × HasLetGo (needs (is_needed (K.kept keeping.now)) (content_in (V.store store.now))) index left new }
{
    let Some(number) = ends.number(index) else {
        return;
    };
    laws::counts_follow_blocks();
    let _ = take_off(store, keeping, counts, number);
}

/// Takes all numbers of a run of places that aren't needed off the counts of their segments. The list of ends
/// stays.
pub(crate) fn take_run_off<V: Vstore, K: Keeping>(
    store: &V,
    keeping: &K,
    counts: &mut SegmentCounts,
    ends: &Ends,
    from: usize,
    to: usize,
)
    requires order { from ≤ to }
    requires run { to ≤ length ends.now.ended }
    requires listed { AreListed (V.store store.now) counts.old ends.now.ended }
    ensures { (left : List Ended) × AreListed (V.store store.now) counts.new left
        × HasLetGoAll (needs (is_needed (K.kept keeping.now)) (content_in (V.store store.now)))
        from to ends.now.ended left }
{
    for index in from..to {
        take_one_off(store, keeping, counts, ends, index);
    }
}
