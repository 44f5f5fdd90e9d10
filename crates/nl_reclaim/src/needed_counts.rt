//! The counts of needed numbers, as events change them.
ghost use Rattle.std.specs.Prelude.{◌≡◌, ℕ, ◌<◌, ◌≤◌, List, [], ◌∷◌, ◌++◌, length, replicate, slice_get, IfOk, IsOkUnless, OnErr, OnOk};
ghost use Rattle.std.specs.Option.{ok_or};
ghost use Rattle.nl_types.specs.Blocks.Entries.{is_needed};
ghost use Rattle.nl_types.specs.Blocks.NeedLaws.{AreGone};
ghost use Rattle.nl_vstore.specs.Counts.{needed_counts};
ghost use Rattle.nl_vstore.specs.Stores.{Store};
ghost use Rattle.nl_reclaim.specs.Counted.{IsCounted, with_first, with_segments};
ghost use Rattle.nl_reclaim.specs.Events.{HasMovedNeeded, IsLatest, IsNextWritten};

use crate::Keeping;
use crate::counting::{count_births, count_moves};
use crate::ends::Ends;
use crate::letting_go::{let_go, take_run_off};
use crate::walking::walk;
use nl_sufile::SegmentCounts;
use nl_types::{CheckpointNumber, Segment, VirtualNumber, VolError};
use nl_vstore::{Batch, Vstore};
use std::alloc::{AllocError, Global};
use std::marker::Model;

/// How many needed numbers have their pages in each segment, and the needed numbers that have ended, in the
/// order of their ends: what a removal lets go is a part of one run of these.
#[derive(Drop)]
pub struct NeededCounts {
    counts: SegmentCounts,
    ends: Ends,
}

impl Model for NeededCounts {
    ghost use Rattle.nl_reclaim.specs.Counted.{Counted};

    ghost Value = { Counted };

    ghost view = { λ n. record { counts = n.counts; ends = n.ends.ended; room = n.ends.room } };
}

impl NeededCounts {
    /// No needed number in so many segments. Refused by `Memory` alone.
    pub fn new(alloc: Global, segments: u32) -> Result<NeededCounts, VolError>
        ensures counts { IfOk result (λ needed. needed.counts ≡ replicate segments 0) }
        ensures ends { IfOk result (λ needed. needed.ends ≡ []) }
        ensures refused { IsOkUnless result VolError.Memory }
    {
        Ok(NeededCounts {
            counts: SegmentCounts::new(alloc, segments)?,
            ends: Ends::new(alloc),
        })
    }

    /// The counts of a store, by what the kept checkpoints need. It goes over all numbers once. Refused by
    /// `Memory` alone.
    pub fn of_store<V: Vstore, K: Keeping>(
        alloc: Global,
        store: &V,
        keeping: &K,
    ) -> Result<NeededCounts, VolError>
        ensures counted { IfOk result (λ needed. (latest : ℕ)
            → IsLatest latest (K.kept keeping.now) (V.store store.now)
            → IsCounted (V.store store.now) (K.kept keeping.now) needed) }
        ensures refused { IsOkUnless result VolError.Memory }
    {
        nl_vstore::laws::needed_numbers_are_counted();
        let segments = store.table().sustat().segments as u32;
        let mut counts = SegmentCounts::new(alloc, segments)?;
        let ended = walk(alloc, store, keeping, &mut counts)?;
        Ok(NeededCounts {
            counts,
            ends: Ends::from_found(ended),
        })
    }

    /// Makes room for the ends of the next checkpoint. Refused for memory alone.
    pub fn reserve(&mut self, ends: usize) -> Result<(), AllocError>
        ensures counted { (s : Store) (kept : List ℕ) → IsCounted s kept self.old
            → IsCounted s kept self.new }
        ensures counts { self.new.counts ≡ self.old.counts }
        ensures room { OnOk result (ends ≤ self.new.room) }
        ensures same { OnErr result (self.new ≡ self.old) }
    {
        self.ends.reserve(ends)
    }

    /// Counts more segments, up to so many, in which no needed number stands. Refused for memory alone.
    pub fn grow(&mut self, alloc: Global, segments: u32) -> Result<(), AllocError>
        requires { length self.old.counts ≤ segments }
        ensures grown { OnOk result (self.new ≡ with_segments segments self.old) }
        ensures same { OnErr result (self.new ≡ self.old) }
    {
        self.counts.grow(alloc, segments)
    }

    /// Counts the first so many segments alone, as before they were to grow. It takes no memory.
    pub fn shrink(&mut self, segments: u32)
        ensures { self.new ≡ with_first segments self.old }
    {
        self.counts.shrink(segments);
    }

    /// The batch of a checkpoint was written: its births are counted, and its ends are noted. It takes no
    /// memory.
    pub fn written<V: Vstore>(&mut self, store: &V, batch: &Batch, checkpoint: CheckpointNumber)
        requires room { length batch.now.ends ≤ self.old.room }
        requires counted { (old : Store) × (kept : List ℕ) × IsCounted old kept self.old
            × IsNextWritten checkpoint batch.now kept old (V.store store.now) }
        ensures { (old : Store) (kept : List ℕ) → IsCounted old kept self.old
            → IsNextWritten checkpoint batch.now kept old (V.store store.now)
            → IsCounted (V.store store.now) (kept ++ checkpoint ∷ []) self.new }
    {
        nl_vstore::laws::needed_numbers_are_counted();
        nl_types::laws::checkpoints_keep_needs();
        nl_types::laws::writes_are_by_number();
        count_births(store, &mut self.counts, batch.births());
        self.ends.note(batch.ends(), checkpoint);
    }

    /// Needed numbers were moved out of a segment: each is counted where it stands now. It takes no memory.
    pub fn moved<V: Vstore>(&mut self, store: &V, segment: Segment, numbers: &[VirtualNumber])
        requires { (old : Store) × (kept : List ℕ) × IsCounted old kept self.old
            × HasMovedNeeded segment numbers.now kept old (V.store store.now) }
        ensures { (old : Store) (kept : List ℕ) → IsCounted old kept self.old
            → HasMovedNeeded segment numbers.now kept old (V.store store.now)
            → IsCounted (V.store store.now) kept self.new }
    {
        nl_vstore::laws::needed_numbers_are_counted();
        count_moves(store, &mut self.counts, segment, numbers);
    }

    /// Checkpoints from the first one on and below the next, which is kept, were removed: what the kept ones
    /// need no more is let go. It looks at the ends between the two alone, and takes no memory.
    pub fn removed<V: Vstore, K: Keeping>(
        &mut self,
        store: &V,
        keeping: &K,
        first: CheckpointNumber,
        next: CheckpointNumber,
    )
        requires order { first ≤ next }
        requires counted { (kept : List ℕ) × IsCounted (V.store store.now) kept self.old }
        ensures { (kept : List ℕ) → IsCounted (V.store store.now) kept self.old
            → AreGone first next kept (K.kept keeping.now)
            → IsCounted (V.store store.now) (K.kept keeping.now) self.new }
    {
        nl_vstore::laws::needed_numbers_are_counted();
        nl_types::laws::removals_let_a_run_go();
        let (from, to) = self.ends.run(first, next);
        let_go(store, keeping, &mut self.counts, &mut self.ends, from, to);
    }

    /// How many needed numbers have their pages in a segment. Refused by `BadRange` where there is no such
    /// segment. It takes no memory.
    pub fn get(&self, segment: Segment) -> Result<u32, VolError>
        ensures counts { result ≡ ok_or (slice_get self.now.counts segment) VolError.BadRange }
        ensures needed { (s : Store) (kept : List ℕ) → IsCounted s kept self.now
            → result ≡ ok_or (slice_get (needed_counts s (is_needed kept)) segment) VolError.BadRange }
    {
        self.counts.get(segment)
    }

    /// The counts as they will be once checkpoints from the first one on and below the next are removed. It
    /// looks at the ends between the two alone. Refused by `Memory` alone.
    pub fn after<V: Vstore, K: Keeping>(
        &self,
        alloc: Global,
        store: &V,
        staying: &K,
        first: CheckpointNumber,
        next: CheckpointNumber,
    ) -> Result<SegmentCounts, VolError>
        requires order { first ≤ next }
        requires counted { (kept : List ℕ) × IsCounted (V.store store.now) kept self.now }
        ensures counts { IfOk result
            (λ counts. (kept : List ℕ) → IsCounted (V.store store.now) kept self.now
            → AreGone first next kept (K.kept staying.now)
            → counts ≡ needed_counts (V.store store.now) (is_needed (K.kept staying.now))) }
        ensures refused { IsOkUnless result VolError.Memory }
    {
        nl_vstore::laws::needed_numbers_are_counted();
        nl_types::laws::removals_let_a_run_go();
        let mut counts = self.counts.copy(alloc)?;
        let (from, to) = self.ends.run(first, next);
        take_run_off(store, staying, &mut counts, &self.ends, from, to);
        Ok(counts)
    }
}
