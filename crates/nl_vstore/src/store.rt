//! What the layers above know of pages under virtual block numbers.
ghost use Rattle.std.specs.Prelude.{◌≡◌, ◌+◌, ◌<◌, ◌≤◌, ◌^◌, length, max, IfOk, IfErr, OnOk, OnErr, option_copied};
ghost use Rattle.nl_types.specs.Plain.Limits.{IsGeometry};
ghost use Rattle.nl_types.specs.Blocks.Segments.{IsClosed};
ghost use Rattle.nl_types.specs.Blocks.Roots.{Pages, pages_of};
ghost use Rattle.nl_vstore.specs.Batches.{CanBeTaken, IsLowestFree, LacksSpaceFrom, last_number};
ghost use Rattle.nl_vstore.specs.Periods.{Periods, periods_of};
ghost use Rattle.nl_vstore.specs.Located.{IsNumberAt, number_at, payload_count_in};
ghost use Rattle.nl_vstore.specs.Counts.{IsSegmentOf};
ghost use Rattle.nl_vstore.specs.Summaries.{IsOfLogs, payload_row};
ghost use Rattle.nl_vstore.specs.Stores.{Store, IsStore, HasGrown, HasNoneFree, IsGrowthRefused, IsWritten, IsWriteRefused, AreInside, IsMoved, IsMoveRefused, IsReclaimed, block_in, capacity, content_in, tag_in};

use crate::Payload;
use crate::batch::Batch;
use nl_layout::Tag;
use nl_sufile::SegTable;
use nl_types::{CheckpointNumber, Page, Period, Segment, VirtualNumber, VolError};
use std::alloc::Global;

/// Pages under virtual block numbers, for reading.
pub trait VRead {
    /// The page of each number in use.
    ghost pages: { Self → Pages };

    /// The checkpoints that each number in use belongs to.
    ghost periods: { Self → Periods };

    /// The page of a number, where it is in use.
    fn page(&self, number: VirtualNumber) -> Option<&Page>
        ensures { option_copied result ≡ pages self.now number };

    /// The checkpoints that a number in use belongs to.
    fn period(&self, number: VirtualNumber) -> Option<Period>
        ensures { result ≡ periods self.now number };
}

/// Pages under virtual block numbers, changed by a whole batch at a time. A number stays the same however
/// often its page is moved, as in the DAT of nilfs2.rst.
pub trait Vstore: VRead {
    /// The numbers in use, the segments, and what the device holds.
    ghost store: { Self → Store };

    /// What is known of the segments. By it a caller of `relocate` sees that a segment is closed.
    fn table(&self) -> &SegTable
        ensures { result.now ≡ (store self.now).segments };

    /// How many numbers there are: one for each block of the device, from 1 on.
    fn capacity(&self) -> u64
        ensures count { result ≡ capacity (store self.now) }
        ensures small { result < 2 ^ 32 };

    /// The lowest number that is neither in use nor given to a birth of the batch. Refused by `NoSpace`
    /// alone, where no list of logs fits one block more than the batch has, or yet more. It takes no memory.
    fn fresh(&self, batch: &Batch) -> Result<VirtualNumber, VolError>
        requires { CanBeTaken (capacity (store self.now)) (content_in (store self.now)) batch.now }
        ensures lowest { IfOk result (IsLowestFree (content_in (store self.now)) batch.now.births) }
        ensures inside { IfOk result (λ v. v ≤ capacity (store self.now)) }
        ensures all_taken { OnErr result (HasNoneFree (store self.now) batch.now.births) }
        ensures no_space { OnErr result (result ≡ Err VolError.NoSpace) }
        ensures lacks_space { OnErr result
            (LacksSpaceFrom (store self.now).segments (length batch.now.births + 1)) };

    /// Writes the births of a batch, which begin at the checkpoint, and sets its ends there, or changes no
    /// number. `now` is the moment in whole seconds that the segments get as their stamp. It goes into the
    /// logs' summaries with the checkpoint's number.
    ///
    /// Refused by `NoSpace` where no list of logs fits, by `Memory`, and by `Fault` exactly where the device
    /// failed.
    fn write(
        &mut self,
        alloc: Global,
        batch: &Batch,
        checkpoint: CheckpointNumber,
        now: u64,
    ) -> Result<(), VolError>
        requires { CanBeTaken (capacity (store self.old)) (content_in (store self.old)) batch.now }
        ensures written { OnOk result (IsWritten checkpoint now batch.now (store self.old) (store self.new)) }
        ensures refused { IfErr result
            (IsWriteRefused checkpoint now batch.now (store self.old) (store self.new)) }
        ensures counted { (store self.old).failures ≤ (store self.new).failures };

    /// The number whose page stands at a position of a segment, counted from 0 with the summary blocks.
    fn at(&self, segment: Segment, position: u32) -> Option<VirtualNumber>
        requires segment { segment < length (store self.now).segments.each }
        requires position { position < (store self.now).segments.blocks }
        ensures is { result ≡ number_at (store self.now) (block_in (store self.now) segment position) }
        ensures there { IsNumberAt (store self.now) (block_in (store self.now) segment position) result };

    /// The segment where the page of a number stands, where it is in use. It takes no memory.
    fn segment_of(&self, number: VirtualNumber) -> Option<Segment>
        ensures { IsSegmentOf (store self.now) number result };

    /// What the summary of its log says of the block at a position of a segment, be its number in use or not.
    /// None where the block has no payload.
    fn tag(&self, segment: Segment, position: u32) -> Option<Tag>
        requires segment { segment < length (store self.now).segments.each }
        requires position { position < (store self.now).segments.blocks }
        ensures { result ≡ tag_in (store self.now) (block_in (store self.now) segment position) };

    /// The blocks in the used part of a segment, in order: none at a summary block, and at a payload block
    /// what the summary of its log says of it, with its page, be its number in use or not. It takes no
    /// memory.
    fn payload(&self, segment: Segment) -> &[Option<Payload>]
        requires { segment < length (store self.now).segments.each }
        ensures row { result.now ≡ payload_row (store self.now) segment }
        ensures logs { IsOfLogs (store self.now) segment result.now };

    /// How many blocks of the logs of a segment have payload, be their numbers in use or not.
    fn payload_count(&self, segment: Segment) -> u32
        requires { segment < length (store self.now).segments.each }
        ensures { result ≡ payload_count_in (store self.now) segment };

    /// Moves the pages of numbers out of a segment that takes no more logs, in their order: each is read from
    /// the device and written elsewhere. The checkpoint is the minor one that the move makes, and `now` the
    /// moment in whole seconds: both go into the logs' summaries.
    ///
    /// Refused by `NoSpace` where no list of logs fits, by `Memory`, and by `Fault` where the device failed,
    /// as it always is where a write did.
    fn relocate(
        &mut self,
        alloc: Global,
        segment: Segment,
        numbers: &[VirtualNumber],
        checkpoint: CheckpointNumber,
        now: u64,
    ) -> Result<(), VolError>
        requires segment { segment < length (store self.old).segments.each }
        requires closed { IsClosed (store self.old).segments segment }
        requires inside { AreInside (store self.old) segment numbers.now }
        ensures moved { OnOk result
            (IsMoved segment checkpoint now numbers.now (store self.old) (store self.new)) }
        ensures refused { IfErr result
            (IsMoveRefused checkpoint now numbers.now (store self.old) (store self.new)) }
        ensures counted { (store self.old).failures ≤ (store self.new).failures };

    /// Takes the numbers out of use whose pages stand in a segment, and empties the segment. It answers how
    /// many they were. It takes no memory.
    fn reclaim(&mut self, segment: Segment) -> u32
        requires { segment < length (store self.old).segments.each }
        ensures reclaimed { IsReclaimed segment result (store self.old) (store self.new) }
        ensures counted { (store self.old).failures ≤ (store self.new).failures };

    /// Makes it a store of so many segments, the new ones clean, and of as many numbers as there are blocks
    /// then.
    ///
    /// Refused by `Fault` exactly where the device failed to grow, and by `Memory`. What is stored stays then.
    fn grow(&mut self, alloc: Global, segments: u32) -> Result<(), VolError>
        requires more { length (store self.old).segments.each ≤ segments }
        requires limits { IsGeometry segments (store self.old).segments.blocks }
        ensures grown { OnOk result (HasGrown segments (store self.old) (store self.new)) }
        ensures refused { IfErr result (IsGrowthRefused (store self.old) (store self.new)) }
        ensures counted { (store self.old).failures ≤ (store self.new).failures };

    /// What is true of every store, whole logs and tidy segments among it.
    ghost is_store: { (s : Self) → IsStore (store s) };

    /// What is read is what is stored.
    ghost reads_pages: { (s : Self) → Self.pages s ≡ pages_of (content_in (store s)) };

    ghost reads_periods: { (s : Self) → Self.periods s ≡ periods_of (content_in (store s)) };
}

/// The lowest number that is neither in use nor given to a birth of the batch, be it one that there is or one
/// above: no store takes a batch with such a one.
pub fn next_number<V: Vstore>(store: &V, batch: &Batch) -> VirtualNumber
    requires { CanBeTaken (capacity (V.store store.now)) (content_in (V.store store.now)) batch.now }
    ensures lowest { IsLowestFree (content_in (V.store store.now)) batch.now.births result }
    ensures low { result ≤ capacity (V.store store.now) + length batch.now.births + 1 }
{
    match store.fresh(batch) {
        Ok(number) => number,
        Err(_) => above_all(store.capacity(), batch),
    }
}

fn above_all(capacity: u64, batch: &Batch) -> VirtualNumber
    requires last { last_number batch.now.births ≤ capacity + length batch.now.births }
    requires small { capacity < 2 ^ 32 }
    ensures { result ≡ max capacity (last_number batch.now.births) + 1 }
{
    let births = batch.births();
    let count = births.len();
    prove!(count < 1 << 60);
    VirtualNumber::new(capacity.max(batch.last_number().get()) + 1)
}
