//! The table of virtual block numbers, over a space.
ghost use Rattle.std.specs.Prelude.{◌≡◌, ◌↔◌, ◌⊎◌, ℕ, ◌+◌, ◌*◌, ◌<◌, ◌≤◌, length, IfErr, IfOk, OnErr, OnOk, IsErr, IsErrOf, IsOkUnless, Some};
ghost use Rattle.std.specs.Option.{option_map};
ghost use Rattle.nl_vstore.specs.Stores.{IsStore};
ghost use Rattle.nl_dat.specs.Inside.{store_of, IsDatTable};
ghost use Rattle.nl_dat.specs.OneProof.{IsStore-prop, IsDatTable-prop};

use crate::bdesc::{Bdesc, describe_row};
use crate::entries::{
    DatEntry, end_entries, enter_births, entry_at, first_free, move_entries, number_in,
    number_with, segment_at,
};
use crate::images::{have_own_payload, write_numbers};
use crate::moving::{count_payload, load_all, row_tag};
use crate::reclaim::take_out;
use nl_layout::Tag;
use nl_sufile::SegTable;
use nl_types::{
    CheckpointNumber, Items, Page, Period, Segment, VirtualNumber, VolError, add_places,
    empty_places, laws,
};
use nl_vstore::{Batch, Payload, Space, VRead, Vstore};
use std::alloc::{AllocError, Global};
use std::marker::Model;

/// The table of virtual block numbers, over the space that has their pages. Its length changes where segments
/// are added alone, so no call needs memory but that one, those that append, and those that answer a list.
#[derive(Drop)]
pub struct Dat<S: Space> {
    /// By number; 0 is never used.
    table: Items<Option<DatEntry>>,
    /// Every number from 1 up to this one is in use, so that a free one is looked for behind it.
    filled: u64,
    space: S,
    ghost sound: { IsStore (store_of table (S.content space) (S.failed space)) } by { IsStore-prop },
    ghost tabled: { IsDatTable table (filled + 1) (S.content space) } by { IsDatTable-prop sound.limits.tidy },
}

impl<S: Space> Model for Dat<S> {
    ghost use Rattle.nl_vstore.specs.Stores.{SoundStore};
    ghost use Rattle.nl_dat.specs.Inside.{store_of};

    ghost Value = { SoundStore };

    ghost use Rattle.std.specs.Coded.{codes};
    ghost use Rattle.nl_dat.specs.OneProof.{IsStore-prop};

    ghost coded = { Prim.hlevel (IsStore-prop, codes) };

    ghost view = { λ d. record {
      store = store_of d.table (S.content d.space) (S.failed d.space);
      sound = d.sound;
    } };
}

impl<S: Space> Dat<S> {
    ghost use Rattle.nl_vstore.specs.Summaries.{payload_row};
    ghost use Rattle.nl_dat.specs.Described.{descs_of};
    ghost use Rattle.nl_vstore.specs.Stores.{KeepsStored, new_store, address_in, block_in, capacity, numbered_in, space_in};
    ghost use Rattle.nl_vstore.specs.Appended.{IsLoadError};
    ghost use Rattle.nl_vstore.specs.Images.{AreBlocksOf};
    ghost use Rattle.nl_dat.specs.EntryBytes.{dat_bytes};
    ghost use Rattle.nl_dat.specs.Images.{IsTableOver};
    ghost use Rattle.nl_dat.specs.Inside.{births_in};
    ghost use Rattle.nl_dat.specs.Table.{HaveOwnPayload, addresses_of, dat_entry_of, entries_shown, entry_in, numbers_shown};

    /// The table over a space, with no number in use. Refused by `Memory` alone; the space is dropped then.
    pub fn new(alloc: Global, space: S) -> Result<Dat<S>, VolError>
        ensures new { IfOk result (λ dat. dat.store ≡ new_store (S.content space) (S.failed space)) }
        ensures refused { IsOkUnless result VolError.Memory }
    {
        let table = space.table();
        let count = table.sustat().segments * table.blocks() as usize;
        let table = empty_places(alloc, count + 1)?;
        Ok(Dat {
            table,
            filled: 0,
            space,
        })
    }

    /// The table of an image, over a space with the payload of its logs. Refused by `BadImage(7)` where the
    /// block of a number is not one that a log has for it; the space is dropped then. It takes no memory.
    pub fn restore(space: S, table: Items<Option<DatEntry>>) -> Result<Dat<S>, VolError>
        requires { IsTableOver table (S.content space).segments }
        ensures restored { IfOk result (λ dat.
            dat.store ≡ store_of table (S.content space) (S.failed space)) }
        ensures shown { IfOk result (λ dat. entries_shown dat.store ≡ table) }
        ensures own { OnOk result
            (HaveOwnPayload (addresses_of (entry_in table)) (births_in (S.content space))) }
        ensures other { OnErr result
            (HaveOwnPayload (addresses_of (entry_in table)) (births_in (S.content space)) → ⊥) }
        ensures refused { OnErr result (result ≡ Err (VolError.BadImage 7)) }
    {
        if !have_own_payload(&space, table.as_slice()) {
            return Err(VolError::BadImage(7));
        }
        // What is filled is looked for as numbers are given.
        Ok(Dat {
            table,
            filled: 0,
            space,
        })
    }

    /// What the table has for a number, where it is in use. Refused by `BadRange` for 0 and for numbers above
    /// those that there are: one for each block of the device. It takes no memory.
    pub fn entry(&self, number: VirtualNumber) -> Result<Option<DatEntry>, VolError>
        ensures range { IsErr result ↔ ((number ≡ 0) ⊎ (capacity self.now.store < number)) }
        ensures kind { OnErr result (result ≡ Err VolError.BadRange) }
        ensures entry { IfOk result (λ entry.
            entry ≡ option_map dat_entry_of (numbered_in self.now.store number)) }
    {
        if number.get() == 0 || number.get() >= self.table.len() as u64 {
            return Err(VolError::BadRange);
        }
        Ok(entry_at(self.table.as_slice(), number))
    }

    /// Fills the place with the entries of an image, 24 bytes for each number from 1 on.
    pub fn dump(&self, out: &mut [u8])
        requires { length out.old ≡ 24 * capacity self.now.store }
        ensures { out.new ≡ dat_bytes (numbers_shown self.now.store) }
    {
        write_numbers(&self.table.as_slice()[1..], out);
    }

    /// Fills the place with the blocks of an image, 1,024 bytes for each: what the device has where one is
    /// used, else zeros. Each used block is loaded once, in order, and nothing else is. Refused by `Fault`
    /// where the device failed, and by `Memory`.
    pub fn dump_blocks(&mut self, out: &mut [u8]) -> Result<(), VolError>
        requires { length out.old ≡ 1024 * capacity self.old.store }
        ensures blocks { OnOk result (AreBlocksOf (space_in self.old.store) out.new) }
        ensures same { KeepsStored self.old.store self.new.store }
        ensures counted { self.old.store.failures ≤ self.new.store.failures }
        ensures fault { IsErrOf result VolError.Fault
            → self.old.store.failures < self.new.store.failures }
        ensures errors { IfErr result IsLoadError }
    {
        nl_vstore::dump(&mut self.space, out)
    }

    /// A description of each payload block of the logs of a segment, in the order of the blocks, be their
    /// numbers in use or not. Refused by `BadRange` where there is no such segment, and by `Memory` for the
    /// list.
    pub fn bdescs(&self, alloc: Global, segment: Segment) -> Result<Vec<Bdesc>, VolError>
        ensures range { IsErrOf result VolError.BadRange
            ↔ (length self.now.store.segments.each ≤ segment) }
        ensures kinds { IfErr result (λ e. (e ≡ VolError.BadRange) ⊎ (e ≡ VolError.Memory)) }
        ensures descs { IfOk result (λ descs. descs.items
            ≡ descs_of self.now.store segment (payload_row self.now.store segment)) }
    {
        self.space.table().suinfo(segment)?;
        match self.described(alloc, segment) {
            Ok(descs) => Ok(descs),
            Err(_) => Err(VolError::Memory),
        }
    }

    fn described(&self, alloc: Global, segment: Segment) -> Result<Vec<Bdesc>, AllocError>
        requires { segment < length self.now.store.segments.each }
        ensures { IfOk result (λ descs. descs.items
            ≡ descs_of self.now.store segment (payload_row self.now.store segment)) }
    {
        let first = segment.get() * self.space.table().blocks();
        let row = self.space.summary(segment);
        describe_row(alloc, self.table.as_slice(), row, first)
    }

    /// The number that the payload at a position of a segment was written for: no other number's page can
    /// stand there.
    fn tagged(&self, segment: Segment, position: u32) -> Option<VirtualNumber>
        requires segment { segment < length self.now.store.segments.each }
        requires position { position < self.now.store.segments.blocks }
        ensures { (v : ℕ) → address_in self.now.store v ≡ Some (block_in self.now.store segment position)
            → result ≡ Some v }
    {
        number_in(self.space.summary(segment), position)
    }
}

impl<S: Space> VRead for Dat<S> {
    ghost use Rattle.nl_types.specs.Blocks.Roots.{pages_of};
    ghost use Rattle.nl_vstore.specs.Stores.{content_in};
    ghost use Rattle.nl_vstore.specs.Periods.{periods_of};

    ghost pages = { λ d. pages_of (content_in d.store) };

    ghost periods = { λ d. periods_of (content_in d.store) };

    fn page(&self, number: VirtualNumber) -> Option<&Page> {
        let entry = entry_at(self.table.as_slice(), number)?;
        self.space.page(entry.block)
    }

    fn period(&self, number: VirtualNumber) -> Option<Period> {
        let entry = entry_at(self.table.as_slice(), number)?;
        Some(entry.period())
    }
}

impl<S: Space> Vstore for Dat<S> {
    ghost store = { λ d. d.store };

    ghost is_store = { λ d. d.sound };

    ghost reads_pages = { λ d. Rattle.std.specs.Prelude.refl };

    ghost reads_periods = { λ d. Rattle.std.specs.Prelude.refl };

    fn table(&self) -> &SegTable {
        self.space.table()
    }

    fn capacity(&self) -> u64 {
        self.table.len() as u64 - 1
    }

    fn fresh(&self, batch: &Batch) -> Result<VirtualNumber, VolError> {
        // Where a list of logs fits, its payload finds blocks that no number has.
        laws::payload_goes_to_unused_blocks();
        prove!(batch.births().len() < 1 << 60);
        let first = self.filled.max(batch.last_number().get()) + 1;
        first_free(self.table.as_slice(), first).ok_or(VolError::NoSpace)
    }

    fn write(
        &mut self,
        alloc: Global,
        batch: &Batch,
        checkpoint: CheckpointNumber,
        now: u64,
    ) -> Result<(), VolError> {
        // Where a list of logs fits the births, no number is above those that there are.
        laws::payload_goes_to_unused_blocks();
        let numbers = self
            .space
            .append(alloc, batch.births(), checkpoint, now, true)?;
        end_entries(&mut self.table, batch.ends(), checkpoint);
        enter_births(&mut self.table, batch.births(), &numbers, checkpoint);
        self.filled = self.filled.max(batch.last_number().get());
        Ok(())
    }

    fn at(&self, segment: Segment, position: u32) -> Option<VirtualNumber> {
        let table = self.space.table();
        let block = segment.get() * table.blocks() + position;
        let number = self.tagged(segment, position);
        number_with(self.table.as_slice(), number, block)
    }

    fn segment_of(&self, number: VirtualNumber) -> Option<Segment> {
        let blocks = self.space.table().blocks();
        segment_at(self.table.as_slice(), number, blocks)
    }

    fn tag(&self, segment: Segment, position: u32) -> Option<Tag> {
        row_tag(self.space.summary(segment), position)
    }

    fn payload(&self, segment: Segment) -> &[Option<Payload>] {
        self.space.summary(segment)
    }

    fn payload_count(&self, segment: Segment) -> u32 {
        count_payload(self.space.summary(segment))
    }

    fn relocate(
        &mut self,
        alloc: Global,
        segment: Segment,
        numbers: &[VirtualNumber],
        checkpoint: CheckpointNumber,
        now: u64,
    ) -> Result<(), VolError> {
        let payload = load_all(
            alloc,
            &mut self.space,
            self.table.as_slice(),
            segment,
            numbers,
        )?;
        let blocks = self.space.append(alloc, &payload, checkpoint, now, false)?;
        move_entries(&mut self.table, numbers, &blocks);
        Ok(())
    }

    fn reclaim(&mut self, segment: Segment) -> u32 {
        let segments = self.space.table();
        let first = segment.get() * segments.blocks();
        let row = self.space.summary(segment);
        let taken = take_out(&mut self.table, row, first);
        let count = taken.count;
        self.space.free(segment);
        let filled = self.filled;
        self.filled = taken.filled_after(filled);
        count
    }

    fn grow(&mut self, alloc: Global, segments: u32) -> Result<(), VolError> {
        laws::growing_keeps_segments();
        let count = self.table.len();
        let blocks = segments * self.space.table().blocks();
        add_places(&mut self.table, alloc, blocks as usize + 1)?;
        match self.space.grow(alloc, segments) {
            Ok(()) => Ok(()),
            Err(refusal) => {
                self.table.truncate(count);
                Err(refusal)
            }
        }
    }
}
