//! What the overlay shows of inodes, over the latest checkpoint.
ghost use Rattle.std.specs.Prelude.{◌≡◌, ◌+◌, ◌/◌, ◌≤◌, ◌<◌, ◌^◌, ℕ, List, Option, Some, IfOk, IfErr, length, option_copied};
ghost use Rattle.nl_types.specs.declared.error.VolError;
ghost use Rattle.nl_dirs.specs.declared.record.Record.{Record};
ghost use Rattle.nl_tree.specs.Held.{Held, Holding, Listed, held_block, held_count, held_size};
ghost use Rattle.nl_tree.specs.Overlays.{block_over, holding_now, new_page_at, over_changed};
ghost use Rattle.nl_tree.specs.Reading.{AreBytesFrom};
ghost use Rattle.nl_tree.specs.Records.{records_of};

use crate::copying::copy_new_pages;
use crate::listing::Listing;
use crate::overlay::{Changed, FileBlocks, Overlay};
use crate::tree_read::Base;
use nl_dirs::Record;
use nl_types::{BLOCK_SIZE, InodeNumber, Page, VolError};
use std::alloc::Global;

impl FileBlocks {
    /// The page of the file at a block index, a new one or the checkpoint's, where it is stored.
    fn block<'a, B: Base>(&'a self, base: &'a B, file: InodeNumber, index: u64) -> Option<&'a Page>
        ensures { (b : Holding) → B.TreeRead.holds base.now b
            → option_copied result ≡ block_over self.now (b file) index }
    {
        match self.pages.get(&index) {
            Some(Some(page)) => Some(page),
            _ if index < self.cut => base.block(file, index),
            _ => None,
        }
    }

    /// The new page of the file at a block index.
    pub(crate) fn new_page(&self, index: u64) -> Option<&Page>
        ensures { option_copied result ≡ new_page_at self.now index }
    {
        match self.pages.get(&index) {
            Some(Some(page)) => Some(page),
            _ => None,
        }
    }

    /// How many of so many bytes from an offset on lie in blocks of which the checkpoint's show.
    fn bytes_below_cut(&self, offset: u64, count: usize) -> usize
        requires { offset + count < 2 ^ 64 }
        ensures within { result ≤ count }
        ensures below { (k : ℕ) → k < result → (offset + k) / 1024 < self.now.cut }
        ensures past { (k : ℕ) → result ≤ k → k < count → self.now.cut ≤ (offset + k) / 1024 }
    {
        let end = self.cut.saturating_mul(BLOCK_SIZE as u64);
        count.min(end.saturating_sub(offset) as usize)
    }

    /// Fills the slice with the bytes of the file from an offset on.
    fn read_bytes<B: Base>(&self, base: &B, file: InodeNumber, offset: u64, into: &mut [u8])
        requires { offset + length into.old < 2 ^ 64 }
        ensures { (b : Holding) → B.TreeRead.holds base.now b
            → AreBytesFrom (block_over self.now (b file)) offset into.new }
    {
        let count = self.bytes_below_cut(offset, into.len());
        base.read_bytes(file, offset, &mut into[..count]);
        into[count..].fill(0);
        copy_new_pages(self, offset, into);
    }
}

impl Listing {
    /// How many records there are.
    fn count(&self) -> u64
        ensures { length (records_of self.now) < 2 ^ 64 → result ≡ length (records_of self.now) }
    {
        let mut count: u64 = 0;
        for (_, link) in self.map.iter() {
            count = count.saturating_add(u64::from(link.is_some()));
        }
        count
    }
}

impl Changed {
    fn size(&self) -> u64
        ensures { (base : Option Held) → result ≡ held_size (over_changed self.now base) }
    {
        match self {
            Changed::File(file) => file.size,
            Changed::Dir(_) | Changed::Gone => 0,
        }
    }

    fn name_count(&self) -> u64
        ensures { (base : Option Held) → held_count (over_changed self.now base) < 2 ^ 64
            → result ≡ held_count (over_changed self.now base) }
    {
        match self {
            Changed::Dir(listing) => listing.count(),
            Changed::File(_) | Changed::Gone => 0,
        }
    }

    fn records(&self, alloc: Global) -> Result<Vec<Record>, VolError>
        ensures all { (base : Option Held) (records : List Record)
            → over_changed self.now base ≡ Some (Listed records)
            → IfOk result (λ all. all.items ≡ records) }
        ensures refused { IfErr result (λ e. e ≡ VolError.Memory) }
    {
        match self {
            Changed::Dir(listing) => listing.to_records(alloc),
            Changed::File(_) | Changed::Gone => Ok(Vec::new(alloc)),
        }
    }
}

impl Overlay {
    /// The size of a file in bytes.
    pub(crate) fn size<B: Base>(&self, base: &B, file: InodeNumber) -> u64
        ensures { (b : Holding) → B.TreeRead.holds base.now b
            → result ≡ held_size (holding_now self.now b file) }
    {
        match self.changed.get(&file) {
            Some(slot) if slot.live => slot.what.size(),
            _ => base.size(file),
        }
    }

    /// The page of a file at a block index, where it is stored.
    pub(crate) fn block<'a, B: Base>(
        &'a self,
        base: &'a B,
        file: InodeNumber,
        index: u64,
    ) -> Option<&'a Page>
        ensures { (b : Holding) → B.TreeRead.holds base.now b
            → option_copied result ≡ held_block (holding_now self.now b file) index }
    {
        match self.changed.get(&file) {
            Some(slot) if slot.live => match &slot.what {
                Changed::File(blocks) => blocks.block(base, file, index),
                Changed::Dir(_) | Changed::Gone => None,
            },
            _ => base.block(file, index),
        }
    }

    /// Fills the slice with the bytes of a file from an offset on.
    pub(crate) fn read_bytes<B: Base>(
        &self,
        base: &B,
        file: InodeNumber,
        offset: u64,
        into: &mut [u8],
    )
        requires { offset + length into.old < 2 ^ 64 }
        ensures { (b : Holding) → B.TreeRead.holds base.now b
            → AreBytesFrom (held_block (holding_now self.now b file)) offset into.new }
    {
        match self.changed.get(&file) {
            Some(slot) if slot.live => match &slot.what {
                Changed::File(blocks) => blocks.read_bytes(base, file, offset, into),
                Changed::Dir(_) | Changed::Gone => into.fill(0),
            },
            _ => base.read_bytes(file, offset, into),
        }
    }

    /// How many names a directory has.
    pub(crate) fn name_count<B: Base>(&self, base: &B, dir: InodeNumber) -> u64
        ensures { (b : Holding) → B.TreeRead.holds base.now b
            → held_count (holding_now self.now b dir) < 2 ^ 64
            → result ≡ held_count (holding_now self.now b dir) }
    {
        match self.changed.get(&dir) {
            Some(slot) if slot.live => slot.what.name_count(),
            _ => base.name_count(dir),
        }
    }

    /// All records of a directory, in the order of their names. Refused by `Memory` alone.
    pub(crate) fn records<B: Base>(
        &self,
        alloc: Global,
        base: &B,
        dir: InodeNumber,
    ) -> Result<Vec<Record>, VolError>
        ensures all { (b : Holding) (records : List Record) → B.TreeRead.holds base.now b
            → holding_now self.now b dir ≡ Some (Listed records)
            → IfOk result (λ all. all.items ≡ records) }
        ensures refused { IfErr result (λ e. e ≡ VolError.Memory) }
    {
        match self.changed.get(&dir) {
            Some(slot) if slot.live => slot.what.records(alloc),
            _ => base.records(alloc, dir),
        }
    }
}
