//! Reading the blocks of a directory.
ghost use Rattle.std.specs.Prelude.{◌≡◌, ◌<◌, ◌/◌, ◌^◌, ◌++◌, List, IfOk, IfErr, OnOk, length, option_copied};
ghost use Rattle.nl_types.specs.declared.error.VolError;
ghost use Rattle.nl_types.specs.Blocks.Roots.{page_at};
ghost use Rattle.nl_layout.specs.Root.{root_of};
ghost use Rattle.nl_dirs.specs.declared.record.Record.{Record};
ghost use Rattle.nl_dirs.specs.Records.{IsPageOf, entry_of};
ghost use Rattle.nl_dirs.specs.Listings.{HoldsRecords};
ghost use Rattle.nl_files.specs.Private.Directories.{AreBlocksOf, StandsInBlock, StartsBehind};

use nl_blocktree::{Cursor, get};
use nl_dirs::{Record, find, first_name, record_count, records};
use nl_layout::Root;
use nl_tree::Link;
use nl_types::{BLOCK_SIZE, Page, VolError};
use nl_vstore::VRead;
use std::alloc::Global;

/// Whether the first name of a page is behind a name, or the page has none.
fn starts_behind(page: Option<&Page>, name: &[u8]) -> bool
    ensures { StartsBehind name.now (option_copied page.entry) result }
{
    match page {
        Some(page) => match first_name(page) {
            Some(first) => name.cmp(first).is_lt(),
            None => true,
        },
        None => true,
    }
}

/// Adds the records of a directory's page. Refused by `Memory` alone.
fn add_records(alloc: Global, page: &Page, all: &mut Vec<Record>) -> Result<(), VolError>
    ensures added { (block : List Record) → IsPageOf page.now block
        → OnOk result (all.new.items ≡ all.old.items ++ block) }
    ensures refused { IfErr result (λ e. e ≡ VolError.Memory) }
{
    if let Some(mut block) = records(alloc, page)? {
        all.append(&mut block)?;
    }
    Ok(())
}

/// The blocks of a directory.
#[derive(Drop)]
pub(crate) struct Directory<'a, V: VRead> {
    pub(crate) store: &'a V,
    pub(crate) root: Root,
    /// In bytes, of which each block has 1,024.
    pub(crate) size: u64,
}

impl<V: VRead> Directory<'_, V> {
    fn starts_behind(&self, index: u64, name: &[u8]) -> bool
        ensures { StartsBehind name.now
            (page_at (V.pages self.now.store.now) (root_of self.now.root) index) result }
    {
        starts_behind(get(self.store, self.root, index), name)
    }

    /// The only block in which a name can stand: the last one whose first name isn't behind it.
    fn block_of(&self, name: &[u8]) -> Option<u64>
        ensures { (packed : List (List Record))
            → AreBlocksOf (page_at (V.pages self.now.store.now) (root_of self.now.root))
            (self.now.size / 1024) packed
            → StandsInBlock name.now packed result }
    {
        let mut low = 0;
        let mut high = self.size / BLOCK_SIZE as u64;
        while low < high {
            let middle = low + (high - low) / 2;
            if self.starts_behind(middle, name) {
                high = middle;
            } else {
                low = middle + 1;
            }
        }
        low.checked_sub(1)
    }

    /// What the directory has under a name. It takes no memory.
    pub(crate) fn find(&self, name: &[u8]) -> Option<Link>
        ensures { (records : List Record)
            → HoldsRecords (page_at (V.pages self.now.store.now) (root_of self.now.root))
            self.now.size records
            → result ≡ entry_of name.now records }
    {
        let index = self.block_of(name)?;
        find(get(self.store, self.root, index)?, name)
    }

    /// How many names the directory has. It takes no memory.
    pub(crate) fn count(&self) -> u64
        ensures { (records : List Record)
            → HoldsRecords (page_at (V.pages self.now.store.now) (root_of self.now.root))
            self.now.size records
            → length records < 2 ^ 64 → result ≡ length records }
    {
        let mut cursor = Cursor::new(self.store, self.root);
        let mut count: u64 = 0;
        for index in 0..self.size / BLOCK_SIZE as u64 {
            let Some(page) = cursor.page_at(index) else {
                return count;
            };
            count = count.saturating_add(record_count(page) as u64);
        }
        count
    }

    /// All records of the directory, in the order of their names. Refused by `Memory` alone.
    pub(crate) fn records(&self, alloc: Global) -> Result<Vec<Record>, VolError>
        ensures all { (records : List Record)
            → HoldsRecords (page_at (V.pages self.now.store.now) (root_of self.now.root))
            self.now.size records
            → IfOk result (λ all. all.items ≡ records) }
        ensures refused { IfErr result (λ e. e ≡ VolError.Memory) }
    {
        let mut cursor = Cursor::new(self.store, self.root);
        let mut all = Vec::new(alloc);
        for index in 0..self.size / BLOCK_SIZE as u64 {
            let Some(page) = cursor.page_at(index) else {
                return Ok(all);
            };
            add_records(alloc, page, &mut all)?;
        }
        Ok(all)
    }
}
