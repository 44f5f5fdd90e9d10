//! Blocks of files.
ghost use Rattle.std.specs.Prelude.{◌≡◌, ◌+◌, ◌≤◌, ◌<◌, ◌^◌, ℕ, length, Some, IfErr, OnErr, OnOk};
ghost use Rattle.nl_types.specs.Plain.Limits as limits;
ghost use Rattle.nl_types.specs.Blocks.Roots.{Blocks};
ghost use Rattle.nl_types.specs.declared.error.VolError;
ghost use Rattle.nl_tree.specs.Private.Files.{HasFile, HasFileWith, IsFileOf};
ghost use Rattle.nl_tree.specs.Held.{Holding, IsInodeNumber, Stored};
ghost use Rattle.nl_tree.specs.Numbers.{CountsFreeNow};
ghost use Rattle.nl_tree.specs.Overlays.{IsOrderly, KeepsRest, ShowTheSame, current_of, holding_now};
ghost use Rattle.nl_tree.specs.Private.Pages.{blocks_below, blocks_for, put_from};
ghost use Rattle.nl_tree.specs.Steps.{with_held};

use crate::overlay::{Changed, FileBlocks, Overlay};
use crate::tree_read::Base;
use crate::weighing::recounted;
use nl_types::limits::FILE_BLOCK_LIMIT;
use nl_types::{InodeNumber, Page, VolError};
use std::alloc::Global;
use std::collections::BTreeMap;

impl Overlay {
    /// Makes a file's blocks ones that can change. Nothing that shows changes. Refused by `Memory` alone.
    fn open_file<B: Base>(
        &mut self,
        alloc: Global,
        base: &B,
        inode: InodeNumber,
    ) -> Result<(), VolError>
        ensures orderly { IsOrderly self.old → IsInodeNumber inode → IsOrderly self.new }
        ensures same { current_of self.new ≡ current_of self.old }
        ensures rest { KeepsRest self.old self.new }
        ensures still { ShowTheSame self.old self.new }
        ensures open { (b : Holding) (size : ℕ) (blocks : Blocks) → B.TreeRead.holds base.now b
            → IsFileOf (holding_now self.old b) inode size blocks
            → OnOk result (HasFile self.new b inode size blocks) }
        ensures refused { IfErr result (λ e. e ≡ VolError.Memory) }
    {
        if self.is_live(inode) {
            return Ok(());
        }
        let file = FileBlocks {
            size: base.size(inode),
            cut: FILE_BLOCK_LIMIT,
            pages: BTreeMap::new(alloc),
        };
        self.hide(inode, Changed::File(file))
    }

    /// Keeps places for blocks of a file whose blocks can change. Nothing that shows changes.
    fn reserve_pages(&mut self, inode: InodeNumber, first: u64, end: u64) -> Result<(), VolError>
        ensures orderly { IsOrderly self.old → IsOrderly self.new }
        ensures same { current_of self.new ≡ current_of self.old }
        ensures rest { KeepsRest self.old self.new }
        ensures still { ShowTheSame self.old self.new }
        ensures place { (b : Holding) (size : ℕ) (blocks : Blocks) → HasFile self.old b inode size blocks
            → OnOk result (HasFileWith self.new b inode size blocks first end) }
        ensures refused { IfErr result (λ e. e ≡ VolError.Memory) }
    {
        match self.changed.get_mut(&inode) {
            Some(slot) => {
                let was = slot.what.weight();
                let outcome = slot.what.reserve_pages(first, end);
                let now = slot.what.weight();
                self.weight = recounted(self.weight, was, now);
                outcome
            }
            None => Ok(()),
        }
    }

    /// Puts blocks of a file, one behind the other, to places that are kept for them, and gives the file a
    /// size.
    fn put_pages(&mut self, inode: InodeNumber, size: u64, first: u64, pages: Vec<Page>)
        requires fits { first + length pages.items < 2 ^ 64 }
        requires places { (b : Holding) × (was : ℕ) × (blocks : Blocks)
            × HasFileWith self.old b inode was blocks first (first + length pages.items) }
        ensures orderly { IsOrderly self.old → IsOrderly self.new }
        ensures shown { (b : Holding) (was : ℕ) (blocks : Blocks)
            → HasFileWith self.old b inode was blocks first (first + length pages.items)
            → (i : ℕ) → holding_now self.new b i ≡
            with_held inode (Some (Stored size (put_from first pages.items blocks)))
            (holding_now self.old b) i }
        ensures file { (b : Holding) (was : ℕ) (blocks : Blocks)
            → HasFileWith self.old b inode was blocks first (first + length pages.items)
            → HasFile self.new b inode size (put_from first pages.items blocks) }
        ensures rest { KeepsRest self.old self.new }
    {
        if let Some(slot) = self.changed.get_mut(&inode) {
            let was = slot.what.weight();
            slot.live = true;
            slot.what.put_pages(size, first, pages);
            let now = slot.what.weight();
            self.weight = recounted(self.weight, was, now);
        }
    }

    /// Puts whole blocks into a file, one behind the other, and gives it a size in bytes.
    ///
    /// Refused by `Memory` alone; then nothing that shows has changed.
    pub(crate) fn write_blocks<B: Base>(
        &mut self,
        alloc: Global,
        base: &B,
        inode: InodeNumber,
        size: u64,
        first: u64,
        pages: Vec<Page>,
    ) -> Result<(), VolError>
        requires file { (b : Holding) × (was : ℕ) × (blocks : Blocks) × B.TreeRead.holds base.now b
            × IsFileOf (holding_now self.old b) inode was blocks }
        requires fits { first + length pages.items < 2 ^ 64 }
        ensures orderly { IsOrderly self.old → IsInodeNumber inode → IsOrderly self.new }
        ensures written { (b : Holding) (was : ℕ) (blocks : Blocks) → B.TreeRead.holds base.now b
            → IsFileOf (holding_now self.old b) inode was blocks
            → OnOk result ((i : ℕ) → holding_now self.new b i ≡
            with_held inode (Some (Stored size (put_from first pages.items blocks)))
            (holding_now self.old b) i) }
        ensures open { (b : Holding) (was : ℕ) (blocks : Blocks) → B.TreeRead.holds base.now b
            → IsFileOf (holding_now self.old b) inode was blocks
            → OnOk result (HasFile self.new b inode size (put_from first pages.items blocks)) }
        ensures counts { (b : Holding) (was : ℕ) (blocks : Blocks) → B.TreeRead.holds base.now b
            → IsFileOf (holding_now self.old b) inode was blocks
            → CountsFreeNow self.old b → OnOk result (CountsFreeNow self.new b) }
        ensures rest { KeepsRest self.old self.new }
        ensures same { OnErr result (current_of self.new ≡ current_of self.old) }
        ensures refused { IfErr result (λ e. e ≡ VolError.Memory) }
    {
        let end = first + pages.len() as u64;
        self.open_file(alloc, base, inode)?;
        self.reserve_pages(inode, first, end)?;
        self.put_pages(inode, size, first, pages);
        Ok(())
    }

    /// Makes blocks from an index on of a file whose blocks can change ones that don't show any more.
    fn cut_blocks(&mut self, inode: InodeNumber, count: u64)
        requires { (b : Holding) × (size : ℕ) × (blocks : Blocks) × HasFile self.old b inode size blocks }
        ensures orderly { IsOrderly self.old → IsOrderly self.new }
        ensures shown { (b : Holding) (size : ℕ) (blocks : Blocks) → HasFile self.old b inode size blocks
            → (i : ℕ) → holding_now self.new b i ≡
            with_held inode (Some (Stored size (blocks_below count blocks))) (holding_now self.old b) i }
        ensures rest { KeepsRest self.old self.new }
    {
        if let Some(slot) = self.changed.get_mut(&inode) {
            let was = slot.what.weight();
            slot.live = true;
            slot.what.cut_at(count);
            let now = slot.what.weight();
            self.weight = recounted(self.weight, was, now);
        }
    }

    /// Gives a file a size in bytes, and puts whole blocks into it, one behind the other. Blocks past the
    /// size are gone.
    ///
    /// Refused by `Memory` alone; then nothing that shows has changed.
    pub(crate) fn truncate_blocks<B: Base>(
        &mut self,
        alloc: Global,
        base: &B,
        inode: InodeNumber,
        size: u64,
        first: u64,
        pages: Vec<Page>,
    ) -> Result<(), VolError>
        requires file { (b : Holding) × (was : ℕ) × (blocks : Blocks) × B.TreeRead.holds base.now b
            × IsFileOf (holding_now self.old b) inode was blocks }
        requires fits { first + length pages.items < 2 ^ 64 }
        requires sized { size ≤ limits.file_limit }
        ensures orderly { IsOrderly self.old → IsInodeNumber inode → IsOrderly self.new }
        ensures truncated { (b : Holding) (was : ℕ) (blocks : Blocks) → B.TreeRead.holds base.now b
            → IsFileOf (holding_now self.old b) inode was blocks
            → OnOk result ((i : ℕ) → holding_now self.new b i ≡ with_held inode
            (Some (Stored size (blocks_below (blocks_for size) (put_from first pages.items blocks))))
            (holding_now self.old b) i) }
        ensures counts { (b : Holding) (was : ℕ) (blocks : Blocks) → B.TreeRead.holds base.now b
            → IsFileOf (holding_now self.old b) inode was blocks
            → CountsFreeNow self.old b → OnOk result (CountsFreeNow self.new b) }
        ensures rest { KeepsRest self.old self.new }
        ensures same { OnErr result (current_of self.new ≡ current_of self.old) }
        ensures refused { IfErr result (λ e. e ≡ VolError.Memory) }
    {
        self.write_blocks(alloc, base, inode, size, first, pages)?;
        self.cut_blocks(inode, (size + 1023) / 1024);
        Ok(())
    }
}
