//! The new blocks of a changed file.
ghost use Rattle.std.specs.Prelude.{◌≡◌, ◌==◌, ◌+◌, ◌<◌, ◌≤◌, ◌^◌, ℕ, cond, length, Option, Some, None, MatchOption, IfSome, IfErr, OnOk};
ghost use Rattle.std.specs.BTreeMap as map;
ghost use Rattle.std.specs.Ordering.{nat_cmp};
ghost use Rattle.nl_types.specs.declared.error.VolError;
ghost use Rattle.nl_tree.specs.Held.{Held};
ghost use Rattle.nl_tree.specs.Overlays.{block_over, new_page_at};
ghost use Rattle.nl_tree.specs.Private.Pages.{HasPage, IsSameFile, blocks_below, put_from};

use crate::overlay::FileBlocks;
use nl_types::{Page, VolError};

impl FileBlocks {
    /// Keeps a place for a block. Nothing that shows changes.
    #[tactic(auto, using(crate::proofs::Shown::hidden))]
    fn reserve(&mut self, index: u64) -> Result<(), VolError>
        ensures same { IsSameFile self.old self.new }
        ensures place { OnOk result (HasPage self.new index) }
        ensures ordered { map.IsOrdered nat_cmp self.old.pages → map.IsOrdered nat_cmp self.new.pages }
        ensures places { (i : ℕ) → HasPage self.old i → HasPage self.new i }
        ensures refused { IfErr result (λ e. e ≡ VolError.Memory) }
    {
        if self.pages.get(&index).is_none() {
            self.pages.insert(index, None)?;
        }
        Ok(())
    }

    /// Keeps places for the blocks from one up to another. Refused by `Memory` alone.
    pub(crate) fn reserve_all(&mut self, first: u64, end: u64) -> Result<(), VolError>
        ensures same { IsSameFile self.old self.new }
        ensures place { OnOk result ((i : ℕ) → first ≤ i → i < end → HasPage self.new i) }
        ensures ordered { map.IsOrdered nat_cmp self.old.pages → map.IsOrdered nat_cmp self.new.pages }
        ensures refused { IfErr result (λ e. e ≡ VolError.Memory) }
    {
        for index in first..end {
            self.reserve(index)?;
        }
        Ok(())
    }

    fn put(&mut self, index: u64, page: Page)
        requires { HasPage self.old index }
        ensures block { (b : ℕ) → new_page_at self.new b ≡
            cond (b == index) (Some page) (new_page_at self.old b) }
        ensures size { self.new.size ≡ self.old.size }
        ensures ordered { map.IsOrdered nat_cmp self.old.pages → map.IsOrdered nat_cmp self.new.pages }
        ensures cut { self.new.cut ≡ self.old.cut }
        ensures places { (i : ℕ) → HasPage self.old i → HasPage self.new i }
    {
        if let Some(place) = self.pages.get_mut(&index) {
            *place = Some(page);
        }
    }

    /// Puts blocks, one behind the other, to places that are kept for them.
    pub(crate) fn put_all(&mut self, first: u64, pages: Vec<Page>)
        requires fits { first + length pages.items < 2 ^ 64 }
        requires places { (i : ℕ) → first ≤ i → i < first + length pages.items → HasPage self.old i }
        ensures blocks { (b : ℕ) → new_page_at self.new b ≡
            put_from first pages.items (new_page_at self.old) b }
        ensures ordered { map.IsOrdered nat_cmp self.old.pages → map.IsOrdered nat_cmp self.new.pages }
        ensures size { self.new.size ≡ self.old.size }
        ensures cut { self.new.cut ≡ self.old.cut }
    {
        let mut index = first;
        for page in pages {
            self.put(index, page);
            index += 1;
        }
    }

    /// The last index for which a place is kept.
    fn last_index(&self) -> Option<u64>
        ensures bound { MatchOption result ((b : ℕ) → map.get nat_cmp self.now.pages b ≡ None)
            (λ last. (b : ℕ) → last < b → map.get nat_cmp self.now.pages b ≡ None) }
        ensures there { IfSome result (HasPage self.now) }
    {
        match self.pages.last_key_value() {
            Some((last, _)) => Some(*last),
            None => None,
        }
    }

    /// Drops the new blocks from an index on.
    fn drop_pages(&mut self, count: u64)
        ensures ordered { map.IsOrdered nat_cmp self.old.pages → map.IsOrdered nat_cmp self.new.pages }
        ensures pages { (b : ℕ) → new_page_at self.new b ≡ blocks_below count (new_page_at self.old) b }
        ensures size { self.new.size ≡ self.old.size }
        ensures cut { self.new.cut ≡ self.old.cut }
    {
        while let Some(last) = self.last_index() {
            if last < count {
                return;
            }
            self.pages.remove(&last);
        }
    }

    /// Makes blocks from an index on, new ones and the checkpoint's, ones that don't show any more.
    pub(crate) fn cut_at(&mut self, count: u64)
        ensures ordered { map.IsOrdered nat_cmp self.old.pages → map.IsOrdered nat_cmp self.new.pages }
        ensures size { self.new.size ≡ self.old.size }
        ensures blocks { (base : Option Held) (b : ℕ) → block_over self.new base b ≡
            blocks_below count (block_over self.old base) b }
    {
        self.drop_pages(count);
        if count < self.cut {
            self.cut = count;
        }
    }
}
