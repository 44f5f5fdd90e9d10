//! Reads of a file's bytes, whose pages are looked for in a cache first.
ghost use Rattle.std.specs.Prelude.{◌≡◌, true, ℕ, ◌+◌, ◌-◌, ◌/◌, ◌%◌, ◌<◌, ◌≤◌, ◌^◌, List, Some, length, min, slice_get, slice_index};
ghost use Rattle.nl_tree.specs.Held.{Holding, held_block};
ghost use Rattle.nl_tree.specs.Reading.{AreBytesFrom};
ghost use Rattle.nl_mounts.specs.declared.cache.CacheKey.{CacheKey};
ghost use Rattle.nl_mounts.specs.Caching.{HasCachedBlocks, block_count, key_of, touched, touched_one};
ghost use Rattle.nl_mounts.specs.Warming.{AreReadUpTo};

use crate::cache::{Cache, CachedFile};
use nl_tree::TreeRead;
use nl_types::{BLOCK_SIZE, Page};

/// Fills the slice with bytes of a page, from one of them on.
fn copy_page(page: &Page, start: usize, into: &mut [u8])
    requires { start + length into.old ≤ 1024 }
    ensures { (k : ℕ) → k < length into.new
        → slice_index into.new k ≡ slice_index page.now (start + k) }
{
    into.copy_from_slice(&page.bytes()[start..start + into.len()]);
}

/// Fills the slice with bytes of the page that was used last, from one of them on.
fn copy_front(cache: &Cache, start: usize, into: &mut [u8])
    requires { start + length into.old ≤ 1024 }
    ensures { (e : CacheKey × List ℕ) → slice_get cache.now.entries 0 ≡ Some e
        → (k : ℕ) → k < length into.new → slice_index into.new k ≡ slice_index e.1 (start + k) }
{
    if let Some((_, page)) = cache.peek_mru() {
        copy_page(page, start, into);
    }
}

/// A read of bytes of a file from an offset on.
#[derive(Drop)]
pub(crate) struct FileRead<'a, T: TreeRead> {
    pub(crate) tree: &'a T,
    pub(crate) file: &'a CachedFile,
    pub(crate) offset: u64,
}

impl<T: TreeRead> FileRead<'_, T> {
    /// Fills the slice from one place to another with what the tree has.
    fn read_stored(&self, into: &mut [u8], from: usize, to: usize)
        requires within { from ≤ to }
        requires room { to ≤ length into.old }
        requires fits { self.now.offset + length into.old < 2 ^ 64 }
        ensures { (held : Holding) → T.holds self.now.tree.now held
            → AreReadUpTo from (held_block (held self.now.file.now.inode)) self.now.offset into.old
            → AreReadUpTo to (held_block (held self.now.file.now.inode)) self.now.offset into.new }
    {
        if from == to {
            return;
        }
        let offset = self.offset + from as u64;
        self.tree
            .read_bytes(self.file.inode, offset, &mut into[from..to]);
    }

    /// Where the block ends in so many bytes in which one of them lies.
    fn block_end(&self, from: usize, len: usize) -> usize
        requires some { from < len }
        requires fits { self.now.offset + len < 2 ^ 64 }
        ensures { result ≡ min len (from + (1024 - (self.now.offset + from) % 1024)) }
    {
        let start = ((self.offset + from as u64) % BLOCK_SIZE as u64) as usize;
        from + (len - from).min(BLOCK_SIZE - start)
    }

    /// Looks for a block in the cache, whose bytes go from one place in the slice to another. Where it is
    /// there, it comes to the front, and the bytes from `done` on are filled up to its end. Answers up to
    /// where they are filled.
    fn read_block(
        &self,
        cache: &mut Cache,
        into: &mut [u8],
        done: usize,
        from: usize,
        to: usize,
    ) -> usize
        requires order { done ≤ from }
        requires some { from < to }
        requires room { to ≤ length into.old }
        requires block { to ≤ from + (1024 - (self.now.offset + from) % 1024) }
        requires fits { self.now.offset + length into.old < 2 ^ 64 }
        ensures touched { cache.new ≡ touched_one (key_of self.now.file.now.checkpoint
            self.now.file.now.inode ((self.now.offset + from) / 1024)) cache.old }
        ensures within { result ≤ to }
        ensures read { (held : Holding) → T.holds self.now.tree.now held
            → HasCachedBlocks cache.old self.now.file.now.checkpoint held
            → AreReadUpTo done (held_block (held self.now.file.now.inode)) self.now.offset into.old
            → AreReadUpTo result (held_block (held self.now.file.now.inode)) self.now.offset into.new }
    {
        let position = self.offset + from as u64;
        if !cache.promote(&self.file.key(position / BLOCK_SIZE as u64)) {
            return done;
        }
        self.read_stored(into, done, from);
        let start = (position % BLOCK_SIZE as u64) as usize;
        copy_front(cache, start, &mut into[from..to]);
        to
    }

    /// Fills the slice with the pages that were used last, where they are those of its blocks, the last one
    /// first, as they are once a read has brought them to the front. It looks for no key. Answers whether
    /// they are.
    fn read_front(&self, cache: &Cache, into: &mut [u8]) -> bool
        requires { self.now.offset + length into.old < 2 ^ 64 }
        ensures order { result ≡ true → touched self.now.file.now.checkpoint self.now.file.now.inode
            (self.now.offset / 1024) (block_count self.now.offset (length into.old)) cache.now ≡ cache.now }
        ensures read { result ≡ true → (held : Holding)
            → HasCachedBlocks cache.now self.now.file.now.checkpoint held
            → AreBytesFrom (held_block (held self.now.file.now.inode)) self.now.offset into.new }
    {
        // The bytes from `left` on are filled.
        let mut left = into.len();
        for (key, page) in cache.iter() {
            if left == 0 {
                return true;
            }
            let last = self.offset + (left - 1) as u64;
            if *key != self.file.key(last / BLOCK_SIZE as u64) {
                return false;
            }
            let end = (last % BLOCK_SIZE as u64) as usize + 1;
            let count = left.min(end);
            copy_page(page, end - count, &mut into[left - count..left]);
            left -= count;
        }
        left == 0
    }

    /// Fills the slice, and looks for each of its blocks. Those that are in the cache come to the front,
    /// ascending.
    fn read_blocks(&self, cache: &mut Cache, into: &mut [u8])
        requires { self.now.offset + length into.old < 2 ^ 64 }
        ensures touched { cache.new ≡ touched self.now.file.now.checkpoint self.now.file.now.inode
            (self.now.offset / 1024) (block_count self.now.offset (length into.old)) cache.old }
        ensures read { (held : Holding) → T.holds self.now.tree.now held
            → HasCachedBlocks cache.old self.now.file.now.checkpoint held
            → AreBytesFrom (held_block (held self.now.file.now.inode)) self.now.offset into.new }
    {
        let len = into.len();
        // The bytes before `done` are filled. From there to `seen` lie blocks that aren't in the cache.
        let mut done = 0;
        let mut seen = 0;
        while seen < len {
            let end = self.block_end(seen, len);
            done = self.read_block(cache, into, done, seen, end);
            seen = end;
        }
        self.read_stored(into, done, len);
    }
    /// Fills the slice. The blocks of its bytes that are in the cache come to the front, ascending.
    pub(crate) fn read(&self, cache: &mut Cache, into: &mut [u8])
        requires { self.now.offset + length into.old < 2 ^ 64 }
        ensures touched { cache.new ≡ touched self.now.file.now.checkpoint self.now.file.now.inode
            (self.now.offset / 1024) (block_count self.now.offset (length into.old)) cache.old }
        ensures read { (held : Holding) → T.holds self.now.tree.now held
            → HasCachedBlocks cache.old self.now.file.now.checkpoint held
            → AreBytesFrom (held_block (held self.now.file.now.inode)) self.now.offset into.new }
    {
        if !self.read_front(cache, into) {
            self.read_blocks(cache, into);
        }
    }
}
