//! What a port keeps of files that it reads often: their pages, the most recently used first.
ghost use Rattle.std.specs.Prelude.{◌≡◌, ◌+◌, ◌-◌, ◌/◌, ◌<◌, ◌≤◌, ◌^◌, [], None, ℕ, IfErr, IfOk, OnErr, OnOk, is_some, option_copied};
ghost use Rattle.lru.specs.LruCache.{lru_cache};
ghost use Rattle.nl_tree.specs.Held.{Holding, held_block};
ghost use Rattle.nl_mounts.specs.Caching.{IsCacheRefused, IsCacheSize, block_end, key_of, put_by, put_count, put_one, warmed, warmed_one};
ghost use Rattle.nl_mounts.specs.Warming.{PutsStored};

use lru::LruCache;
use nl_tree::TreeRead;
use nl_types::{BLOCK_SIZE, CheckpointNumber, InodeNumber, Page, VolError};
use std::alloc::Global;
use std::num::NonZeroUsize;

/// The most pages that are kept.
const MOST_PAGES: usize = 4_096;

/// Which block of which file of which checkpoint a page is.
#[derive(Clone, Copy, PartialEq, Eq, Hash)]
pub struct CacheKey {
    pub checkpoint: u64,
    pub inode: u64,
    pub index: u64,
}

/// Pages, the most recently used first.
pub(crate) type Cache = LruCache<CacheKey, Page>;

/// An empty cache for so many pages. Refused by `BadRange` where these are none or more than 4,096, and by
/// `Memory`.
pub(crate) fn new_cache(alloc: Global, pages: usize) -> Result<Cache, VolError>
    ensures size { OnOk result (IsCacheSize pages) }
    ensures empty { IfOk result (λ cache. cache ≡ lru_cache [] pages) }
    ensures refused { IfErr result (λ e. IsCacheRefused pages e) }
{
    if pages > MOST_PAGES {
        return Err(VolError::BadRange);
    }
    let Some(most) = NonZeroUsize::new(pages) else {
        return Err(VolError::BadRange);
    };
    Ok(LruCache::new(alloc, most)?)
}

/// A file of a checkpoint.
#[derive(Drop)]
pub(crate) struct CachedFile {
    pub(crate) checkpoint: CheckpointNumber,
    pub(crate) inode: InodeNumber,
}

impl CachedFile {
    /// The key of one of its blocks.
    pub(crate) fn key(&self, index: u64) -> CacheKey
        ensures { result ≡ key_of self.now.checkpoint self.now.inode index }
    {
        CacheKey {
            checkpoint: self.checkpoint.get(),
            inode: self.inode.get(),
            index,
        }
    }
}

/// The index behind the last block of so many bytes from an offset on.
pub(crate) fn block_end(offset: u64, count: u64) -> u64
    requires { offset + count < 2 ^ 64 }
    ensures end { result ≡ block_end offset count }
    ensures behind { offset / 1024 ≤ result }
{
    let block = BLOCK_SIZE as u64;
    if count == 0 {
        offset / block
    } else {
        (offset + (count - 1)) / block + 1
    }
}

/// Puts a page into the cache, of which it gets a handle. Refused by `Memory` alone.
fn put_page(cache: &mut Cache, key: CacheKey, page: &Page) -> Result<(), VolError>
    ensures put { OnOk result (cache.new ≡ put_one key page.now cache.old) }
    ensures same { OnErr result (cache.new ≡ cache.old) }
    ensures refused { IfErr result (λ e. e ≡ VolError.Memory) }
{
    let page = page.share()?;
    match cache.put(key, page) {
        Ok(_) => Ok(()),
        Err(_) => Err(VolError::Memory),
    }
}

/// Brings a block of a file to the front where it is there, and else puts it where it is stored. Answers how
/// many it put. Refused by `Memory` alone.
fn warm_block<T: TreeRead>(
    tree: &T,
    cache: &mut Cache,
    file: &CachedFile,
    index: u64,
) -> Result<usize, VolError>
    ensures warmed { (held : Holding) → T.holds tree.now held → IfOk result (λ count.
        (cache.new ≡ warmed_one (key_of file.now.checkpoint file.now.inode index)
        (held_block (held file.now.inode) index) cache.old)
        × (count ≡ put_by (key_of file.now.checkpoint file.now.inode index)
        (held_block (held file.now.inode) index) cache.old)) }
    ensures once { IfOk result (λ count. count ≤ 1) }
    ensures stored { PutsStored (T.holds tree.now) file.now.checkpoint cache.old cache.new }
    ensures same { OnErr result (cache.new ≡ cache.old) }
    ensures refused { IfErr result (λ e. e ≡ VolError.Memory) }
{
    let key = file.key(index);
    if cache.promote(&key) {
        return Ok(0);
    }
    match tree.block(file.inode, index) {
        None => Ok(0),
        Some(page) => {
            put_page(cache, key, page)?;
            Ok(1)
        }
    }
}

/// Brings the blocks of a file from one index to another to the front, ascending, and puts those that are
/// stored and aren't there. Answers how many it put. Refused by `Memory` alone; what was done before stays.
pub(crate) fn warm_file<T: TreeRead>(
    tree: &T,
    cache: &mut Cache,
    file: &CachedFile,
    first: u64,
    end: u64,
) -> Result<usize, VolError>
    requires { first ≤ end }
    ensures warmed { (held : Holding) → T.holds tree.now held → IfOk result (λ count.
        (cache.new ≡ warmed (held_block (held file.now.inode)) file.now.checkpoint file.now.inode
        first (end - first) cache.old)
        × (count ≡ put_count (held_block (held file.now.inode)) file.now.checkpoint
        file.now.inode first (end - first) cache.old)) }
    ensures begun { (held : Holding) → T.holds tree.now held → IfErr result (λ _.
        (done : ℕ) × (done < end - first)
        × (cache.new ≡ warmed (held_block (held file.now.inode)) file.now.checkpoint
        file.now.inode first done cache.old)) }
    ensures stored { PutsStored (T.holds tree.now) file.now.checkpoint cache.old cache.new }
    ensures refused { IfErr result (λ e. e ≡ VolError.Memory) }
{
    let mut count = 0;
    for index in first..end {
        count += warm_block(tree, cache, file, index)?;
    }
    Ok(count)
}
