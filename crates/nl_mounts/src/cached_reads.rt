//! Reads of files through a cache, and what is put into it.
ghost use Rattle.std.specs.Prelude.{◌≡◌, ◌/◌, IfErr, IfOk, OnErr, length, take, drop};
ghost use Rattle.nl_types.specs.Plain.Calls.{and_then, read};
ghost use Rattle.nl_types.specs.Plain.Paths.{path_of};
ghost use Rattle.nl_types.specs.Plain.Trees.{Tree};
ghost use Rattle.nl_tree.specs.Held.{Holding};
ghost use Rattle.nl_tree.specs.Reading.{ArePartOf, HoldingMeans, ShowsAs};
ghost use Rattle.nl_mounts.specs.Caching.{HasCachedBlocks, HoldsWith, block_count, touched};
ghost use Rattle.nl_mounts.specs.Warming.{HasBegunToWarm, HasTouched, HasWarmed, IsWarmingOf, OfHeldFile, PutsStored, Warms};

use crate::cache::{Cache, CachedFile, block_end, warm_file};
use crate::file_read::FileRead;
use nl_tree::{TreeRead, find_file};
use nl_types::{Answer, BLOCK_SIZE, CheckpointNumber, VolError};

/// Reads bytes of a file as `nl_tree::read_file_into` does, and looks for their pages in the cache.
fn read_file<T: TreeRead>(
    tree: &T,
    cache: &mut Cache,
    file: &CachedFile,
    offset: u64,
    into: &mut [u8],
) -> usize
    ensures reads { (held : Holding) → T.holds tree.now held
        → HasCachedBlocks cache.old file.now.checkpoint held
        → ArePartOf (held file.now.inode) offset (length into.old) (take result into.new) }
    ensures rest { drop result into.new ≡ drop result into.old }
    ensures touched { cache.new ≡ touched file.now.checkpoint file.now.inode (offset / 1024)
        (block_count offset result) cache.old }
{
    let left = tree.size(file.inode).saturating_sub(offset);
    let count = into.len().min(left as usize);
    FileRead { tree, file, offset }.read(cache, &mut into[..count]);
    count
}

/// Reads bytes as `nl_tree::read_into` does, and looks for their pages in the cache. Those that are there
/// come to the front. It takes no memory.
pub(crate) fn read_cached<T: TreeRead>(
    tree: &T,
    checkpoint: CheckpointNumber,
    cache: &mut Cache,
    path: &[u8],
    offset: u64,
    into: &mut [u8],
) -> Result<usize, VolError>
    ensures reads { (held : Holding) (shown : Tree)
        → HoldsWith (T.holds tree.now) cache.old checkpoint held → HoldingMeans held shown
        → ShowsAs (λ count. Answer.Bytes (take count into.new)) result
        (and_then (path_of path.now) (read shown offset (length into.old))) }
    ensures rest { IfOk result (λ count. drop count into.new ≡ drop count into.old) }
    ensures refused { OnErr result (into.new ≡ into.old) }
    ensures touched { HasTouched
        (OfHeldFile (HoldsWith (T.holds tree.now) cache.old checkpoint) checkpoint path.now)
        offset cache.old result cache.new }
{
    let inode = find_file(tree, path)?;
    let file = CachedFile { checkpoint, inode };
    Ok(read_file(tree, cache, &file, offset, into))
}

/// Warms the blocks of so many bytes of a file, as far as there are. Refused by `Memory` alone; what was done
/// before stays.
fn warm_bytes<T: TreeRead>(
    tree: &T,
    cache: &mut Cache,
    file: &CachedFile,
    offset: u64,
    len: u64,
) -> Result<usize, VolError>
    ensures warmed { (held : Holding) → T.holds tree.now held → IfOk result (λ count.
        HasWarmed offset len count cache.old cache.new file.now.checkpoint held file.now.inode) }
    ensures begun { (held : Holding) → T.holds tree.now held → IfErr result (λ _.
        HasBegunToWarm offset len cache.old cache.new file.now.checkpoint held file.now.inode) }
    ensures stored { PutsStored (T.holds tree.now) file.now.checkpoint cache.old cache.new }
    ensures refused { IfErr result (λ e. e ≡ VolError.Memory) }
{
    let count = tree.size(file.inode).saturating_sub(offset).min(len);
    let end = block_end(offset, count);
    warm_file(tree, cache, file, offset / BLOCK_SIZE as u64, end)
}

/// Brings the blocks of so many bytes of the file at a path to the front, ascending, as far as there are, and
/// puts those that are stored and aren't there. Answers how many it put.
///
/// Refused as `nl_tree::find_file` is, and by `Memory`; what was done before stays.
pub(crate) fn warm<T: TreeRead>(
    tree: &T,
    checkpoint: CheckpointNumber,
    cache: &mut Cache,
    path: &[u8],
    offset: u64,
    len: u64,
) -> Result<usize, VolError>
    ensures refused { (held : Holding) (shown : Tree)
        → T.holds tree.now held → HoldingMeans held shown → IsWarmingOf shown path.now result }
    ensures warmed { Warms (OfHeldFile (T.holds tree.now) checkpoint path.now)
        offset len cache.old result cache.new }
    ensures stored { PutsStored (T.holds tree.now) checkpoint cache.old cache.new }
{
    let inode = find_file(tree, path)?;
    warm_bytes(tree, cache, &CachedFile { checkpoint, inode }, offset, len)
}
