//! The image of a store and of the checkpoints kept over it, written.
ghost use Rattle.std.specs.Prelude.{◌≡◌, ◌<◌, ◌≤◌, ◌*◌, ◌+◌, ◌^◌, ◌++◌, All, IfErr, IfNone, IfOk, IfSome, IsErrOf, length, replicate};
ghost use Rattle.nl_types.specs.Plain.Limits as limits;
ghost use Rattle.nl_types.specs.declared.error.VolError;
ghost use Rattle.nl_layout.specs.Superblock.{superblock_bytes};
ghost use Rattle.nl_layout.specs.Superblock as superblocks;
ghost use Rattle.nl_layout.specs.Segment as segments;
ghost use Rattle.nl_layout.specs.Checkpoints as checkpoints;
ghost use Rattle.nl_vstore.specs.Appended.{IsLoadError};
ghost use Rattle.nl_vstore.specs.Stores.{KeepsStored, capacity};
ghost use Rattle.nl_dat.specs.EntryBytes as numbers;
ghost use Rattle.nl_dat.specs.Table.{numbers_shown};
ghost use Rattle.nl_image.specs.Parts.{blocks_start, entry_bytes, padding_of};
ghost use Rattle.nl_image.specs.StoreImages.{IsShapeOfStore, IsSpelledOf, parts_of};

use nl_cpfile::write_checkpoints;
use nl_dat::Dat;
use nl_layout::{CheckpointEntry, Mark, Superblock};
use nl_types::{BLOCK_SIZE, VolError};
use nl_vstore::{Space, Vstore};
use std::alloc::Global;

/// The image of a store, with these entries of checkpoints, whatever they name. Each used block is loaded
/// once from the device, in order, and nothing else is. Refused by `Memory`, and by `Fault` where the device
/// failed.
pub fn write_image<S: Space>(
    alloc: Global,
    store: &mut Dat<S>,
    kept: &[CheckpointEntry],
) -> Result<Vec<u8>, VolError>
    requires { All numbers.HasSpelling (numbers_shown store.old.store) }
    ensures image { IfOk result (λ bytes. IsSpelledOf store.old.store kept.now bytes.items) }
    ensures same { KeepsStored store.old.store store.new.store }
    ensures counted { store.old.store.failures ≤ store.new.store.failures }
    ensures fault { IsErrOf result VolError.Fault
        → store.old.store.failures < store.new.store.failures }
    ensures errors { IfErr result IsLoadError }
{
    let superblock = superblock_over(store, kept);
    let Some(front) = front_of(&superblock) else {
        return Err(VolError::Memory);
    };
    let mut image = vec![in alloc; 0; front + BLOCK_SIZE * store.capacity() as usize]?;
    let (head, blocks) = image.as_mut_slice().split_at_mut(front);
    write_front(&superblock, store, kept, head);
    store.dump_blocks(blocks)?;
    Ok(image)
}

/// How the store's volume is divided, and how many checkpoints are kept, under the present mark.
fn superblock_over<S: Space>(store: &Dat<S>, kept: &[CheckpointEntry]) -> Superblock
    ensures shape { IsShapeOfStore store.now.store result }
    ensures kept { result.checkpoints ≡ length kept.now }
{
    let table = store.table();
    Superblock {
        mark: Mark::Second,
        segments: table.sustat().segments as u32,
        blocks: table.blocks(),
        checkpoints: kept.len() as u64,
    }
}

/// How many bytes stand in front of the blocks. None where no list of bytes is so long.
fn front_of(superblock: &Superblock) -> Option<usize>
    requires segments { superblock.now.segments ≤ limits.segment_limit }
    requires blocks { superblock.now.segments * superblock.now.blocks ≤ limits.volume_block_limit }
    ensures front { IfSome result (λ front. front ≡ blocks_start superblock.now) }
    ensures few { IfSome result (λ front. front + 1024 * limits.volume_block_limit < 2 ^ 64) }
    ensures none { IfNone result (2 ^ 64 ≤ 320 * (superblock.now.checkpoints + 1)) }
{
    if superblock.checkpoints > u64::MAX / 320 {
        return None;
    }
    let total = (superblock.segments * superblock.blocks) as usize;
    let tables = 16 * superblock.segments as usize + 24 * total;
    let padding = BLOCK_SIZE + tables + 160 * superblock.checkpoints as usize;
    Some(padding + (BLOCK_SIZE - padding % BLOCK_SIZE) % BLOCK_SIZE)
}

/// Fills the place with all that stands in front of the blocks.
fn write_front<S: Space>(
    superblock: &Superblock,
    store: &Dat<S>,
    kept: &[CheckpointEntry],
    out: &mut [u8],
)
    requires shape { IsShapeOfStore store.now.store superblock.now }
    requires kept { superblock.now.checkpoints ≡ length kept.now }
    requires size { length out.old ≡ blocks_start superblock.now }
    ensures bytes { out.new ≡ superblock_bytes superblock.now
        ++ entry_bytes (parts_of superblock.now store.now.store kept.now)
        ++ replicate (padding_of superblock.now) 0 }
    ensures superblock { superblocks.HasSpelling superblock.now }
    ensures segments { All segments.HasSpelling store.now.store.segments.each }
    ensures kept { All checkpoints.HasSpelling kept.now }
{
    let (head, rest) = out.split_at_mut(BLOCK_SIZE);
    superblock.write(head);
    let (segments, rest) = rest.split_at_mut(16 * superblock.segments as usize);
    store.table().dump(segments);
    let (numbers, rest) = rest.split_at_mut(24 * store.capacity() as usize);
    store.dump(numbers);
    let (checkpoints, padding) = rest.split_at_mut(160 * kept.len());
    write_checkpoints(kept, checkpoints);
    padding.fill(0);
}
