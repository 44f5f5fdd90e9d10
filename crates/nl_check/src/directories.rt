//! What is judged of a directory by its inode and its blocks.
ghost use Rattle.std.specs.Prelude.{◌≡◌, ◌↔◌, ◌<◌, ◌≤◌, ◌*◌, ◌&&◌, List, IsTrue, IfOk, IfErr, Ok, None, Some, IfSome, MatchOption};
ghost use Rattle.nl_types.specs.declared.error.VolError;
ghost use Rattle.nl_types.specs.Blocks.Roots.{page_at};
ghost use Rattle.nl_layout.specs.Root.{root_of};
ghost use Rattle.nl_dirs.specs.declared.record.Record.{Record};
ghost use Rattle.nl_dirs.specs.Listings.{HoldsRecords};
ghost use Rattle.nl_dirs.specs.Records.{AllHaveSpelling, IsPageOf, sizes};
ghost use Rattle.nl_check.specs.Private.DirectoryBlocks.{BeginsNextBlock, IsAdded};
ghost use Rattle.nl_check.specs.Private.SoundInodes.{IsMeasured};
ghost use Rattle.nl_check.specs.Private.SoundFiles.{AreSoundRecords, IsSoundDirectory, IsSoundRecord};

use crate::inodes::is_inode_number;
use nl_blocktree::Cursor;
use nl_dirs::{Record, records};
use nl_layout::{Inode, Root};
use nl_types::limits::PATH_LIMIT;
use nl_types::{BLOCK_SIZE, Page, VolError, is_name};
use nl_vstore::VRead;
use std::alloc::Global;

/// The bytes of a record in front of its name.
const HEAD_SIZE: usize = 6;

/// Whether a record's name may stand in a path, and its number be an inode's.
fn is_sound_record(record: &Record) -> bool
    ensures { IsTrue result ↔ IsSoundRecord «record».now }
{
    is_name(record.name.as_slice()) && is_inode_number(record.inode)
}

/// Whether there are no more records than a directory may have, each of them sound.
fn are_sound_records(records: &[Record]) -> bool
    ensures { IsTrue result ↔ AreSoundRecords records.now }
{
    if records.len() > PATH_LIMIT {
        return false;
    }
    for record in records {
        if !is_sound_record(record) {
            return false;
        }
    }
    true
}

/// The bytes that records take in a block.
fn size_of_all(records: &[Record]) -> usize
    requires { sizes records.now ≤ 1024 }
    ensures { result ≡ sizes records.now }
{
    let mut size = 0;
    for record in records {
        size += HEAD_SIZE + record.name.len();
    }
    size
}

/// Whether the records of a block may follow others, the last block of which has so many bytes in use: the
/// first one's name is behind all of theirs, and its record has no room there.
fn follows(all: &[Record], used: usize, block: &[Record]) -> bool
    requires used { used ≤ 1024 }
    requires fit { AllHaveSpelling block.now }
    ensures { IsTrue result ↔ BeginsNextBlock all.now used block.now }
{
    let Some(first) = block.first() else {
        return false;
    };
    if used + HEAD_SIZE + first.name.len() <= BLOCK_SIZE {
        return false;
    }
    match all.last() {
        Some(last) => last.name.as_slice().cmp(&first.name.as_slice()).is_lt(),
        None => true,
    }
}

/// Adds the records of a block to others, the last block of which has so many bytes in use. It answers how
/// many the block has in use, or none where it isn't a block of records, or may not follow. Refused by
/// `Memory` alone.
fn add_block(
    alloc: Global,
    page: &Page,
    used: usize,
    all: &mut Vec<Record>,
) -> Result<Option<usize>, VolError>
    requires { used ≤ 1024 }
    ensures added { IfOk result (λ found. IfSome found (λ size. (size ≤ 1024)
        × IsAdded page.now used all.old.items all.new.items size)) }
    ensures only { result ≡ Ok None → (block : List Record) → IsPageOf page.now block
        → BeginsNextBlock all.old.items used block → ⊥ }
    ensures kept { result ≡ Ok None → all.new.items ≡ all.old.items }
    ensures refused { IfErr result (λ e. e ≡ VolError.Memory) }
{
    let Some(mut block) = records(alloc, page)? else {
        return Ok(None);
    };
    if !follows(all.as_slice(), used, block.as_slice()) {
        return Ok(None);
    }
    let size = size_of_all(block.as_slice());
    all.append(&mut block)?;
    Ok(Some(size))
}

/// The records in the blocks of a directory, in the order of their names. None where they aren't the blocks
/// of records, each with as many as fit. Refused by `Memory` alone.
fn records_of<V: VRead>(
    alloc: Global,
    store: &V,
    root: Root,
    count: u64,
) -> Result<Option<Vec<Record>>, VolError>
    requires { IsMeasured (V.pages store.now) (root_of root) count }
    ensures found { IfOk result (λ found. IfSome found (λ list.
        HoldsRecords (page_at (V.pages store.now) (root_of root)) (1024 * count) list.items)) }
    ensures only { (list : List Record)
        → HoldsRecords (page_at (V.pages store.now) (root_of root)) (1024 * count) list
        → IfOk result (λ found. MatchOption found ⊥ (λ records. records.items ≡ list)) }
    ensures refused { IfErr result (λ e. e ≡ VolError.Memory) }
{
    let mut cursor = Cursor::new(store, root);
    let mut all: Vec<Record> = Vec::new(alloc);
    // As if a full block came before the first one.
    let mut used = BLOCK_SIZE;
    for index in 0..count {
        let Some(page) = cursor.page_at(index) else {
            return Ok(None);
        };
        let Some(size) = add_block(alloc, page, used, &mut all)? else {
            return Ok(None);
        };
        used = size;
    }
    Ok(Some(all))
}

/// Whether the blocks of a directory are those of sound records and its size is theirs, where so many indices
/// lead up to its last block. Refused by `Memory` alone.
pub(crate) fn is_sound_directory<V: VRead>(
    alloc: Global,
    store: &V,
    inode: &Inode,
    count: u64,
) -> Result<bool, VolError>
    requires { IsMeasured (V.pages store.now) (root_of inode.now.root) count }
    ensures is { IfOk result (λ sound. IsTrue sound
        ↔ IsSoundDirectory (page_at (V.pages store.now) (root_of inode.now.root)) inode.now.size) }
    ensures refused { IfErr result (λ e. e ≡ VolError.Memory) }
{
    if inode.size % BLOCK_SIZE as u64 != 0 || inode.size / BLOCK_SIZE as u64 != count {
        return Ok(false);
    }
    match records_of(alloc, store, inode.root, count)? {
        Some(all) => Ok(are_sound_records(all.as_slice())),
        None => Ok(false),
    }
}
