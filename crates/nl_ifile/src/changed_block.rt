//! The blocks that changes of inodes touch.
ghost use Rattle.std.specs.Prelude.{◌≡◌, ◌≤◌, ◌<◌, ◌/◌, ℕ, Option, length, slice_index_or, take, drop, All, IfOk, IfErr};
ghost use Rattle.nl_types.specs.Blocks.Roots.{page_at};
ghost use Rattle.nl_layout.specs.Root.{root_of};
ghost use Rattle.nl_layout.specs.Inode.{EntryHasSpelling};
ghost use Rattle.nl_layout.specs.declared.inode.Inode.{Inode};
ghost use Rattle.nl_ifile.specs.declared.change.InodeChange.{InodeChange};
ghost use Rattle.nl_ifile.specs.Inodes.{InodeMap, IsInodeFile, block_bytes, block_for, entry_for, in_block, inode_at, with_inode};
ghost use Rattle.nl_ifile.specs.Changing.{NumbersAscend, AreBlockChanges, NumbersAreInRange, inodes_with};

use crate::change::InodeChange;
use crate::read::INODES_PER_BLOCK;
use nl_blocktree::{BlockChange, Cursor};
use nl_layout::{INODE_SIZE, Inode, InodeEntry, Root};
use nl_types::{BLOCK_SIZE, Block, Page, VolError};
use nl_vstore::VRead;
use std::alloc::Global;

/// The changes of blocks that changes of inodes are, one for each block that they touch.
pub(crate) fn changed_blocks<V: VRead>(
    alloc: Global,
    store: &V,
    root: &Root,
    changes: &[InodeChange],
) -> Result<Vec<BlockChange>, VolError>
    requires inodes { IsInodeFile (V.pages store.now) (root_of root.now) }
    requires ascending { NumbersAscend changes.now }
    requires in_range { NumbersAreInRange changes.now }
    ensures ok { IfOk result (λ blocks. AreBlockChanges (page_at (V.pages store.now) (root_of root.now))
        (inode_at (V.pages store.now) (root_of root.now)) changes.now blocks.items) }
    ensures err { IfErr result (λ e. e ≡ VolError.Memory) }
{
    let mut cursor = Cursor::new(store, *root);
    let mut blocks = Vec::new(alloc);
    let mut start = 0;
    while start < changes.len() {
        let index = changes[start].number.get() / INODES_PER_BLOCK;
        let end = end_of_block(changes, start, index);
        blocks.push(changed_block(alloc, &mut cursor, index, &changes[start..end])?)?;
        start = end;
    }
    Ok(blocks)
}

/// The first place behind `start` whose change is of an inode of another block.
fn end_of_block(changes: &[InodeChange], start: usize, index: u64) -> usize
    requires ascending { NumbersAscend changes.now }
    requires inside { start < length changes.now }
    requires first { (next : InodeChange) → (slice_index_or changes.now start next).number / 8 ≡ index }
    ensures more { start < result }
    ensures within { result ≤ length changes.now }
    ensures same { (k : ℕ) (next : InodeChange) → start ≤ k → k < result →
        (slice_index_or changes.now k next).number / 8 ≡ index }
    ensures stop { (next : InodeChange) → result < length changes.now →
        index < (slice_index_or changes.now result next).number / 8 }
{
    let mut end = start + 1;
    while end < changes.len() && changes[end].number.get() / INODES_PER_BLOCK == index {
        end += 1;
    }
    end
}

/// The change of a block that changes of its inodes are. The block goes where none of the eight is in use
/// then.
fn changed_block<V: VRead>(
    alloc: Global,
    cursor: &mut Cursor<'_, V>,
    index: u64,
    changes: &[InodeChange],
) -> Result<BlockChange, VolError>
    requires inodes { IsInodeFile (V.pages cursor.old.store.now) (root_of cursor.old.root) }
    requires ascending { NumbersAscend changes.now }
    requires inside { All (λ c. c.number / 8 ≡ index) changes.now }
    ensures index { IfOk result (λ change. change.index ≡ index) }
    ensures page { IfOk result (λ change. change.page ≡ block_for (in_block (inodes_with changes.now
        (inode_at (V.pages cursor.old.store.now) (root_of cursor.old.root))) index)) }
    ensures store { cursor.new.store.now ≡ cursor.old.store.now }
    ensures root { cursor.new.root ≡ cursor.old.root }
    ensures fits { IfOk result (λ _. All (λ c. EntryHasSpelling (entry_for c.inode)) changes.now) }
    ensures err { IfErr result (λ e. e ≡ VolError.Memory) }
{
    let mut bytes = old_bytes(cursor, index);
    write_inodes(&mut bytes, changes);
    if bytes == [0; BLOCK_SIZE] {
        return Ok(BlockChange { index, page: None });
    }
    let page = Page::new(alloc, Block::new(bytes))?;
    Ok(BlockChange {
        index,
        page: Some(page),
    })
}

/// The bytes of a block, zeros where it isn't there, which are eight free entries.
fn old_bytes<V: VRead>(cursor: &mut Cursor<'_, V>, index: u64) -> [u8; BLOCK_SIZE]
    requires { IsInodeFile (V.pages cursor.old.store.now) (root_of cursor.old.root) }
    ensures bytes { result ≡ block_bytes (in_block
        (inode_at (V.pages cursor.old.store.now) (root_of cursor.old.root)) index) }
    ensures store { cursor.new.store.now ≡ cursor.old.store.now }
    ensures root { cursor.new.root ≡ cursor.old.root }
{
    match cursor.page_at(index) {
        Some(page) => *page.bytes(),
        None => [0; BLOCK_SIZE],
    }
}

/// Writes each changed inode to its place in a block.
fn write_inodes(bytes: &mut [u8; BLOCK_SIZE], changes: &[InodeChange])
    requires ascending { NumbersAscend changes.now }
    ensures written { (inodes : InodeMap) (index : ℕ) → All (λ c. c.number / 8 ≡ index) changes.now →
        bytes.old ≡ block_bytes (in_block inodes index) →
        bytes.new ≡ block_bytes (in_block (inodes_with changes.now inodes) index) }
    ensures fits { All (λ c. EntryHasSpelling (entry_for c.inode)) changes.now }
{
    for change in changes {
        let place = (change.number.get() % INODES_PER_BLOCK) as usize;
        write_inode(bytes, place, change.inode);
    }
}

/// Writes an inode, or a free entry, to a place of a block.
pub(crate) fn write_inode(bytes: &mut [u8; BLOCK_SIZE], place: usize, inode: Option<Inode>)
    requires { place < 8 }
    ensures written { (inodes : ℕ → Option Inode) → bytes.old ≡ block_bytes inodes →
        bytes.new ≡ block_bytes (with_inode inodes place inode) }
    ensures fits { EntryHasSpelling (entry_for inode) }
{
    let entry = match inode {
        Some(inode) => InodeEntry::InUse(inode),
        None => InodeEntry::Free,
    };
    let start = place * INODE_SIZE;
    entry.write(&mut bytes[start..start + INODE_SIZE]);
}
