//! The walk over all blocks of a checkpoint.
ghost use Rattle.std.specs.Prelude.{◌≡◌, ◌↔◌, ◌<◌, ◌+◌, ◌*◌, ◌^◌, ℕ, length, false, true, IsTrue, IsSome, IfOk, IfErr, IfSome, Some, None, Ok, option_copied};
ghost use Rattle.nl_types.specs.declared.error.VolError;
ghost use Rattle.nl_types.specs.Blocks.Roots.{Root as AnyRoot, page_at};
ghost use Rattle.nl_layout.specs.Root.{root_of};
ghost use Rattle.nl_ifile.specs.Inodes.{block_for, inode_at, inode_in};
ghost use Rattle.nl_check.specs.Private.InodeBlocks.{HasInode, IsEntryIn, IsSpelled};
ghost use Rattle.nl_blocktree.specs.Walked.{is_met};
ghost use Rattle.nl_check.specs.Shapes.{IsShaped};
ghost use Rattle.nl_check.specs.Private.SoundInodes.{TellsInodes};
ghost use Rattle.nl_check.specs.Private.Walks.{AreKnown, IsBlockOf, IsWalk};

use crate::found::Found;
use crate::inodes::{is_sound_inode, kind_of};
use nl_blocktree::{Cursor, walk};
use nl_layout::{INODE_SIZE, Inode, InodeEntry, Root};
use nl_types::{BLOCK_SIZE, InodeNumber, Page, VolError};
use nl_vstore::VRead;
use std::alloc::Global;

/// The inodes of a block.
pub(crate) const INODES_PER_BLOCK: usize = 8;

/// What the walk over a checkpoint of the right shape found.
#[derive(Clone, Copy)]
pub(crate) struct Walk {
    /// How many indices lead up to the last block of the file of inodes.
    pub(crate) count: u64,
    /// Whether each inode by itself is as it has to be.
    pub(crate) sound: bool,
}

/// What stands at a place of a block of inodes. None where it spells no inode, nor that the place is free.
fn entry_in(page: &Page, place: usize) -> Option<InodeEntry>
    requires { place < 8 }
    ensures { IsEntryIn page.now place result }
{
    let start = place * INODE_SIZE;
    InodeEntry::read(&page.bytes()[start..start + INODE_SIZE])
}

/// The inode in use at a place of a block.
pub(crate) fn inode_at_place(page: &Page, place: usize) -> Option<Inode>
    requires { place < 8 }
    ensures { result ≡ inode_in page.now place }
{
    match entry_in(page, place)? {
        InodeEntry::Free => None,
        InodeEntry::InUse(inode) => Some(inode),
    }
}

/// Whether each place of a block spells an inode, or that it is free.
fn are_entries(page: &Page) -> bool
    ensures { IsTrue result ↔ ((place : ℕ) → place < 8 → IsSpelled page.now place) }
{
    for place in 0..INODES_PER_BLOCK {
        if entry_in(page, place).is_none() {
            return false;
        }
    }
    true
}

/// Whether an inode of a block is in use.
fn has_inode(page: &Page) -> bool
    ensures yes { IsTrue result → (place : ℕ) × (place < 8) × HasInode page.now place }
    ensures no { result ≡ false → (place : ℕ) → place < 8 → inode_in page.now place ≡ None }
{
    for place in 0..INODES_PER_BLOCK {
        if inode_at_place(page, place).is_some() {
            return true;
        }
    }
    false
}

/// Whether a block is one of eight inodes, of which one at least is in use.
pub(crate) fn is_inode_block(page: &Page) -> bool
    ensures { IsTrue result ↔ (Some page.now ≡ block_for (inode_in page.now)) }
{
    let block = page.bytes();
    prove!(block[..].len() == BLOCK_SIZE);
    are_entries(page) && has_inode(page)
}

/// Walks the file of an inode that a number may have, and tells of the inode. It answers whether it and those
/// before it are sound, or none where its file can't be met. Refused by `Memory` alone.
fn walk_inode<V: VRead>(
    alloc: Global,
    store: &V,
    found: &mut Found,
    number: InodeNumber,
    inode: Option<Inode>,
    sound: bool,
) -> Result<Option<bool>, VolError>
    requires within { (v : ℕ) → IsSome (V.pages store.now v) → v < length found.old.met }
    ensures yes { IfOk result (λ walk. IfSome walk (λ now. (root : AnyRoot)
        → inode_at (V.pages store.now) root number ≡ inode
        → AreKnown (V.pages store.now) root number found.old.met found.old.kinds sound
        → AreKnown (V.pages store.now) root (number + 1) found.new.met found.new.kinds now)) }
    ensures no { result ≡ Ok None → (root : AnyRoot)
        → inode_at (V.pages store.now) root number ≡ inode
        → AreKnown (V.pages store.now) root number found.old.met found.old.kinds sound
        → IsShaped (V.pages store.now) root → ⊥ }
    ensures refused { IfErr result (λ e. e ≡ VolError.Memory) }
    ensures count { length found.new.met ≡ length found.old.met }
{
    let Some(inode) = inode else {
        return Ok(Some(sound));
    };
    let Ok(count) = walk(store, &mut found.met, inode.root) else {
        return Ok(None);
    };
    let is_sound = is_sound_inode(alloc, store, number, &inode, count)?;
    found.kinds.note(number, kind_of(inode.kind));
    Ok(Some(sound && is_sound))
}

/// Walks the files of the inodes of a block, as `walk_inode` does.
fn walk_block<V: VRead>(
    alloc: Global,
    store: &V,
    found: &mut Found,
    index: u64,
    page: &Page,
    sound: bool,
) -> Result<Option<bool>, VolError>
    requires within { (v : ℕ) → IsSome (V.pages store.now v) → v < length found.old.met }
    requires index { index < 2 ^ 60 }
    ensures block { IfOk result (λ walk. IfSome walk
        (λ now. Some page.now ≡ block_for (inode_in page.now))) }
    ensures yes { IfOk result (λ walk. IfSome walk (λ now. (root : AnyRoot)
        → page_at (V.pages store.now) root index ≡ Some page.now
        → AreKnown (V.pages store.now) root (8 * index) found.old.met found.old.kinds sound
        → AreKnown (V.pages store.now) root (8 * (index + 1)) found.new.met found.new.kinds now)) }
    ensures no { result ≡ Ok None → (root : AnyRoot)
        → page_at (V.pages store.now) root index ≡ Some page.now
        → AreKnown (V.pages store.now) root (8 * index) found.old.met found.old.kinds sound
        → IsShaped (V.pages store.now) root → ⊥ }
    ensures refused { IfErr result (λ e. e ≡ VolError.Memory) }
    ensures count { length found.new.met ≡ length found.old.met }
{
    if !is_inode_block(page) {
        return Ok(None);
    }
    let mut are_sound = sound;
    for place in 0..INODES_PER_BLOCK {
        let number = InodeNumber::new(INODES_PER_BLOCK as u64 * index + place as u64);
        let inode = inode_at_place(page, place);
        let Some(now) = walk_inode(alloc, store, found, number, inode, are_sound)? else {
            return Ok(None);
        };
        are_sound = now;
    }
    Ok(Some(are_sound))
}

/// Walks the files of the inodes of a block that there may be, as `walk_block` does.
fn walk_index<V: VRead>(
    alloc: Global,
    store: &V,
    found: &mut Found,
    index: u64,
    page: Option<&Page>,
    sound: bool,
) -> Result<Option<bool>, VolError>
    requires within { (v : ℕ) → IsSome (V.pages store.now v) → v < length found.old.met }
    requires index { index < 2 ^ 60 }
    ensures yes { IfOk result (λ walk. IfSome walk (λ now. (root : AnyRoot)
        → option_copied page.entry ≡ page_at (V.pages store.now) root index
        → AreKnown (V.pages store.now) root (8 * index) found.old.met found.old.kinds sound
        → AreKnown (V.pages store.now) root (8 * (index + 1)) found.new.met found.new.kinds now
        × IsBlockOf (V.pages store.now) root index)) }
    ensures no { result ≡ Ok None → (root : AnyRoot)
        → option_copied page.entry ≡ page_at (V.pages store.now) root index
        → AreKnown (V.pages store.now) root (8 * index) found.old.met found.old.kinds sound
        → IsShaped (V.pages store.now) root → ⊥ }
    ensures refused { IfErr result (λ e. e ≡ VolError.Memory) }
    ensures count { length found.new.met ≡ length found.old.met }
{
    match page {
        Some(page) => {
            let now = walk_block(alloc, store, found, index, page, sound)?;
            Ok(now)
        }
        None => Ok(Some(sound)),
    }
}

/// Walks the files of all inodes, where the file of inodes is walked and so many indices lead up to its last
/// block. It answers whether all inodes are sound, or none where the checkpoint has not its shape. Refused by
/// `Memory` alone.
fn walk_inodes<V: VRead>(
    alloc: Global,
    store: &V,
    found: &mut Found,
    root: &Root,
    count: u64,
) -> Result<Option<bool>, VolError>
    requires within { (v : ℕ) → IsSome (V.pages store.now v) → v < length found.old.met }
    requires count { count < 2 ^ 60 }
    requires known { AreKnown (V.pages store.now) (root_of root.now) 0 found.old.met found.old.kinds true }
    ensures yes { IfOk result (λ walk. IfSome walk (λ sound.
        AreKnown (V.pages store.now) (root_of root.now) (8 * count) found.new.met found.new.kinds sound
        × ((i : ℕ) → i < count → IsBlockOf (V.pages store.now) (root_of root.now) i))) }
    ensures no { result ≡ Ok None → IsShaped (V.pages store.now) (root_of root.now) → ⊥ }
    ensures refused { IfErr result (λ e. e ≡ VolError.Memory) }
    ensures count { length found.new.met ≡ length found.old.met }
{
    let mut cursor = Cursor::new(store, *root);
    let mut sound = true;
    for index in 0..count {
        let page = cursor.page_at(index);
        let Some(now) = walk_index(alloc, store, found, index, page, sound)? else {
            return Ok(None);
        };
        sound = now;
    }
    Ok(Some(sound))
}

/// Walks all files of a checkpoint, given the root of its file of inodes: meets their numbers, and notes the
/// kinds of the inodes. None where the checkpoint has not its shape. Refused by `Memory` alone.
pub(crate) fn walk_checkpoint<V: VRead>(
    alloc: Global,
    store: &V,
    found: &mut Found,
    root: &Root,
) -> Result<Option<Walk>, VolError>
    requires within { (v : ℕ) → IsSome (V.pages store.now v) → v < length found.old.met }
    requires none_met { (v : ℕ) → is_met found.old.met v ≡ false }
    requires none_told { TellsInodes (V.pages store.now) (root_of root.now) 0 found.old.kinds true }
    ensures yes { IfOk result (λ walk. IfSome walk
        (IsWalk (V.pages store.now) (root_of root.now) found.new.met found.new.kinds)) }
    ensures no { result ≡ Ok None → IsShaped (V.pages store.now) (root_of root.now) → ⊥ }
    ensures refused { IfErr result (λ e. e ≡ VolError.Memory) }
    ensures count { length found.new.met ≡ length found.old.met }
{
    let Ok(count) = walk(store, &mut found.met, *root) else {
        return Ok(None);
    };
    match walk_inodes(alloc, store, found, root, count)? {
        Some(sound) => Ok(Some(Walk { count, sound })),
        None => Ok(None),
    }
}
