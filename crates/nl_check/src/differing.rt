//! The files whose inodes are not what they were in another checkpoint.
ghost use Rattle.std.specs.Prelude.{◌≡◌, ◌≢◌, ◌<◌, ◌≤◌, ◌-◌, ◌^◌, ℕ, suc, IsTrue, IfOk, IfErr, false, option_copied};
ghost use Rattle.std.specs.Option.{option_and_then};
ghost use Rattle.nl_types.specs.declared.error.VolError;
ghost use Rattle.nl_types.specs.Blocks.Roots.{OfChain, Pages, Root as AnyRoot, Tree as AnyTree, kind_of, page_at, place_at};
ghost use Rattle.nl_layout.specs.Root.{root_of};
ghost use Rattle.nl_files.specs.CheckpointRoots.{inode_root};
ghost use Rattle.nl_ifile.specs.Inodes.{inode_in};
ghost use Rattle.nl_check.specs.Private.ChangedFiles.{AreAllListed, IsOfInodes, ListsAll, ListsBlock, ListsFile, ListsUnder};

use crate::shape::{INODES_PER_BLOCK, inode_at_place, is_inode_block};
use crate::subtrees::{are_one, named, page_under, slot_of, top_beside};
use nl_layout::{Inode, Level, Root, SLOTS};
use nl_types::limits::INODE_LIMIT;
use nl_types::{InodeNumber, Page, VirtualNumber, VolError};
use nl_vstore::VRead;

/// A file or a directory whose inode isn't what it was.
#[derive(Clone, Copy)]
pub(crate) struct ChangedFile {
    /// The number of its inode.
    pub(crate) number: InodeNumber,
    /// Its inode before. None where it came.
    pub(crate) earlier: Option<Inode>,
    /// Its inode now. None where it went.
    pub(crate) later: Option<Inode>,
}

/// The root of the file of an inode. A number that isn't in use has an empty one.
pub(crate) fn root_of_file(inode: &Option<Inode>) -> Root
    ensures { root_of result ≡ inode_root inode.now }
{
    match inode {
        Some(inode) => inode.root,
        None => Root::Empty,
    }
}

/// Whether a root is that of a chain.
fn is_chain(root: Root) -> bool
    ensures { result ≡ false → kind_of (root_of root) ≢ OfChain }
{
    match root {
        Root::Empty => false,
        Root::Chain(_) => true,
        Root::Tree(_, _) => false,
    }
}

/// Whether two inodes that there may be are one.
fn is_same(one: &Option<Inode>, other: &Option<Inode>) -> bool
    ensures { IsTrue result → one.now ≡ other.now }
{
    match (one, other) {
        (None, None) => true,
        (Some(one), Some(other)) => one == other,
        _ => false,
    }
}

/// Lists a file where its inode changed. It answers false where it was a chain, whose blocks aren't walked
/// beside others: no file is written as one. Refused by `Memory` alone.
fn list_file(files: &mut Vec<ChangedFile>, file: ChangedFile) -> Result<bool, VolError>
    ensures yes { IfOk result (λ all. IsTrue all → ListsFile file files.old.items files.new.items) }
    ensures refused { IfErr result (λ e. e ≡ VolError.Memory) }
{
    if is_same(&file.earlier, &file.later) {
        return Ok(true);
    }
    let before = root_of_file(&file.earlier);
    if is_chain(before) {
        return Ok(false);
    }
    files.push(file)?;
    Ok(true)
}

/// The inode in use at a place of a block that there may be.
fn inode_under(page: Option<&Page>, place: usize) -> Option<Inode>
    requires { place < 8 }
    ensures { result ≡ option_and_then (λ bytes. inode_in bytes place) (option_copied page.entry) }
{
    inode_at_place(page?, place)
}

/// Whether a block that there may be is one of inodes.
fn is_of_inodes(page: Option<&Page>) -> bool
    ensures { IsTrue result → IsOfInodes (option_copied page.entry) }
{
    match page {
        Some(page) => is_inode_block(page),
        None => true,
    }
}

/// Lists the files of the inodes that changed in a block, which may come or go. It answers false where it is no
/// block of inodes, its index is that of no inode, or as `list_file` does. Refused by `Memory` alone.
fn list_block(
    files: &mut Vec<ChangedFile>,
    index: u64,
    before: Option<&Page>,
    now: Option<&Page>,
) -> Result<bool, VolError>
    ensures yes { IfOk result (λ all. IsTrue all → (pages : Pages) (old new : AnyRoot)
        → page_at pages old index ≡ option_copied before.entry
        → page_at pages new index ≡ option_copied now.entry
        → ListsBlock pages old new index files.old.items files.new.items) }
    ensures refused { IfErr result (λ e. e ≡ VolError.Memory) }
{
    // So a file of inodes without end, where nodes lead into themselves, is not listed.
    if index >= (INODE_LIMIT / INODES_PER_BLOCK) as u64 {
        return Ok(false);
    }
    if !is_of_inodes(now) {
        return Ok(false);
    }
    for place in 0..INODES_PER_BLOCK {
        let number = InodeNumber::new(INODES_PER_BLOCK as u64 * index + place as u64);
        let file = ChangedFile {
            number,
            earlier: inode_under(before, place),
            later: inode_under(now, place),
        };
        if !list_file(files, file)? {
            return Ok(false);
        }
    }
    Ok(true)
}

/// Lists the files of the inodes that changed in the blocks under two nodes of one place. It answers false as
/// `list_block` does. Refused by `Memory` alone.
fn list_below<V: VRead>(
    store: &V,
    files: &mut Vec<ChangedFile>,
    level: u8,
    offset: u64,
    before: Option<VirtualNumber>,
    now: Option<VirtualNumber>,
) -> Result<bool, VolError>
    requires level { level ≤ 3 }
    requires offset { offset < 128 ^ (3 - level) }
    ensures yes { IfOk result (λ all. IsTrue all → (height top other : ℕ) → level ≤ height
        → place_at (V.pages store.now) (AnyTree height top) level offset ≡ before
        → place_at (V.pages store.now) (AnyTree height other) level offset ≡ now
        → ListsUnder (V.pages store.now) (AnyTree height top) (AnyTree height other) level offset
        (suc offset) files.old.items files.new.items) }
    ensures refused { IfErr result (λ e. e ≡ VolError.Memory) }
{
    if are_one(&before, &now) {
        return Ok(true);
    }
    let page = page_under(store, before);
    let other = page_under(store, now);
    if level == 0 {
        return list_block(files, offset, page, other);
    }
    for slot in 0..SLOTS {
        let below = SLOTS as u64 * offset + slot as u64;
        if !list_below(
            store,
            files,
            level - 1,
            below,
            slot_of(page, slot),
            slot_of(other, slot),
        )? {
            return Ok(false);
        }
    }
    Ok(true)
}

/// Whether a root is a tree of a height.
fn is_tree_of(root: &Root, height: Level) -> bool
    ensures { IsTrue result → (top : ℕ) × (root_of root.now ≡ AnyTree height top) }
{
    match root {
        Root::Empty => false,
        Root::Chain(_) => false,
        Root::Tree(level, _) => *level == height,
    }
}

/// Lists the files whose inodes changed from a tree of inodes to another file of inodes. It answers false
/// where that is no tree of this height, or as `list_block` does. Refused by `Memory` alone.
fn list_tree<V: VRead>(
    store: &V,
    files: &mut Vec<ChangedFile>,
    height: Level,
    top: VirtualNumber,
    now: Root,
) -> Result<bool, VolError>
    ensures yes { IfOk result (λ all. IsTrue all
        → ListsAll (V.pages store.now) (AnyTree height top) (root_of now) files.old.items files.new.items) }
    ensures refused { IfErr result (λ e. e ≡ VolError.Memory) }
{
    if !is_tree_of(&now, height) {
        return Ok(false);
    }
    list_below(
        store,
        files,
        height.get(),
        0,
        named(top),
        top_beside(height, now),
    )
}

/// Lists the files whose inodes changed from one file of inodes to another. It answers false where these are
/// not trees of one height, or as `list_block` does. Refused by `Memory` alone.
pub(crate) fn list_changed<V: VRead>(
    store: &V,
    files: &mut Vec<ChangedFile>,
    before: Root,
    now: Root,
) -> Result<bool, VolError>
    ensures yes { IfOk result (λ all. IsTrue all
        → AreAllListed (V.pages store.now) (root_of before) (root_of now) files.new.items) }
    ensures refused { IfErr result (λ e. e ≡ VolError.Memory) }
{
    files.clear();
    match before {
        Root::Empty => Ok(false),
        Root::Chain(_) => Ok(false),
        Root::Tree(height, top) => list_tree(store, files, height, top, now),
    }
}
