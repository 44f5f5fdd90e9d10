//! The changes of blocks that make what an inode became of the checkpoint's one.
ghost use Rattle.std.specs.Prelude.{◌≡◌, ℕ, Some, None, ◌≤◌, ◌-◌, ◌*◌, ◌++◌, ◌∷◌, [], List, length, IfOk, IfErr};
ghost use Rattle.nl_types.specs.Plain.Limits as limits;
ghost use Rattle.nl_dirs.specs.Packing.{Packs};
ghost use Rattle.nl_tree.specs.Became.{MayBecome, Rises};
ghost use Rattle.nl_tree.specs.Overlays.{became_of, new_pages};
ghost use Rattle.nl_tree.specs.Records.{records_of};
ghost use Rattle.nl_tree.specs.Shown.{itself, pair, shown_entries};
ghost use Rattle.nl_files.specs.Private.Planned.{IsPlanned, cursor_after, file_cut, index_of, inode_block_count, inode_size, lesser_of, merged, packed_over, placed, removals};

use nl_blocktree::BlockChange;
use nl_dirs::pack;
use nl_layout::{Inode, InodeKind};
use nl_tree::{Changed, FileBlocks, Listing};
use nl_types::{Block, Page, VolError};
use std::alloc::Global;

/// What an inode is, but for its root.
#[derive(Clone, Copy)]
pub(crate) struct Shape {
    pub(crate) kind: InodeKind,
    /// In bytes.
    pub(crate) size: u64,
}

/// What an inode is to be, none where it goes, and the changes of its blocks.
#[derive(Drop)]
pub(crate) struct Plan {
    pub(crate) shape: Option<Shape>,
    pub(crate) changes: Vec<BlockChange>,
}

/// The changes of blocks that make what an inode became of the checkpoint's one. Refused by `Memory` alone.
pub(crate) fn plan_changes(
    alloc: Global,
    what: &Changed,
    old: &Option<Inode>,
) -> Result<Plan, VolError>
    requires sized { inode_size old.now ≤ limits.size_limit }
    requires change { MayBecome (became_of what.now) }
    ensures planned { IfOk result (IsPlanned old.now (became_of what.now)) }
    ensures range { IfOk result (λ plan. Rises index_of 0 limits.index_limit plan.changes.items) }
    ensures err { IfErr result (λ e. e ≡ VolError.Memory) }
{
    let count = block_count(old);
    match what {
        Changed::Gone => plan_removal(alloc, count),
        Changed::File(file) => plan_file(alloc, file, cut_for(old, file.cut), count),
        Changed::Dir(listing) => plan_directory(alloc, listing, count),
    }
}

/// How many blocks the inode may have.
fn block_count(old: &Option<Inode>) -> u64
    requires { inode_size old.now ≤ limits.size_limit }
    ensures { result ≡ inode_block_count old.now }
{
    match old {
        Some(inode) => (inode.size + 1023) / 1024,
        None => 0,
    }
}

/// Below which index the inode's blocks show in a file: none of a directory's do.
fn cut_for(old: &Option<Inode>, cut: u64) -> u64
    ensures { result ≡ file_cut old.now cut }
{
    match old {
        Some(inode) => match inode.kind {
            InodeKind::File => cut,
            InodeKind::Directory | InodeKind::InodeFile => 0,
        },
        None => 0,
    }
}

fn plan_removal(alloc: Global, count: u64) -> Result<Plan, VolError>
    ensures changes { IfOk result (λ plan. plan.changes.items ≡ removals 0 count) }
    ensures shape { IfOk result (λ plan. plan.shape ≡ None) }
    ensures err { IfErr result (λ e. e ≡ VolError.Memory) }
{
    let mut changes = Vec::new(alloc);
    remove(&mut changes, 0, count)?;
    Ok(Plan {
        shape: None,
        changes,
    })
}

fn plan_file(alloc: Global, file: &FileBlocks, cut: u64, count: u64) -> Result<Plan, VolError>
    ensures changes { IfOk result (λ plan. plan.changes.items ≡ merged cut count (new_pages file.now)) }
    ensures shape { IfOk result (λ plan. plan.shape ≡
        Some (record { kind = InodeKind.File; size = file.now.size })) }
    ensures err { IfErr result (λ e. e ≡ VolError.Memory) }
{
    let changes = file_changes(alloc, file, cut, count)?;
    Ok(Plan {
        shape: Some(Shape {
            kind: InodeKind::File,
            size: file.size,
        }),
        changes,
    })
}

/// The pages of a file, and a removal of each other block from the cut on.
fn file_changes(
    alloc: Global,
    file: &FileBlocks,
    cut: u64,
    count: u64,
) -> Result<Vec<BlockChange>, VolError>
    ensures ok { IfOk result (λ changes. changes.items ≡ merged cut count (new_pages file.now)) }
    ensures err { IfErr result (λ e. e ≡ VolError.Memory) }
{
    let mut changes = Vec::new(alloc);
    let mut next = cut;
    for (index, page) in file.pages.iter() {
        next = put_page(&mut changes, next, count, *index, page)?;
    }
    remove(&mut changes, next, count)?;
    Ok(changes)
}

/// Adds the removals before a page, and the page. Answers from where blocks still go.
fn put_page(
    changes: &mut Vec<BlockChange>,
    next: u64,
    count: u64,
    index: u64,
    page: &Option<Page>,
) -> Result<u64, VolError>
    ensures ok { IfOk result (λ later. (rest : List (ℕ × List ℕ)) →
        changes.new.items ++ merged later count rest ≡ changes.old.items
        ++ merged next count (shown_entries pair itself ((index, page.now) ∷ []) ++ rest)) }
    ensures err { IfErr result (λ e. e ≡ VolError.Memory) }
{
    match page {
        None => Ok(next),
        Some(page) => {
            remove(changes, next, lesser(index, count))?;
            changes.push(BlockChange {
                index,
                page: Some(page.share()?),
            })?;
            Ok(cursor(next, count, index))
        }
    }
}

fn lesser(index: u64, count: u64) -> u64
    ensures { result ≡ lesser_of index count }
{
    if index < count { index } else { count }
}

fn cursor(next: u64, count: u64, index: u64) -> u64
    ensures { result ≡ cursor_after next count index }
{
    if index < next {
        next
    } else if index < count {
        index + 1
    } else {
        index
    }
}

/// Adds a removal of each block from one up to another.
fn remove(changes: &mut Vec<BlockChange>, first: u64, end: u64) -> Result<(), VolError>
    ensures ok { IfOk result (λ _. changes.new.items ≡ changes.old.items ++ removals first (end - first)) }
    ensures err { IfErr result (λ e. e ≡ VolError.Memory) }
{
    for index in first..end {
        changes.push(BlockChange { index, page: None })?;
    }
    Ok(())
}

#[tactic(auto, using(crate::proofs::Planning::few_pages))]
fn plan_directory(alloc: Global, listing: &Listing, count: u64) -> Result<Plan, VolError>
    requires { MayBecome (became_of (Changed.Dir listing.now)) }
    ensures ok { IfOk result (λ plan. (pages : List (List ℕ)) × Packs (records_of listing.now) pages
        × (plan.changes.items ≡ packed_over count pages)
        × (plan.shape ≡ Some (record { kind = InodeKind.Directory; size = 1024 * length pages }))) }
    ensures err { IfErr result (λ e. e ≡ VolError.Memory) }
{
    let records = listing.to_records(alloc)?;
    let pages = pack(alloc, &records)?;
    plan_pages(alloc, pages, count)
}

fn plan_pages(alloc: Global, pages: Vec<Block>, count: u64) -> Result<Plan, VolError>
    requires { length pages.items ≤ limits.index_limit }
    ensures changes { IfOk result (λ plan. plan.changes.items ≡ packed_over count pages.items) }
    ensures shape { IfOk result (λ plan. plan.shape ≡
        Some (record { kind = InodeKind.Directory; size = 1024 * length pages.items })) }
    ensures err { IfErr result (λ e. e ≡ VolError.Memory) }
{
    let length = pages.len() as u64;
    let mut changes = put_pages(alloc, pages)?;
    remove(&mut changes, length, count)?;
    Ok(Plan {
        shape: Some(Shape {
            kind: InodeKind::Directory,
            size: 1024 * length,
        }),
        changes,
    })
}

fn put_pages(alloc: Global, pages: Vec<Block>) -> Result<Vec<BlockChange>, VolError>
    requires { length pages.items ≤ limits.index_limit }
    ensures ok { IfOk result (λ changes. changes.items ≡ placed 0 pages.items) }
    ensures err { IfErr result (λ e. e ≡ VolError.Memory) }
{
    let mut changes = Vec::new(alloc);
    let mut index = 0;
    for page in pages {
        changes.push(BlockChange {
            index,
            page: Some(Page::new(alloc, page)?),
        })?;
        index += 1;
    }
    Ok(changes)
}
