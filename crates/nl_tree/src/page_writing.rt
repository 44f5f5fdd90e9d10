//! The pages that a write makes.
ghost use Rattle.std.specs.Prelude.{◌≡◌, ℕ, ◌+◌, ◌*◌, ◌/◌, ◌<◌, ◌≤◌, IfOk, length, option_copied, slice_index};
ghost use Rattle.nl_types.specs.Plain.Limits as limits;
ghost use Rattle.nl_tree.specs.Contents.{byte_in};
ghost use Rattle.nl_tree.specs.Held.{Holding, held_block};
ghost use Rattle.nl_tree.specs.Bytes.{ArePagesCut, ArePagesWritten, IsPageCut, IsPageWritten, end_of_blocks};

use crate::tree_read::TreeRead;
use nl_types::{BLOCK_SIZE, Block, InodeNumber, Page};
use std::alloc::{AllocError, Global};

const SIZE: u64 = BLOCK_SIZE as u64;

/// The bytes of a block. One that isn't stored has zeros.
#[tactic(auto, using(crate::specs::Facts::PageBytes::zero_at))]
fn bytes_of_block(old: Option<&Page>) -> [u8; BLOCK_SIZE]
    ensures { (k : ℕ) → slice_index result k ≡ byte_in (option_copied old.entry) k }
{
    match old {
        None => [0; BLOCK_SIZE],
        Some(page) => *page.bytes(),
    }
}

/// A page with the bytes of a block, but for some from a place on.
fn overwritten_page(
    alloc: Global,
    old: Option<&Page>,
    within: usize,
    bytes: &[u8],
) -> Result<Page, AllocError>
    requires { within + length bytes.now ≤ 1024 }
    ensures { IfOk result (IsPageWritten (option_copied old.entry) 0 within bytes.now) }
{
    let mut block = bytes_of_block(old);
    block[within..within + bytes.len()].copy_from_slice(bytes);
    Page::new(alloc, Block::new(block))
}

/// The page of a block of a file, once bytes are written at an offset that lie in it.
fn written_page(
    alloc: Global,
    old: Option<&Page>,
    index: u64,
    offset: u64,
    bytes: &[u8],
) -> Result<Page, AllocError>
    requires touched { (offset / 1024 ≤ index) × (index < end_of_blocks offset (length bytes.now)) }
    requires end { offset + length bytes.now ≤ limits.file_limit }
    ensures { IfOk result (IsPageWritten (option_copied old.entry) (1024 * index) offset bytes.now) }
{
    let start = index * SIZE;
    let from = offset.max(start);
    let to = (offset + bytes.len() as u64).min(start + SIZE);
    let part = &bytes[(from - offset) as usize..(to - offset) as usize];
    overwritten_page(alloc, old, (from - start) as usize, part)
}

/// The page of a block of a file, once bytes are written at an offset that lie in it. The old page is asked
/// for only where some of its bytes stay, since a checkpoint's is found by a walk from its file's first node.
fn page_with<T: TreeRead>(
    alloc: Global,
    tree: &T,
    file: InodeNumber,
    index: u64,
    offset: u64,
    bytes: &[u8],
) -> Result<Page, AllocError>
    requires touched { (offset / 1024 ≤ index) × (index < end_of_blocks offset (length bytes.now)) }
    requires end { offset + length bytes.now ≤ limits.file_limit }
    ensures { (held : Holding) → T.holds tree.now held → IfOk result (IsPageWritten
        (held_block (held file) index) (1024 * index) offset bytes.now) }
{
    let start = index * SIZE;
    if offset <= start && start + SIZE <= offset + bytes.len() as u64 {
        written_page(alloc, None, index, offset, bytes)
    } else {
        written_page(alloc, tree.block(file, index), index, offset, bytes)
    }
}

/// The pages of the blocks of a file that bytes at an offset lie in, once they are written.
pub(crate) fn written_pages<T: TreeRead>(
    alloc: Global,
    tree: &T,
    file: InodeNumber,
    offset: u64,
    bytes: &[u8],
) -> Result<Vec<Page>, AllocError>
    requires end { offset + length bytes.now ≤ limits.file_limit }
    ensures count { IfOk result (λ pages.
        offset / 1024 + length pages.items ≡ end_of_blocks offset (length bytes.now)) }
    ensures pages { (held : Holding) → T.holds tree.now held → IfOk result (λ pages.
        ArePagesWritten (held_block (held file)) (offset / 1024) offset bytes.now pages.items) }
{
    let first = offset / SIZE;
    let end = match bytes.len() as u64 {
        0 => first,
        len => (offset + len - 1) / SIZE + 1,
    };
    let mut pages = Vec::new(alloc);
    for index in first..end {
        pages.push(page_with(alloc, tree, file, index, offset, bytes)?)?;
    }
    Ok(pages)
}

/// The page of the block that a size ends in, with zeros behind it, where that block is stored and goes on
/// behind it.
pub(crate) fn cut_pages<T: TreeRead>(
    alloc: Global,
    tree: &T,
    file: InodeNumber,
    size: u64,
) -> Result<Vec<Page>, AllocError>
    requires { size ≤ limits.file_limit }
    ensures { (held : Holding) → T.holds tree.now held → IfOk result (λ pages.
        ArePagesCut (held_block (held file)) size pages.items) }
{
    let mut pages = Vec::new(alloc);
    let within = (size % SIZE) as usize;
    if within > 0 {
        if let Some(page) = tree.block(file, size / SIZE) {
            pages.push(cut_page(alloc, page, within)?)?;
        }
    }
    Ok(pages)
}

/// A page with zeros from a place on.
fn cut_page(alloc: Global, old: &Page, within: usize) -> Result<Page, AllocError>
    requires { within ≤ 1024 }
    ensures { IfOk result (IsPageCut old.now within) }
{
    let mut block = bytes_of_block(Some(old));
    block[within..].fill(0);
    Page::new(alloc, Block::new(block))
}
