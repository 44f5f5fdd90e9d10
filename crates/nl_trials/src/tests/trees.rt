//! The list of a file's blocks, which nothing else asks for: with ample memory it isn't refused.
use nl_blocktree::{Met, blocks, walk};
use nl_layout::{Level, Root};
use nl_types::{BLOCK_SIZE, Block, Page, Period, VirtualNumber, VolError};
use nl_vstore::VRead;
use std::alloc::{AllocError, Global};

/// Pages of the numbers from 0 on.
#[derive(Drop)]
struct Pages {
    pages: Vec<Page>,
}

impl VRead for Pages {
    ghost use Rattle.std.specs.Prelude.{None, slice_get};

    ghost pages = { λ p. λ v. slice_get p.pages.items v };

    ghost periods = { λ p. λ v. None };

    fn page(&self, number: VirtualNumber) -> Option<&Page> {
        self.pages.get(number.get() as usize)
    }

    fn period(&self, _number: VirtualNumber) -> Option<Period> {
        None
    }
}

/// A page whose first byte is this, and all others 0.
fn page(alloc: Global, first: u8) -> Result<Page, AllocError> {
    let mut bytes = [0; BLOCK_SIZE];
    bytes[0] = first;
    Page::new(alloc, Block::new(bytes))
}

/// The page of number 1 is data, and that of number 2 a node whose first slot names number 1.
fn three_pages(alloc: Global) -> Result<Pages, AllocError> {
    let mut pages = Vec::new(alloc);
    for first in [0, 0, 1] {
        pages.push(page(alloc, first)?)?;
    }
    Ok(Pages { pages })
}

/// How many blocks a file has, data and nodes; none where something is wrong with it.
fn block_count(alloc: Global, store: &Pages, root: Root) -> Result<Option<usize>, VolError> {
    let count = store.pages.len() as u64;
    if count > 3 {
        return Ok(None);
    }
    let mut met = Met::none(alloc, count)?;
    match walk(store, &mut met, root) {
        Ok(count) => {
            let blocks = blocks(alloc, store, &root, count)?;
            Ok(Some(blocks.len()))
        }
        Err(_) => Ok(None),
    }
}

/// Whether a tree of one node over one block of data has these two blocks.
pub(crate) fn all_blocks_of_a_file_are_listed(alloc: Global) -> Result<bool, VolError> {
    let store = three_pages(alloc)?;
    let root = Root::Tree(Level::new(1), VirtualNumber::new(2));
    Ok(block_count(alloc, &store, root)? == Some(2))
}
