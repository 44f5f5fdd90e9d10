//! Blocks of a file that are taken out of a state: their pages are shared there, and their bytes are copied
//! once it is left.
ghost use Rattle.std.specs.Prelude.{◌≡◌, ◌+◌, ◌/◌, ◌%◌, ◌<◌, ◌≤◌, ◌^◌, IfOk, length, map};
ghost use Rattle.std.specs.List.{range_with_len};
ghost use Rattle.nl_tree.specs.Held.{Holding, held_block};
ghost use Rattle.nl_tree.specs.Reading.{AreBytesFrom};
ghost use Rattle.nl_mounts.specs.Taking.{AreTaken, blocks_of};

use arrayvec::ArrayVec;
use nl_tree::TreeRead;
use nl_types::{BLOCK_SIZE, InodeNumber, Page};
use std::alloc::AllocError;
use std::marker::Model;

/// How many bytes are taken at once: 64 KiB.
pub(crate) const MOST_TAKEN: usize = 1 << 16;

/// How many blocks these lie in, where they begin amid one.
const MOST_BLOCKS: usize = 65;

type Pages = ArrayVec<Option<Page>, MOST_BLOCKS>;

/// Bytes of a file, in the pages of blocks that follow one another. A block that isn't stored has none.
#[derive(Drop)]
pub(crate) struct TakenBytes {
    pages: Pages,
    /// Where they begin in the first of these.
    start: usize,
    count: usize,
}

impl Model for TakenBytes {
    ghost use Rattle.std.specs.Prelude.{◌+◌, ◌<◌};
    ghost use Rattle.nl_mounts.specs.Taking.{TakenView};

    ghost Value = { TakenView };

    ghost view = { λ t. record { pages = t.pages.items; start = t.start; count = t.count } };

    ghost invariant = { λ t. t.start + t.count < 131072 };
}

/// One more owner of the page of a file's block, where it is stored. Refused where a page's count of owners
/// is full.
fn share_block<T: TreeRead>(
    tree: &T,
    inode: InodeNumber,
    index: u64,
) -> Result<Option<Page>, AllocError>
    ensures { IfOk result (λ page. (held : Holding) → T.holds tree.now held
        → page ≡ held_block (held inode) index) }
{
    match tree.block(inode, index) {
        None => Ok(None),
        Some(page) => {
            let shared = page.share()?;
            Ok(Some(shared))
        }
    }
}

/// Shares the pages of so many blocks of a file. Refused where a page's count of owners is full.
fn share_blocks<T: TreeRead>(
    tree: &T,
    inode: InodeNumber,
    first: u64,
    count: usize,
) -> Result<Pages, AllocError>
    requires most { count ≤ 65 }
    requires fits { first + count < 2 ^ 64 }
    ensures pages { IfOk result (λ pages. (held : Holding) → T.holds tree.now held
        → pages.items ≡ map (held_block (held inode)) (range_with_len first count)) }
    ensures all { IfOk result (λ pages. length pages.items ≡ count) }
{
    let mut pages = ArrayVec::new();
    for index in first..first + count as u64 {
        let page = share_block(tree, inode, index)?;
        pages.push(page);
    }
    Ok(pages)
}

impl TakenBytes {
    /// Takes the bytes of a file from an offset on, as many as there are up to a length. Refused where a page's
    /// count of owners is full.
    pub(crate) fn of_file<T: TreeRead>(
        tree: &T,
        inode: InodeNumber,
        offset: u64,
        len: usize,
    ) -> Result<Self, AllocError>
        requires { len ≤ 65536 }
        ensures taken { (held : Holding) → T.holds tree.now held
            → IfOk result (AreTaken (held inode) offset len) }
        ensures within { IfOk result (λ taken. taken.count ≤ len) }
        ensures end { IfOk result (λ taken. offset + taken.count < 2 ^ 64) }
    {
        let left = tree.size(inode).saturating_sub(offset);
        let count = len.min(left as usize);
        let start = (offset % BLOCK_SIZE as u64) as usize;
        let blocks = (start + count).div_ceil(BLOCK_SIZE);
        let pages = share_blocks(tree, inode, offset / BLOCK_SIZE as u64, blocks)?;
        Ok(TakenBytes {
            pages,
            start,
            count,
        })
    }

    /// Copies bytes of one block from a place among those that were taken on.
    fn copy_block(&self, from: usize, into: &mut [u8])
        requires within { from + length into.old ≤ self.now.count }
        requires block { (self.now.start + from) % 1024 + length into.old ≤ 1024 }
        ensures { AreBytesFrom (blocks_of self.now.pages) (self.now.start + from) into.new }
    {
        let position = self.start + from;
        match self.pages.get(position / BLOCK_SIZE) {
            Some(Some(page)) => {
                let start = position % BLOCK_SIZE;
                into.copy_from_slice(&page.bytes()[start..start + into.len()]);
            }
            _ => into.fill(0),
        }
    }

    /// How many bytes were taken.
    pub(crate) fn count(&self) -> usize
        ensures { result ≡ self.now.count }
    {
        self.count
    }

    /// Copies them into a slice of that length.
    pub(crate) fn copy_into(&self, into: &mut [u8])
        requires { length into.old ≡ self.now.count }
        ensures { AreBytesFrom (blocks_of self.now.pages) self.now.start into.new }
    {
        let len = into.len();
        let mut done = 0;
        while done < len {
            let block_end = done + (BLOCK_SIZE - (self.start + done) % BLOCK_SIZE);
            let end = block_end.min(len);
            self.copy_block(done, &mut into[done..end]);
            done = end;
        }
    }
}
