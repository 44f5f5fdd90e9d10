//! Inodes of a checkpoint of a damaged image one after another, in which something is looked for.
use crate::pages::ImagePages;
use nl_blocktree::{Cursor, Met, walk};
use nl_layout::{INODE_SIZE, Inode, InodeEntry, Root};
use nl_types::limits::{INODE_FILE_NUMBER, VOLUME_BLOCK_LIMIT};
use nl_types::{CheckpointNumber, InodeNumber, Page, VolError};
use std::alloc::Global;

/// How many inodes a block has.
const INODES: usize = 8;

/// The file of inodes, which is an inode too.
pub(crate) fn inode_file() -> InodeNumber {
    InodeNumber::new(INODE_FILE_NUMBER)
}

/// An inode in use, whose blocks were met.
#[derive(Clone, Copy)]
pub(crate) struct Walked {
    pub(crate) number: InodeNumber,
    pub(crate) inode: Inode,
    /// How many indices lead up to its last block.
    pub(crate) count: u64,
}

/// What is looked for in the inodes of a checkpoint, while the numbers of their blocks are met.
pub(crate) trait Search {
    /// Whether it is in the file of inodes itself.
    fn is_in_inode_file(&self, met: &Met) -> bool;

    /// Whether it is in an inode.
    fn is_in(&mut self, walked: &Walked, met: &Met) -> Result<bool, VolError>;
}

/// A checkpoint in which something is looked for, by the root of its file of inodes.
#[derive(Clone, Copy)]
pub(crate) struct CheckpointFiles<'a> {
    pub(crate) alloc: Global,
    pub(crate) pages: &'a ImagePages,
    pub(crate) checkpoint: CheckpointNumber,
    pub(crate) root: Root,
}

/// What stands at a place of a block of inodes. None where that is neither an inode nor free.
fn entry_in(page: &Page, place: usize) -> Option<InodeEntry> {
    let start = place.saturating_mul(INODE_SIZE);
    let end = start.saturating_add(INODE_SIZE);
    InodeEntry::read(page.bytes().as_slice().get(start..end)?)
}

/// A table for each number that has a page.
pub(crate) fn nothing_met(alloc: Global, pages: &ImagePages) -> Result<Met, VolError> {
    let last = pages.last();
    if last > u64::from(VOLUME_BLOCK_LIMIT) {
        return Err(VolError::Fault);
    }
    Met::none(alloc, last)
}

/// How many indices lead up to the last block of a file, whose numbers are met. None where it has not its
/// shape, or one of its numbers isn't in use or was met before.
pub(crate) fn count_met(pages: &ImagePages, met: &mut Met, root: Root) -> Option<u64> {
    let count = met.len() as u64;
    if count <= pages.last() || count > u64::from(VOLUME_BLOCK_LIMIT) + 1 {
        return None;
    }
    walk(pages, met, root).ok()
}

impl CheckpointFiles<'_> {
    /// A table for each number that has a page.
    pub(crate) fn nothing_met(&self) -> Result<Met, VolError> {
        nothing_met(self.alloc, self.pages)
    }

    fn walked(&self, met: &mut Met, root: Root) -> Option<u64> {
        count_met(self.pages, met, root)
    }

    /// Whether the search ends with an inode: it is there, or the inode's file can't be met.
    fn ends<S: Search>(
        &self,
        met: &mut Met,
        search: &mut S,
        number: InodeNumber,
        inode: Inode,
    ) -> Result<bool, VolError> {
        match self.walked(met, inode.root) {
            Some(count) => {
                let walked = Walked {
                    number,
                    inode,
                    count,
                };
                search.is_in(&walked, met)
            }
            None => Ok(true),
        }
    }

    /// The first inode of a block with which the search ends. That is the file of inodes where the block has
    /// none in use.
    fn first_in_block<S: Search>(
        &self,
        met: &mut Met,
        search: &mut S,
        index: u64,
        page: &Page,
    ) -> Result<Option<InodeNumber>, VolError> {
        let first = index.saturating_mul(INODES as u64);
        let mut is_used = false;
        for place in 0..INODES {
            let number = InodeNumber::new(first.saturating_add(place as u64));
            match entry_in(page, place) {
                Some(InodeEntry::Free) => {}
                Some(InodeEntry::InUse(inode)) => {
                    is_used = true;
                    if self.ends(met, search, number, inode)? {
                        return Ok(Some(number));
                    }
                }
                None => return Ok(Some(number)),
            }
        }
        Ok(if is_used { None } else { Some(inode_file()) })
    }

    /// The first inode with which a search ends, in ascending order behind the file of inodes.
    pub(crate) fn first<S: Search>(
        &self,
        met: &mut Met,
        search: &mut S,
    ) -> Result<Option<InodeNumber>, VolError> {
        let Some(count) = self.walked(met, self.root) else {
            return Ok(Some(inode_file()));
        };
        if search.is_in_inode_file(met) {
            return Ok(Some(inode_file()));
        }
        let mut cursor = Cursor::new(self.pages, self.root);
        for index in 0..count {
            if let Some(page) = cursor.page_at(index) {
                let found = self.first_in_block(met, search, index, page)?;
                if found.is_some() {
                    return Ok(found);
                }
            }
        }
        Ok(None)
    }
}
