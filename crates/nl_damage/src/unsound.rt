//! Inodes of a checkpoint of a damaged image that are no part of a tree.
use crate::pages::ImagePages;
use crate::ruins::is_of;
use crate::searching::{CheckpointFiles, Search, Walked};
use nl_blocktree::{Cursor, Met, get};
use nl_dirs::{Record, records};
use nl_ifile::inode;
use nl_layout::{Inode, InodeKind, Root};
use nl_types::limits::{FILE_LIMIT, FIRST_INODE, INODE_LIMIT, ROOT_INODE};
use nl_types::{BLOCK_SIZE, InodeNumber, Page, VolError, is_name};
use std::alloc::Global;

/// The bytes of a record in front of its name.
const HEAD_SIZE: usize = 6;

/// Looks for an inode that is no sound file or directory.
#[derive(Drop)]
struct Unsound<'a> {
    alloc: Global,
    pages: &'a ImagePages,
    root: Root,
    /// Which inodes the records of directories name so far.
    named: Vec<bool>,
}

/// Whether a number is that of the root, or an ordinary one.
fn is_inode_number(number: InodeNumber) -> bool {
    let number = number.get();
    number == ROOT_INODE || (FIRST_INODE <= number && number < INODE_LIMIT as u64)
}

/// Whether all bytes of a page from one on are zero.
fn has_zeros_from(page: &Page, from: usize) -> bool {
    match page.bytes().as_slice().get(from..) {
        Some(bytes) => bytes.iter().all(|byte| *byte == 0),
        None => true,
    }
}

/// Whether a file has no more bytes than it may have, no block past its end, and zeros behind it.
pub(crate) fn is_sound_file(pages: &ImagePages, inode: &Inode, count: u64) -> bool {
    let (end, rest) = (
        inode.size / BLOCK_SIZE as u64,
        inode.size % BLOCK_SIZE as u64,
    );
    if inode.size > FILE_LIMIT || count > inode.size.div_ceil(BLOCK_SIZE as u64) {
        return false;
    }
    match get(pages, inode.root, end) {
        Some(page) => has_zeros_from(page, rest as usize),
        None => true,
    }
}

fn size_of_all(records: &[Record]) -> usize {
    let mut size: usize = 0;
    for record in records {
        size = size
            .saturating_add(HEAD_SIZE)
            .saturating_add(record.name.len());
    }
    size
}

/// Whether the records of a block may follow others, the last block of which has so many bytes in use: their
/// names are behind the others', and the first one has no room there.
fn follow(block: &[Record], all: &[Record], used: usize) -> bool {
    let Some(first) = block.first() else {
        return false;
    };
    let size = HEAD_SIZE.saturating_add(first.name.len());
    match all.last() {
        Some(last) => {
            last.name.as_slice().cmp(&first.name.as_slice()).is_lt()
                && used.saturating_add(size) > BLOCK_SIZE
        }
        None => true,
    }
}

impl Unsound<'_> {
    /// The records of a directory of so many blocks. None where those aren't blocks of records, as full as
    /// they can be.
    fn records(&self, root: Root, count: u64) -> Result<Option<Vec<Record>>, VolError> {
        let alloc = self.alloc;
        let mut cursor = Cursor::new(self.pages, root);
        let mut all = Vec::new(alloc);
        let mut used = 0;
        for index in 0..count {
            let Some(page) = cursor.page_at(index) else {
                return Ok(None);
            };
            let Some(mut block) = records(alloc, page)? else {
                return Ok(None);
            };
            if !follow(block.as_slice(), all.as_slice(), used) {
                return Ok(None);
            }
            used = size_of_all(block.as_slice());
            all.append(&mut block)?;
        }
        Ok(Some(all))
    }

    /// Notes that an inode is named. False where it was before, or where there is no such number.
    fn note(&mut self, number: InodeNumber) -> bool {
        match self.named.as_mut_slice().get_mut(number.get() as usize) {
            Some(is_named) if !*is_named => {
                *is_named = true;
                true
            }
            _ => false,
        }
    }

    /// Whether a record names an inode of its kind, but not the root, that no other one named.
    fn is_sound_record(&mut self, record: &Record) -> bool {
        if !is_name(record.name.as_slice()) || record.inode.get() == ROOT_INODE {
            return false;
        }
        match inode(self.pages, self.root, record.inode) {
            Some(inode) => is_of(record.kind, &inode) && self.note(record.inode),
            None => false,
        }
    }

    fn is_sound_directory(&mut self, inode: &Inode, count: u64) -> Result<bool, VolError> {
        if inode.size % BLOCK_SIZE as u64 != 0 || inode.size / BLOCK_SIZE as u64 != count {
            return Ok(false);
        }
        let Some(all) = self.records(inode.root, count)? else {
            return Ok(false);
        };
        for record in all.as_slice() {
            if !self.is_sound_record(record) {
                return Ok(false);
            }
        }
        Ok(true)
    }
}

impl Search for Unsound<'_> {
    fn is_in_inode_file(&self, _: &Met) -> bool {
        false
    }

    fn is_in(&mut self, walked: &Walked, _: &Met) -> Result<bool, VolError> {
        let is_root = walked.number.get() == ROOT_INODE;
        let is_sound = match walked.inode.kind {
            InodeKind::File => {
                !is_root && is_sound_file(self.pages, &walked.inode, walked.count)
            }
            InodeKind::Directory => self.is_sound_directory(&walked.inode, walked.count)?,
            InodeKind::InodeFile => false,
        };
        Ok(!is_sound || !is_inode_number(walked.number))
    }
}

/// Looks for an inode beside the root that no record names.
#[derive(Drop)]
struct Unnamed {
    named: Vec<bool>,
}

impl Search for Unnamed {
    fn is_in_inode_file(&self, _: &Met) -> bool {
        false
    }

    fn is_in(&mut self, walked: &Walked, _: &Met) -> Result<bool, VolError> {
        let number = walked.number.get();
        let is_named = self.named.as_slice().get(number as usize) == Some(&true);
        Ok(number != ROOT_INODE && !is_named)
    }
}

impl CheckpointFiles<'_> {
    /// The first inode that is unsound, or else the root where it isn't there, or else the first that no
    /// record names.
    pub(crate) fn unsound_inode(&self) -> Result<Option<InodeNumber>, VolError> {
        let mut search = Unsound {
            alloc: self.alloc,
            pages: self.pages,
            root: self.root,
            named: vec![in self.alloc; false; INODE_LIMIT]?,
        };
        let mut met = self.nothing_met()?;
        let found = self.first(&mut met, &mut search)?;
        if found.is_some() {
            return Ok(found);
        }
        let top = InodeNumber::new(ROOT_INODE);
        if inode(self.pages, self.root, top).is_none() {
            return Ok(Some(top));
        }
        met.clear();
        let Unsound { named, .. } = search;
        let mut search = Unnamed { named };
        self.first(&mut met, &mut search)
    }
}
