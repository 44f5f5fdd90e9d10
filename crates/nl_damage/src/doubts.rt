//! What can be read of a damaged image and isn't to be trusted: numbers whose blocks logs name otherwise, or that
//! share one, and sizes that blocks don't bear out.
use crate::pages::{ImagePages, block_of};
use crate::ruins::{is_before, is_of, length_of, records_of};
use crate::searching::{count_met, nothing_met};
use crate::sections::Sections;
use crate::unsound::is_sound_file;
use nl_blocktree::Met;
use nl_dirs::Record;
use nl_folders::{Path, copied, with_name};
use nl_ifile::inode;
use nl_layout::{CheckpointEntry, Inode, Root, Summary};
use nl_names::Name;
use nl_types::limits::{FILE_LIMIT, INODE_LIMIT, PATH_LENGTH_LIMIT, ROOT_INODE};
use nl_types::{BLOCK_SIZE, InodeNumber, Items, Kind, VirtualNumber, VolError, is_name};
use std::alloc::{AllocError, Global};
use std::fmt;

/// Why what was read isn't to be trusted.
#[derive(Clone, Copy)]
pub enum Doubt {
    /// A log names a block of it as another one's, or two numbers have that block.
    Number,
    /// Its blocks don't reach its end, or go past it.
    Size,
}

impl fmt::Display for Doubt {
    fn fmt<W: fmt::Write>(&self, f: &mut fmt::Formatter<W>) -> fmt::Result {
        f.write_str(match self {
            Doubt::Number => "has a block that may be of another file",
            Doubt::Size => "has a size that its blocks do not bear out",
        })
    }
}

// ---- what logs name

/// What the logs of an image tell of a block.
#[derive(Clone, Copy)]
enum Named {
    /// They can't be read.
    Unknown,
    /// It is none of a number.
    Nothing,
    /// It is the block of this number.
    By(VirtualNumber),
}

fn set_named(named: &mut [Named], block: usize, what: Named) {
    if let Some(place) = named.get_mut(block) {
        *place = what;
    }
}

/// Notes what the log at a block names, which ends before another block. Answers where the next one begins. None
/// where there is no whole log.
fn note_log(sections: &Sections<'_>, at: usize, end: usize, named: &mut [Named]) -> Option<usize> {
    let summary = Summary::read(sections.block(at)?)?;
    let tags = summary.tags();
    let next = at.saturating_add(1).saturating_add(tags.len());
    if next > end {
        return None;
    }
    set_named(named, at, Named::Nothing);
    for (place, tag) in tags.iter().enumerate() {
        let block = at.saturating_add(1).saturating_add(place);
        set_named(named, block, Named::By(tag.number));
    }
    Some(next)
}

/// Notes what the logs of a segment name. Answers the block behind the last one that can be read.
fn note_logs(sections: &Sections<'_>, first: usize, end: usize, named: &mut [Named]) -> usize {
    let mut at = first;
    for _ in first..end {
        if at >= end {
            break;
        }
        match note_log(sections, at, end, named) {
            Some(next) => at = next,
            None => break,
        }
    }
    at
}

/// Notes that blocks are none of a number, where the first one is zero: no log follows.
fn note_rest(sections: &Sections<'_>, first: usize, end: usize, named: &mut [Named]) {
    let Some(block) = sections.block(first) else {
        return;
    };
    if block.iter().all(|byte| *byte == 0) {
        for block in first..end {
            set_named(named, block, Named::Nothing);
        }
    }
}

/// What the logs of an image tell of its blocks.
fn all_named(alloc: Global, sections: &Sections<'_>) -> Result<Vec<Named>, AllocError> {
    let mut named = vec![in alloc; Named::Unknown; sections.geometry.total() as usize]?;
    let size = sections.geometry.blocks as usize;
    for segment in 0..sections.geometry.segments {
        let first = (segment as usize).saturating_mul(size);
        let end = first.saturating_add(size);
        let rest = note_logs(sections, first, end, named.as_mut_slice());
        note_rest(sections, rest, end, named.as_mut_slice());
    }
    Ok(named)
}

// ---- numbers

/// Which blocks two numbers have.
fn shared(alloc: Global, sections: &Sections<'_>, count: usize) -> Result<Vec<bool>, AllocError> {
    let total = sections.geometry.total() as usize;
    let mut is_taken = vec![in alloc; false; total]?;
    let mut is_shared = vec![in alloc; false; total]?;
    for number in 0..count {
        if let Some(block) = block_of(sections, number) {
            if let Some(is_taken) = is_taken.as_mut_slice().get_mut(block) {
                if let Some(place) = is_shared.as_mut_slice().get_mut(block) {
                    *place = *is_taken || *place;
                }
                *is_taken = true;
            }
        }
    }
    Ok(is_shared)
}

/// Whether a number is doubtful that has a block of which this is known.
fn is_doubtful(number: usize, named: Option<&Named>, is_shared: Option<&bool>) -> bool {
    match named {
        Some(Named::By(name)) => name.get() != number as u64,
        Some(Named::Unknown) => is_shared == Some(&true),
        Some(Named::Nothing) => true,
        None => false,
    }
}

/// Which numbers up to a count are doubtful.
fn doubtful(alloc: Global, sections: &Sections<'_>, count: usize) -> Result<Vec<bool>, AllocError> {
    let named = all_named(alloc, sections)?;
    let is_shared = shared(alloc, sections, count)?;
    let mut all = Vec::with_capacity(alloc, count)?;
    for number in 0..count {
        all.push(match block_of(sections, number) {
            Some(block) => is_doubtful(
                number,
                named.as_slice().get(block),
                is_shared.as_slice().get(block),
            ),
            None => false,
        })?;
    }
    Ok(all)
}

/// The numbers of an image that aren't doubtful.
#[derive(Drop)]
pub struct Doubts {
    trusted: ImagePages,
}

impl Doubts {
    /// Those of an image with these pages. Refused by want of memory.
    pub fn of(
        alloc: Global,
        sections: &Sections<'_>,
        pages: &ImagePages,
    ) -> Result<Doubts, AllocError> {
        let count = (pages.last() as usize).saturating_add(1);
        let doubtful = doubtful(alloc, sections, count)?;
        Ok(Doubts {
            trusted: pages.without(alloc, doubtful.as_slice())?,
        })
    }

    /// What of a checkpoint can be read and isn't to be trusted, by the paths, ascending: files and directories;
    /// the root stands for the file of inodes too.
    ///
    /// # Errors
    /// `Memory`, or `Fault` where the pages are of more numbers than a volume has.
    pub fn in_checkpoint(
        &self,
        alloc: Global,
        pages: &ImagePages,
        entry: &CheckpointEntry,
    ) -> Result<Vec<(Path, Doubt)>, VolError> {
        match entry.root.root() {
            Some(root) => Looking::through(alloc, pages, &self.trusted, root),
            None => Ok(Vec::new(alloc)),
        }
    }
}

// ---- the walk by names

/// What a name leads to that is yet to be looked at.
#[derive(Drop)]
struct Pending {
    path: Path,
    number: InodeNumber,
    kind: Kind,
}

/// A walk by the names of a checkpoint.
#[derive(Drop)]
struct Looking<'a> {
    alloc: Global,
    pages: &'a ImagePages,
    /// Those of the numbers alone that aren't doubtful.
    trusted: &'a ImagePages,
    root: Root,
    met: Met,
    trusted_met: Met,
    taken: Vec<bool>,
    pending: Vec<Pending>,
    found: Vec<(Path, Doubt)>,
}

/// How many indices lead up to the last block of a file. None where its blocks can't all be read.
fn count_of(pages: &ImagePages, met: &mut Met, root: &Root) -> Option<u64> {
    match count_met(pages, met, *root) {
        Some(count) => Some(count),
        // One that others have too can be read.
        None => {
            met.clear();
            count_met(pages, met, *root)
        }
    }
}

impl<'a> Looking<'a> {
    fn new(
        alloc: Global,
        pages: &'a ImagePages,
        trusted: &'a ImagePages,
        root: Root,
    ) -> Result<Looking<'a>, VolError> {
        let mut pending = Vec::new(alloc);
        pending.push(Pending {
            path: Items::new(alloc),
            number: InodeNumber::new(ROOT_INODE),
            kind: Kind::Directory,
        })?;
        Ok(Looking {
            alloc,
            pages,
            trusted,
            root,
            met: nothing_met(alloc, pages)?,
            trusted_met: nothing_met(alloc, trusted)?,
            taken: vec![in alloc; false; INODE_LIMIT]?,
            pending,
            found: Vec::new(alloc),
        })
    }

    fn through(
        alloc: Global,
        pages: &'a ImagePages,
        trusted: &'a ImagePages,
        root: Root,
    ) -> Result<Vec<(Path, Doubt)>, VolError> {
        let mut looking = Looking::new(alloc, pages, trusted, root)?;
        looking.look_at_inodes()?;
        for _ in 0..INODE_LIMIT {
            let Some(next) = looking.pending.pop() else {
                break;
            };
            looking.visit(next)?;
        }
        Ok(looking.found)
    }

    /// Looks at the file of inodes itself.
    fn look_at_inodes(&mut self) -> Result<(), AllocError> {
        let root = self.root;
        if self.is_untrusted(&root) {
            self.found.push((Items::new(self.alloc), Doubt::Number))?;
        }
        Ok(())
    }

    /// Whether the blocks of a file can all be read, but not by the numbers alone that aren't doubtful.
    fn is_untrusted(&mut self, root: &Root) -> bool {
        count_of(self.pages, &mut self.met, root).is_some()
            && count_of(self.trusted, &mut self.trusted_met, root).is_none()
    }

    /// Takes an inode that wasn't taken before. False where it was, or where there is no such number.
    fn take(&mut self, number: InodeNumber) -> bool {
        match self.taken.as_mut_slice().get_mut(number.get() as usize) {
            Some(is_taken) if !*is_taken => {
                *is_taken = true;
                true
            }
            _ => false,
        }
    }

    /// Why an inode isn't to be trusted, if it isn't. None too of one that can't be read.
    fn doubt(&mut self, inode: &Inode, kind: Kind) -> Option<Doubt> {
        let count = count_of(self.pages, &mut self.met, &inode.root)?;
        if count_of(self.trusted, &mut self.trusted_met, &inode.root).is_none() {
            return Some(Doubt::Number);
        }
        let is_due = count == inode.size.div_ceil(BLOCK_SIZE as u64);
        match kind {
            Kind::File if inode.size > FILE_LIMIT => None,
            Kind::File if is_due && is_sound_file(self.pages, inode, count) => None,
            Kind::File => Some(Doubt::Size),
            Kind::Directory => None,
        }
    }

    /// Looks at what a name leads to.
    fn visit(&mut self, next: Pending) -> Result<(), VolError> {
        let Pending { path, number, kind } = next;
        if length_of(path.as_slice()) > PATH_LENGTH_LIMIT || !self.take(number) {
            return Ok(());
        }
        let Some(inode) = inode(self.pages, self.root, number) else {
            return Ok(());
        };
        if !is_of(kind, &inode) {
            return Ok(());
        }
        if let Some(doubt) = self.doubt(&inode, kind) {
            self.note(path.as_slice(), doubt)?;
        }
        match kind {
            Kind::File => Ok(()),
            Kind::Directory => self.add_directory(path.as_slice(), &inode),
        }
    }

    /// Notes why what a path leads to isn't to be trusted.
    fn note(&mut self, path: &[Name], doubt: Doubt) -> Result<(), AllocError> {
        let path = copied(self.alloc, path)?;
        self.found.push((path, doubt))?;
        Ok(())
    }

    fn add_directory(&mut self, path: &[Name], inode: &Inode) -> Result<(), VolError> {
        let (records, _) = records_of(self.alloc, self.pages, inode)?;
        self.add_names(path, records.as_slice())?;
        Ok(())
    }

    /// Puts what the names of a directory lead to on those that are pending, the first name on top.
    fn add_names(&mut self, path: &[Name], records: &[Record]) -> Result<(), AllocError> {
        let mut later: Option<&Record> = None;
        for record in records.iter().rev() {
            if is_name(record.name.as_slice()) && is_before(record, later) {
                self.pending.push(Pending {
                    path: with_name(self.alloc, path, record.name.as_slice())?,
                    number: record.inode,
                    kind: record.kind,
                })?;
                later = Some(record);
            }
        }
        Ok(())
    }
}
