//! The path by which names lead to an inode of a damaged image.
ghost use Rattle.std.specs.Prelude.{IfOk, IfSome};
ghost use Rattle.nl_damage.specs.Paths.{AreNames};

use crate::pages::ImagePages;
use crate::places::Place;
use crate::ruins::{is_of, length_of, records_of};
use crate::sections::Sections;
use nl_dirs::Record;
use nl_folders::{Path, with_name};
use nl_ifile::inode;
use nl_layout::Root;
use nl_names::Name;
use nl_types::limits::{INODE_LIMIT, PATH_LENGTH_LIMIT, ROOT_INODE};
use nl_types::{CheckpointNumber, InodeNumber, Items, Kind, VolError, is_name};
use std::alloc::{AllocError, Global};

/// A directory whose names are yet to be followed.
#[derive(Drop)]
struct Pending {
    path: Path,
    number: InodeNumber,
    ghost named: { AreNames path },
}

/// The path of a record of a directory. None where its name can't stand in one.
fn path_below(alloc: Global, path: &[Name], record: &Record) -> Result<Option<Path>, AllocError>
    requires { AreNames path.now }
    ensures { IfOk result (λ below. IfSome below AreNames) }
{
    let name = record.name.as_slice();
    if is_name(name) {
        Ok(Some(with_name(alloc, path, name)?))
    } else {
        Ok(None)
    }
}

/// The names of a checkpoint that are followed.
#[derive(Drop)]
struct Names<'a> {
    alloc: Global,
    pages: &'a ImagePages,
    root: Root,
    /// Which directories were looked at.
    taken: Vec<bool>,
    pending: Vec<Pending>,
}

impl<'a> Names<'a> {
    /// Those of the checkpoint whose file of inodes has this root.
    fn new(alloc: Global, pages: &'a ImagePages, root: Root) -> Result<Names<'a>, AllocError> {
        let mut pending = Vec::new(alloc);
        pending.push(Pending {
            path: Items::new(alloc),
            number: InodeNumber::new(ROOT_INODE),
        })?;
        Ok(Names {
            alloc,
            pages,
            root,
            taken: vec![in alloc; false; INODE_LIMIT]?,
            pending,
        })
    }

    /// Takes a directory that wasn't taken before. False where it was, or where there is no such number.
    fn take(&mut self, number: InodeNumber) -> bool {
        match self.taken.as_mut_slice().get_mut(number.get() as usize) {
            Some(is_taken) if !*is_taken => {
                *is_taken = true;
                true
            }
            _ => false,
        }
    }

    /// The records of a directory, as far as they can be read.
    fn records(&self, number: InodeNumber) -> Result<Vec<Record>, VolError> {
        match inode(self.pages, self.root, number) {
            Some(inode) if is_of(Kind::Directory, &inode) => {
                let (records, _) = records_of(self.alloc, self.pages, &inode)?;
                Ok(records)
            }
            _ => Ok(Vec::new(self.alloc)),
        }
    }

    /// The path of a record that names an inode, among these of a directory. Directories that others name are
    /// put on those that are pending.
    fn find_among(
        &mut self,
        path: &[Name],
        records: &[Record],
        wanted: InodeNumber,
    ) -> Result<Option<Path>, VolError>
        requires { AreNames path.now }
        ensures { IfOk result (λ found. IfSome found AreNames) }
    {
        for record in records {
            let Some(below) = path_below(self.alloc, path, record)? else {
                continue;
            };
            if record.inode == wanted {
                return Ok(Some(below));
            }
            if matches!(record.kind, Kind::Directory) {
                self.pending.push(Pending {
                    path: below,
                    number: record.inode,
                })?;
            }
        }
        Ok(None)
    }

    /// The same of the directory that is next.
    fn find_next(&mut self, next: Pending, wanted: InodeNumber) -> Result<Option<Path>, VolError>
        ensures { IfOk result (λ found. IfSome found AreNames) }
    {
        let Pending { path, number } = next;
        if length_of(path.as_slice()) > PATH_LENGTH_LIMIT || !self.take(number) {
            return Ok(None);
        }
        if number == wanted {
            return Ok(Some(path));
        }
        let records = self.records(number)?;
        self.find_among(path.as_slice(), records.as_slice(), wanted)
    }

    /// A path of an inode. None where no name that can be read leads there.
    fn find(&mut self, wanted: InodeNumber) -> Result<Option<Path>, VolError>
        ensures { IfOk result (λ found. IfSome found AreNames) }
    {
        for _ in 0..INODE_LIMIT {
            let Some(next) = self.pending.pop() else {
                break;
            };
            let found = self.find_next(next, wanted)?;
            if found.is_some() {
                return Ok(found);
            }
        }
        Ok(None)
    }
}

/// The root of the file of inodes of a checkpoint.
fn root_of(sections: &Sections<'_>, checkpoint: CheckpointNumber) -> Option<Root> {
    for place in 0..sections.entries() {
        if let Some(entry) = sections.checkpoint(place) {
            if entry.number == checkpoint {
                return entry.root.root();
            }
        }
    }
    None
}

/// A path of an inode of a checkpoint.
fn path_in(
    alloc: Global,
    image: &[u8],
    checkpoint: CheckpointNumber,
    number: InodeNumber,
) -> Result<Option<Path>, VolError>
    ensures { IfOk result (λ found. IfSome found AreNames) }
{
    let Some(sections) = Sections::of(image) else {
        return Ok(None);
    };
    let Some(root) = root_of(&sections, checkpoint) else {
        return Ok(None);
    };
    let pages = ImagePages::of(alloc, &sections)?;
    let mut names = Names::new(alloc, &pages, root)?;
    names.find(number)
}

/// A path of the inode at which an image fails a condition. None where that isn't an inode, or no name leads
/// there. Refused by want of memory.
pub fn path_of(alloc: Global, image: &[u8], place: &Place) -> Result<Option<Path>, AllocError>
    ensures { IfOk result (λ found. IfSome found AreNames) }
{
    let Place::Tree {
        checkpoint,
        culprit: Some(culprit),
    } = place
    else {
        return Ok(None);
    };
    let Some(number) = culprit.inode() else {
        return Ok(None);
    };
    match path_in(alloc, image, *checkpoint, number) {
        Ok(path) => Ok(path),
        Err(VolError::Memory) => Err(AllocError),
        Err(_) => Ok(None),
    }
}
