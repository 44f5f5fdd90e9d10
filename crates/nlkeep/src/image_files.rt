//! The file of an image: what it has to be, and how much of it is read.
ghost use Rattle.std.specs.Prelude.{◌≡◌, IfSome};
ghost use Rattle.nl_image.specs.Conditions.{MeetsFirst};
ghost use Rattle.nl_image.specs.Parts.{Parts, image_length};
ghost use Rattle.nl_damage.specs.Sections.{mended_superblock};

use crate::faults::{Fault, fault_at, volume_fault};
use crate::own_files::unread_image;
use nl_damage::Sections;
use nl_saving::{FileFault, FirstBytes, Reach, read_within};
use nl_types::BLOCK_SIZE;
use std::fs;
use std::fs::FileType;
use std::os::unix::fs::FileTypeExt;
use std::rt::Files;

/// No file is longer: its length is a number of 64 bits with a sign.
const MOST_LENGTH: u64 = u64::MAX / 2;

/// What is read of the file of an image, by what is done with it.
#[derive(Clone, Copy)]
pub enum Purpose {
    /// It is opened: of a file that hasn't the length of an image no more is read than its first block, which
    /// fails the same condition.
    Opening,
    /// It is judged: of a longer file a byte too much is read.
    Judging,
    /// As much of it is rescued as can be. Its superblock may be damaged but for the counts.
    Rescuing,
}

/// How long the image is that begins so. None where no image does, or no file is so long.
fn due_length(first: &[u8]) -> Option<u64>
    ensures { IfSome result (λ due. (p : Parts) × MeetsFirst 2 first.now p × (due ≡ image_length p.shape)) }
{
    let sections = Sections::of(first)?;
    let due = sections.places.end as u64;
    if due <= MOST_LENGTH { Some(due) } else { None }
}

/// The same by the counts of a superblock, whatever else stands in it.
fn mended_length(first: &[u8]) -> Option<u64>
    ensures { IfSome result (λ due. due ≡ image_length (mended_superblock first.now)) }
{
    let sections = Sections::mended(first)?;
    let due = sections.places.end as u64;
    if due <= MOST_LENGTH { Some(due) } else { None }
}

impl Purpose {
    /// How long the file has to be that begins so. None where that isn't told.
    fn due(self, first: &[u8]) -> Option<u64> {
        match self {
            Purpose::Opening | Purpose::Judging => due_length(first),
            Purpose::Rescuing => mended_length(first),
        }
    }

    /// Whether a file of this length is refused whatever else it has.
    fn is_refused(self, due: u64, length: Option<u64>) -> bool {
        match (self, length) {
            (Purpose::Opening, Some(length)) => length != due,
            _ => false,
        }
    }
}

impl Reach for Purpose {
    fn more(&self, first: &[u8], length: Option<u64>) -> u64 {
        match self.due(first) {
            Some(due) if !self.is_refused(due, length) => {
                due.saturating_sub(first.len() as u64).saturating_add(1)
            }
            _ => 0,
        }
    }
}

/// What is said of what is no regular file.
fn said_of(kind: FileType) -> &'static str {
    if kind.is_dir() {
        "is a folder and no regular file"
    } else if kind.is_fifo() {
        "is a pipe and no regular file"
    } else if kind.is_socket() {
        "is a socket and no regular file"
    } else {
        "is a device and no regular file"
    }
}

/// What is said of what stands at a path, or where its links lead to, if that is no regular file. None too
/// where it can't be looked at.
pub fn irregular<R: Files>(files: &R, path: &str) -> Option<&'static str> {
    match fs::metadata(files, path) {
        Ok(told) if !told.is_file() => Some(said_of(told.file_type())),
        _ => None,
    }
}

/// What is to be read of the file of an image, and how long that is. What is no regular file is refused
/// before it is opened, since a pipe would be awaited and a device may have no end.
pub fn read_for<R: AllocGlobal + Files>(
    rt: &R,
    path: &str,
    purpose: Purpose,
) -> Result<FirstBytes, Fault> {
    let alloc = rt.alloc();
    if let Some(said) = irregular(rt, path) {
        return Err(fault_at(alloc, path, said));
    }
    match read_within(rt, path.as_bytes(), BLOCK_SIZE as u64, &purpose) {
        Ok(read) => Ok(read),
        Err(FileFault::Unread) => Err(unread_image(rt, path)),
        Err(FileFault::Refused(error)) => Err(volume_fault(alloc, path, error)),
    }
}
