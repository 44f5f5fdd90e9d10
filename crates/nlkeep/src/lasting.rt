//! Damage that an image has before it is saved. Its sum goes on to tell it.
//!
//! The image that stands there is read once more, segment by segment, and compared with its sum. A segment
//! that is the same in the image that is to be saved isn't digested again.
use crate::complaining::complain;
use crate::faults::Fault;
use crate::sums::MOST_BYTES;
use nl_damage::sums::{Digest, Save, Sum, read_sum};
use nl_saving::read_file;
use nl_types::{BLOCK_SIZE, Items};
use std::alloc::{AllocError, Global};
use std::fs::File;
use std::io::{ErrorKind, Read};
use std::{fs, io};

/// A segment that had other bytes than the sum says before the image was saved.
#[derive(Clone, Copy)]
struct Damaged {
    segment: u64,
    /// The digest that the sum has of it, where the image still has its bytes.
    stays: Option<Digest>,
}

/// What of an image was damaged before it is saved.
#[derive(Drop)]
pub struct Lasting {
    damaged: Vec<Damaged>,
    /// How many bytes stood in front of the segments, and how many each has.
    front: u64,
    size: u64,
    /// The digest of the whole image that its sum had.
    whole: Option<Digest>,
    /// Why the image wasn't compared with its sum.
    unread: Option<io::Error>,
}

fn bytes_of(segments: u64, blocks: u64) -> Option<u64> {
    segments.checked_mul(blocks)?.checked_mul(BLOCK_SIZE as u64)
}

/// How many bytes stand in front of the segments of an image, and how many each has.
fn division_of(save: &Save) -> Option<(u64, u64)> {
    let all = bytes_of(save.segments, save.blocks)?;
    let front = save.bytes.checked_sub(all)?;
    Some((front, bytes_of(1, save.blocks)?))
}

/// So many bytes of a file.
fn read_part(alloc: Global, file: &mut File, count: u64) -> io::Result<Vec<u8>> {
    let mut bytes = vec![in alloc; 0; usize::try_from(count).unwrap_or(usize::MAX)]?;
    file.read_exact(bytes.as_mut_slice())?;
    Ok(bytes)
}

/// Whether a sum is of the image that a file holds, by its tables. The file stands behind these then.
fn is_of(alloc: Global, file: &mut File, save: &Save, front: u64) -> io::Result<bool> {
    if file.metadata()?.len() != save.bytes {
        return Ok(false);
    }
    let tables = read_part(alloc, file, front)?;
    let digest = Digest::of(tables.as_slice());
    Ok(digest.digits.as_slice() == save.tables.digits.as_slice())
}

/// The bytes of a segment of an image that a sum is of.
fn segment_of<'a>(image: &'a [u8], sum: &Sum, segment: usize) -> &'a [u8] {
    let Some((front, size)) = division_of(&sum.save) else {
        return &[];
    };
    let begin = size.saturating_mul(segment as u64).saturating_add(front);
    let end = begin.saturating_add(size);
    let (Ok(begin), Ok(end)) = (usize::try_from(begin), usize::try_from(end)) else {
        return &[];
    };
    image.get(begin..end).unwrap_or(&[])
}

fn is_zero(block: &[u8]) -> bool {
    block.iter().all(|byte| *byte == 0)
}

/// Whether each block of old bytes that isn't all zero stands in the new ones at its place.
fn has_all(new: &[u8], old: &[u8]) -> bool {
    for (place, block) in old.chunks(BLOCK_SIZE).enumerate() {
        let begin = BLOCK_SIZE.saturating_mul(place);
        let end = begin.saturating_add(block.len());
        if new.get(begin..end) != Some(block) && !is_zero(block) {
            return false;
        }
    }
    true
}

/// An image that is to be saved, beside the sum of the one that stands there.
#[derive(Clone, Copy)]
struct Saving<'a> {
    bytes: &'a [u8],
    sum: &'a Sum,
    old_sum: &'a Sum,
}

impl Saving<'_> {
    /// What is damaged of a segment that has these bytes before.
    fn damaged(&self, segment: usize, old: &[u8]) -> Option<Damaged> {
        let due = self.old_sum.segments.as_slice().get(segment)?;
        let new = segment_of(self.bytes, self.sum, segment);
        let digest = match self.sum.segments.as_slice().get(segment) {
            Some(digest) if new == old => *digest,
            _ => Digest::of(old),
        };
        if digest.digits.as_slice() == due.digits.as_slice() {
            return None;
        }
        let stays = if has_all(new, old) { Some(*due) } else { None };
        Some(Damaged {
            segment: segment as u64,
            stays,
        })
    }
}

impl Lasting {
    /// Nothing was damaged, for all that is known.
    pub fn none(alloc: Global) -> Lasting {
        Lasting {
            damaged: Vec::new(alloc),
            front: 0,
            size: 0,
            whole: None,
            unread: None,
        }
    }

    /// The same, where that couldn't be looked at.
    fn unread(alloc: Global, error: io::Error) -> Lasting {
        let mut lasting = Lasting::none(alloc);
        lasting.unread = Some(error);
        lasting
    }

    /// Compares the image that a file holds with its sum. One of another save isn't compared.
    fn compare(&mut self, alloc: Global, file: &mut File, saving: &Saving<'_>) -> io::Result<()> {
        let save = &saving.old_sum.save;
        let Some((front, size)) = division_of(save) else {
            return Ok(());
        };
        if !is_of(alloc, file, save, front)? {
            return Ok(());
        }
        self.front = front;
        self.size = size;
        self.whole = Some(saving.old_sum.whole);
        for segment in 0..saving.old_sum.segments.len() {
            let old = read_part(alloc, file, size)?;
            if let Some(damaged) = saving.damaged(segment, old.as_slice()) {
                self.damaged.push(damaged)?;
            }
        }
        Ok(())
    }

    fn digest_at(&self, segment: u64) -> Option<Digest> {
        for damaged in &self.damaged {
            if damaged.segment == segment {
                return damaged.stays;
            }
        }
        None
    }

    /// The sum of the image that is saved, with the old line of each damaged segment of which it has the
    /// bytes. Where there is one the old line of the whole image stays too, so that the sum is of no other
    /// image.
    pub fn in_sum(&self, alloc: Global, sum: Sum) -> Result<Sum, AllocError> {
        let mut segments = Items::new(alloc);
        let mut whole = sum.whole;
        for (place, digest) in sum.segments.as_slice().iter().enumerate() {
            let old = self.digest_at(place as u64);
            if let (Some(_), Some(old_whole)) = (old, self.whole) {
                whole = old_whole;
            }
            segments.push(old.unwrap_or(*digest))?;
        }
        Ok(Sum {
            save: sum.save,
            whole,
            segments,
        })
    }

    /// Tells what was damaged. Answers whether nothing was, for all that is known.
    pub fn tell(&self, rt: &HostRuntime, sum: &str) -> bool {
        if let Some(error) = &self.unread {
            complain(
                rt,
                format_args!("left out: {sum}: is not compared with the old image: {error}"),
            );
        }
        for damaged in &self.damaged {
            let segment = damaged.segment;
            let begin = self.size.saturating_mul(segment).saturating_add(self.front);
            let last = begin.saturating_add(self.size).saturating_sub(1);
            complain(
                rt,
                format_args!(
                    "damaged before this save: segment {segment} differs from {sum}: bytes {begin} to {last}"
                ),
            );
        }
        self.unread.is_none() && self.damaged.is_empty()
    }
}

/// The sum that stands at a path, if a regular file with one does.
fn sum_at(rt: &HostRuntime, path: &str) -> io::Result<Option<Sum>> {
    match fs::symlink_metadata(rt, path) {
        Ok(told) if told.is_file() && told.len() <= MOST_BYTES => {}
        Err(error) if error.kind() != ErrorKind::NotFound => return Err(error),
        _ => return Ok(None),
    }
    let Ok(text) = read_file(rt, path.as_bytes()) else {
        return Err(io::Error::from(ErrorKind::Other));
    };
    Ok(read_sum(rt.alloc(), text.as_slice())?)
}

/// The image that stands at a path, compared with its sum.
fn compared(
    rt: &HostRuntime,
    image: &str,
    old_sum: &Sum,
    sum: &Sum,
    bytes: &[u8],
) -> io::Result<Lasting> {
    let alloc = rt.alloc();
    let mut lasting = Lasting::none(alloc);
    match fs::symlink_metadata(rt, image) {
        Ok(told) if told.is_file() => {}
        Err(error) if error.kind() != ErrorKind::NotFound => return Err(error),
        _ => return Ok(lasting),
    }
    let mut file = fs::open(rt, image)?;
    let saving = Saving {
        bytes,
        sum,
        old_sum,
    };
    lasting.compare(alloc, &mut file, &saving)?;
    Ok(lasting)
}

fn looked_at(
    rt: &HostRuntime,
    image: &str,
    sum_path: &str,
    sum: &Sum,
    bytes: &[u8],
) -> io::Result<Lasting> {
    match sum_at(rt, sum_path)? {
        Some(old_sum) => compared(rt, image, &old_sum, sum, bytes),
        None => Ok(Lasting::none(rt.alloc())),
    }
}

/// What is damaged of the image at a path before another one, which a sum is of, is saved there.
pub fn before_save(
    rt: &HostRuntime,
    image: &str,
    sum_path: &str,
    sum: &Sum,
    bytes: &[u8],
) -> Result<Lasting, Fault> {
    match looked_at(rt, image, sum_path, sum, bytes) {
        Ok(lasting) => Ok(lasting),
        Err(error) if error.kind() == ErrorKind::OutOfMemory => Err(Fault::Memory),
        Err(error) => Ok(Lasting::unread(rt.alloc(), error)),
    }
}
