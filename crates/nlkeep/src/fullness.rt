//! That a volume has no room for a tree, with what is known of both.
use crate::df::needed_bytes;
use crate::faults::Fault;
use crate::sizes::{MOST, SEGMENT_BYTES, Size};
use crate::views::View;
use nl_folders::{Path, all_differences, find_in};
use nl_types::{BLOCK_SIZE, Object};
use std::alloc::{AllocError, Global};

/// The greatest size of a volume.
const GREATEST: u64 = MOST as u64 * SEGMENT_BYTES;

/// The first block of these bytes, and the rest. The last block may be shorter, and behind it is none.
fn split_block(bytes: &[u8]) -> (&[u8], &[u8]) {
    bytes.split_at(BLOCK_SIZE.min(bytes.len()))
}

/// How many bytes the blocks of these bytes have that don't stand in the old ones at their place.
fn other_bytes(old: &[u8], new: &[u8]) -> u64 {
    let mut old = old;
    let mut count: u64 = 0;
    for block in new.chunks(BLOCK_SIZE) {
        let (before, rest) = split_block(old);
        if before != block {
            count = count.saturating_add(BLOCK_SIZE as u64);
        }
        old = rest;
    }
    count
}

fn bytes_between(old: Option<&Object>, new: Option<&Object>) -> u64 {
    match (old, new) {
        (Some(Object::File(old)), Some(Object::File(new))) => {
            other_bytes(old.as_slice(), new.as_slice())
        }
        (_, Some(Object::File(new))) => other_bytes(&[], new.as_slice()),
        _ => 0,
    }
}

/// How many bytes the blocks of files have that make a tree another.
fn new_bytes(
    alloc: Global,
    old: &[(Path, Object)],
    new: &[(Path, Object)],
) -> Result<u64, AllocError> {
    let differences = all_differences(alloc, old, new)?;
    let mut bytes: u64 = 0;
    for (path, _) in differences.as_slice() {
        let path = path.as_slice();
        bytes = bytes.saturating_add(bytes_between(find_in(old, path), find_in(new, path)));
    }
    Ok(bytes)
}

/// How great a volume can become that may have so many bytes.
fn greatest_size(view: &View<'_>, most: u64) -> u64 {
    let table = view.pen().segments();
    let segments = table.sustat().segments as u64;
    let present = segments
        .saturating_mul(u64::from(table.blocks()))
        .saturating_mul(BLOCK_SIZE as u64);
    present.max(most)
}

/// What gives room in a volume that can become so great.
fn help_for(size: u64) -> &'static str {
    if size < GREATEST {
        "`forget`, `prune`, a larger --max, or a backup with --exclude"
    } else {
        "`forget`, `prune`, or a backup with --exclude"
    }
}

fn full_text(
    alloc: Global,
    path: &str,
    image: &[u8],
    wanted: &[(Path, Object)],
    most: u64,
) -> Result<String, Fault> {
    let view = View::silent(alloc, path, image)?;
    let earlier = view.present_tree(alloc)?;
    let written = new_bytes(alloc, earlier.as_slice(), wanted)?;
    let size = greatest_size(&view, most);
    let left = size.saturating_sub(needed_bytes(alloc, path, view.pen())?);
    let (size, help) = (Size(size), help_for(size));
    Ok(format!(in alloc;
        "{path}: is full: {written} bytes are new in blocks of files, and a volume of {size} has at most \
         {left} beside what its checkpoints need, for these, folders, inodes and summaries. Room comes by {help}"
    )?)
}

/// That the volume of an image, which may become so great, has no room for a tree: how many bytes that needs,
/// how many there are, and what gives more. `path` is where the image stands.
pub fn full_fault(
    alloc: Global,
    path: &str,
    image: &[u8],
    wanted: &[(Path, Object)],
    most: u64,
) -> Fault {
    match full_text(alloc, path, image, wanted, most) {
        Ok(text) => Fault::Told(text),
        Err(fault) => fault,
    }
}
