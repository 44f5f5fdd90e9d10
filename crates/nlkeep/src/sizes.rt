//! Sizes of volumes, as a person says them.
use nl_types::limits::{FEWEST_SEGMENTS, SEGMENT_LIMIT};
use nl_types::{BLOCK_SIZE, decimal};
use std::fmt;

/// How many blocks each segment has. A volume of such segments can have any size up to the greatest.
pub const BLOCKS: u32 = 64;

/// How many bytes a segment has.
pub const SEGMENT_BYTES: u64 = BLOCKS as u64 * BLOCK_SIZE as u64;

/// The fewest and the most segments.
pub const FEWEST: u32 = FEWEST_SEGMENTS;

pub const MOST: u32 = SEGMENT_LIMIT;

/// How many bytes a word such as `8M`, `512K` or `65536` says.
fn bytes_said(word: &str) -> Option<u64> {
    let (digits, unit) = if let Some(digits) = word.strip_suffix('K') {
        (digits, 1024)
    } else if let Some(digits) = word.strip_suffix('M') {
        (digits, 1_048_576)
    } else {
        (word, 1)
    };
    decimal(digits)?.checked_mul(unit)
}

/// A size in bytes, told as a person says it.
#[derive(Clone, Copy)]
pub struct Size(pub u64);

impl fmt::Display for Size {
    fn fmt<W: fmt::Write>(&self, f: &mut fmt::Formatter<W>) -> fmt::Result {
        let Size(bytes) = *self;
        if bytes % 1_048_576 == 0 {
            write!(f, "{}M", bytes / 1_048_576)
        } else {
            write!(f, "{}K", bytes / 1024)
        }
    }
}

/// How many segments a size has, the last one whole; none where that is no size of a volume.
pub fn segments_said(word: &str) -> Option<u32> {
    let segments = bytes_said(word)?.div_ceil(SEGMENT_BYTES);
    let segments = u32::try_from(segments).ok()?;
    if FEWEST <= segments && segments <= MOST {
        Some(segments)
    } else {
        None
    }
}
