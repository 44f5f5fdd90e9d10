//! Where a damaged image fails a condition, as far as what it has tells.
ghost use Rattle.std.specs.Prelude.{◌≡◌, ◌<◌, ◌≤◌, ◌*◌, ℕ, IfOk, length};
ghost use Rattle.nl_types.specs.Blocks.Segments.{total_blocks};
ghost use Rattle.nl_check.specs.ImageConditions.{number_of};
ghost use Rattle.nl_check.specs.declared.conditions.ImageCondition.TheVariants as conditions;
ghost use Rattle.nl_image.specs.Parts.{Parts};
ghost use Rattle.nl_damage.specs.Places.{HasOtherLength, length_told, mark_told};
ghost use Rattle.nl_damage.specs.Sections.{HasTooMany};

use crate::culprits::{Culprit, culprit_of};
use crate::pages::{ImagePages, holds_by, judge_by};
use crate::sections::{NUMBER_SIZE, Sections};
use nl_check::ImageCondition;
use nl_cpfile::read_checkpoints;
use nl_dat::{DatEntry, read_numbers};
use nl_layout::{CHECKPOINT_SIZE, CheckpointEntry, SEGMENT_SIZE, Summary};
use nl_sufile::SegTable;
use nl_types::{
    BLOCK_SIZE, BlockNumber, CheckpointNumber, Geometry, Items, Segment, VirtualNumber, VolError,
};
use std::alloc::{AllocError, Global};
use std::fmt;

/// Where an image fails a condition.
#[derive(Clone, Copy)]
pub enum Place {
    /// It has another count of bytes than its parts.
    Length {
        bytes: u64,
        parts: u64,
    },
    /// At this byte of the superblock.
    Superblock(u64),
    /// In the entry at this byte, of a segment.
    Segment {
        byte: u64,
        segment: u64,
    },
    /// The same of a virtual block number.
    Number {
        byte: u64,
        number: u64,
    },
    /// The same of a checkpoint, by its place in the table.
    Entry {
        byte: u64,
        place: u64,
    },
    /// At this byte of a block.
    Block {
        byte: u64,
        segment: u64,
        block: u64,
    },
    /// In the tree of this checkpoint, and what of it fails, where that is found.
    Tree {
        checkpoint: CheckpointNumber,
        culprit: Option<Culprit>,
    },
    /// At this byte of the padding.
    Padding(u64),
}

impl fmt::Display for Place {
    fn fmt<W: fmt::Write>(&self, f: &mut fmt::Formatter<W>) -> fmt::Result {
        match self {
            Place::Length { bytes, parts } => {
                write!(f, "the image has {bytes} bytes, and its parts {parts}")
            }
            Place::Superblock(byte) => write!(f, "byte {byte}, in the superblock"),
            Place::Segment { byte, segment } => {
                write!(f, "byte {byte}, in the entry of segment {segment}")
            }
            Place::Number { byte, number } => {
                write!(
                    f,
                    "byte {byte}, in the entry of virtual block number {number}"
                )
            }
            Place::Entry { byte, place } => {
                write!(f, "byte {byte}, in entry {place} of the checkpoints")
            }
            Place::Block {
                byte,
                segment,
                block,
            } => write!(f, "byte {byte}, in block {block}, of segment {segment}"),
            Place::Tree {
                checkpoint,
                culprit,
            } => {
                write!(f, "in checkpoint {}", checkpoint.get())?;
                match culprit {
                    Some(culprit) => write!(f, ", {culprit}"),
                    None => Ok(()),
                }
            }
            Place::Padding(byte) => write!(f, "byte {byte}, in the padding"),
        }
    }
}

// ---- what fails first of a list

/// Judges the first items of a list.
trait Judge {
    /// Whether so many of them fail. More of them fail where they do.
    fn fails(&self, count: usize) -> Result<bool, VolError>;
}

/// The place of the first of so many items with which they fail, where all of them do.
fn first_bad<J: Judge>(judge: &J, count: usize) -> Result<usize, VolError> {
    let (mut low, mut high) = (0, count);
    for _ in 0..usize::BITS {
        if high.saturating_sub(low) <= 1 {
            break;
        }
        let middle = low + (high - low) / 2;
        if judge.fails(middle)? {
            high = middle;
        } else {
            low = middle;
        }
    }
    Ok(low)
}

/// Whether a part is refused as one of an image.
fn is_refused<T: Drop>(read: Result<T, VolError>) -> Result<bool, VolError> {
    match read {
        Ok(_) => Ok(false),
        Err(VolError::BadImage(_)) => Ok(true),
        Err(error) => Err(error),
    }
}

/// The first bytes of a table, and zeros in the place of the others.
fn begun(alloc: Global, table: &[u8], count: usize) -> Result<Vec<u8>, AllocError> {
    let mut bytes = vec![in alloc; 0; table.len()]?;
    let count = count.min(table.len());
    bytes[..count].copy_from_slice(&table[..count]);
    Ok(bytes)
}

/// The entries of segments.
#[derive(Clone, Copy)]
struct SegmentEntries<'a> {
    alloc: Global,
    geometry: Geometry,
    bytes: &'a [u8],
}

impl SegmentEntries<'_> {
    fn table(&self, count: usize) -> Result<SegTable, VolError> {
        let bytes = begun(self.alloc, self.bytes, count.saturating_mul(SEGMENT_SIZE))?;
        if bytes.len() != SEGMENT_SIZE * self.geometry.segments as usize {
            return Err(VolError::Fault);
        }
        SegTable::restore(self.alloc, self.geometry, bytes.as_slice())
    }
}

impl Judge for SegmentEntries<'_> {
    fn fails(&self, count: usize) -> Result<bool, VolError> {
        is_refused(self.table(count))
    }
}

/// How many blocks segments have.
fn block_count(segments: &SegTable) -> usize
    ensures count { result ≡ total_blocks segments.now }
    ensures most { result ≤ 262144 }
{
    segments.sustat().segments * segments.blocks() as usize
}

/// The entries of virtual block numbers.
#[derive(Clone, Copy)]
struct NumberEntries<'a> {
    alloc: Global,
    bytes: &'a [u8],
    segments: &'a SegTable,
    latest: CheckpointNumber,
}

impl NumberEntries<'_> {
    fn table(&self, count: usize) -> Result<Items<Option<DatEntry>>, VolError> {
        let bytes = begun(self.alloc, self.bytes, count.saturating_mul(NUMBER_SIZE))?;
        if bytes.len() != NUMBER_SIZE * block_count(self.segments) {
            return Err(VolError::Fault);
        }
        read_numbers(self.alloc, bytes.as_slice(), self.segments, self.latest)
    }
}

impl Judge for NumberEntries<'_> {
    fn fails(&self, count: usize) -> Result<bool, VolError> {
        is_refused(self.table(count))
    }
}

/// The entries of checkpoints.
#[derive(Clone, Copy)]
struct CheckpointEntries<'a> {
    alloc: Global,
    sections: &'a Sections<'a>,
}

/// The first entries of a table of checkpoints.
fn first_entries(table: &[u8], count: usize) -> &[u8]
    ensures { (n : ℕ) × (length result.now ≡ 160 * n) }
{
    let whole = table.len() / CHECKPOINT_SIZE;
    let count = if count < whole { count } else { whole };
    &table[..CHECKPOINT_SIZE * count]
}

impl CheckpointEntries<'_> {
    fn table(&self, count: usize) -> Result<Items<CheckpointEntry>, VolError> {
        let bytes = first_entries(self.sections.checkpoints, count);
        read_checkpoints(self.alloc, self.sections.superblock.mark, bytes)
    }
}

impl Judge for CheckpointEntries<'_> {
    fn fails(&self, count: usize) -> Result<bool, VolError> {
        is_refused(self.table(count))
    }
}

/// The trees of checkpoints, by one of the conditions 8 to 10.
#[derive(Clone, Copy)]
struct Trees<'a> {
    alloc: Global,
    pages: &'a ImagePages,
    geometry: Geometry,
    kept: &'a [CheckpointEntry],
    condition: u8,
}

impl Judge for Trees<'_> {
    fn fails(&self, count: usize) -> Result<bool, VolError> {
        let kept = &self.kept[..count.min(self.kept.len())];
        let verdict = judge_by(self.alloc, self.pages, self.geometry, kept)?;
        Ok(holds_by(verdict, self.condition) == Some(false))
    }
}

// ---- places by condition

/// Where the first byte stands that isn't zero.
fn first_set(bytes: &[u8]) -> Option<usize> {
    bytes.iter().position(|byte| *byte != 0)
}

/// Where a superblock with a mark fails: at its counts, or at a byte behind them.
fn in_superblock(image: &[u8]) -> Place {
    let Some(block) = image.get(..BLOCK_SIZE) else {
        return Place::Superblock(0);
    };
    match first_set(&block[24..]) {
        Some(place) => Place::Superblock((place as u64).saturating_add(24)),
        None => Place::Superblock(8),
    }
}

/// A byte of a block, by the block's number.
fn in_block(sections: &Sections<'_>, block: usize, byte: usize) -> Place {
    let begin = sections
        .places
        .blocks
        .saturating_add(block.saturating_mul(BLOCK_SIZE));
    Place::Block {
        byte: begin.saturating_add(byte) as u64,
        segment: block as u64 / u64::from(sections.geometry.blocks),
        block: block as u64,
    }
}

fn in_padding(sections: &Sections<'_>) -> Option<Place> {
    let place = first_set(sections.padding)?;
    Some(Place::Padding(sections.places.padding.saturating_add(place) as u64))
}

/// The first byte of a block that isn't used, and isn't zero.
fn in_unused(sections: &Sections<'_>, table: &SegTable) -> Option<Place> {
    for number in 0..sections.geometry.total() {
        if !table.is_used(BlockNumber::new(number)) {
            let block = number as usize;
            if let Some(place) = first_set(sections.block(block)?) {
                return Some(in_block(sections, block, place));
            }
        }
    }
    None
}

// ---- logs

/// Where the next log begins, behind the one at a block that ends before another block. None where that isn't
/// whole. Which numbers it names is noted by its blocks.
fn behind_log(
    sections: &Sections<'_>,
    at: usize,
    end: usize,
    names: &mut [Option<VirtualNumber>],
) -> Option<usize>
    requires { at < end }
{
    let summary = Summary::read(sections.block(at)?)?;
    let tags = summary.tags();
    if tags.len() >= end - at {
        return None;
    }
    for (k, tag) in tags.iter().enumerate() {
        if let Some(name) = names.get_mut((at + 1).saturating_add(k)) {
            *name = Some(tag.number);
        }
    }
    Some(at + 1 + tags.len())
}

/// The first block up to another at which no whole log begins, where one is due.
fn bad_log(
    sections: &Sections<'_>,
    first: usize,
    end: usize,
    names: &mut [Option<VirtualNumber>],
) -> Option<usize> {
    let mut at = first;
    for _ in first..end {
        if at >= end {
            break;
        }
        match behind_log(sections, at, end, names) {
            Some(next) => at = next,
            None => return Some(at),
        }
    }
    None
}

/// The same of all used parts.
fn first_bad_log(
    sections: &Sections<'_>,
    table: &SegTable,
    names: &mut [Option<VirtualNumber>],
) -> Option<usize> {
    for segment in 0..sections.geometry.segments {
        if let Ok(info) = table.suinfo(Segment::new(segment)) {
            let first = (segment as usize).saturating_mul(sections.geometry.blocks as usize);
            let end = first.saturating_add(info.used as usize);
            if let Some(block) = bad_log(sections, first, end, names) {
                return Some(block);
            }
        }
    }
    None
}

/// Whether a log names the block so.
fn is_named(names: &[Option<VirtualNumber>], block: usize, number: u64) -> bool {
    match names.get(block) {
        Some(Some(name)) => name.get() == number,
        _ => false,
    }
}

/// The first block of a number that no log names so.
fn first_unnamed(numbers: &[Option<DatEntry>], names: &[Option<VirtualNumber>]) -> Option<usize> {
    for (number, entry) in numbers.iter().enumerate() {
        if let Some(entry) = entry {
            let block = entry.block.get() as usize;
            if !is_named(names, block, number as u64) {
                return Some(block);
            }
        }
    }
    None
}

fn in_logs(
    alloc: Global,
    sections: &Sections<'_>,
    table: &SegTable,
    numbers: &[Option<DatEntry>],
) -> Result<Option<Place>, AllocError> {
    let mut names = vec![in alloc; None; sections.geometry.total() as usize]?;
    let bad = match first_bad_log(sections, table, names.as_mut_slice()) {
        Some(block) => Some(block),
        None => first_unnamed(numbers, names.as_slice()),
    };
    Ok(bad.map(|block| in_block(sections, block, 0)))
}

// ---- all of them

/// The byte at which an item of a table stands.
fn byte_of(begin: usize, size: usize, place: usize) -> u64 {
    begin.saturating_add(size.saturating_mul(place)) as u64
}

fn number_entries<'t>(
    alloc: Global,
    sections: &'t Sections<'_>,
    segments: &'t SegTable,
) -> NumberEntries<'t> {
    NumberEntries {
        alloc,
        bytes: sections.numbers,
        segments,
        latest: sections.latest(),
    }
}

/// An image whose length is that of its sections.
#[derive(Clone, Copy)]
struct Whole<'a> {
    alloc: Global,
    sections: &'a Sections<'a>,
}

impl<'a> Whole<'a> {
    fn segment_entries(self) -> SegmentEntries<'a> {
        SegmentEntries {
            alloc: self.alloc,
            geometry: self.sections.geometry,
            bytes: self.sections.segments,
        }
    }

    /// The table of segments. Refused by `BadImage` where it is none.
    fn segment_table(self) -> Result<SegTable, VolError> {
        let count = self.sections.geometry.segments as usize;
        self.segment_entries().table(count)
    }

    fn in_segments(self) -> Result<Place, VolError> {
        let count = self.sections.geometry.segments as usize;
        let segment = first_bad(&self.segment_entries(), count)?;
        Ok(Place::Segment {
            byte: byte_of(BLOCK_SIZE, SEGMENT_SIZE, segment),
            segment: segment as u64,
        })
    }

    fn checkpoint_entries(self) -> CheckpointEntries<'a> {
        CheckpointEntries {
            alloc: self.alloc,
            sections: self.sections,
        }
    }

    /// The entries of all checkpoints. Refused by `BadImage` where they are none.
    fn checkpoint_table(self) -> Result<Items<CheckpointEntry>, VolError> {
        self.checkpoint_entries().table(self.sections.entries())
    }

    fn in_checkpoints(self) -> Result<Place, VolError> {
        let place = first_bad(&self.checkpoint_entries(), self.sections.entries())?;
        Ok(Place::Entry {
            byte: byte_of(self.sections.places.checkpoints, CHECKPOINT_SIZE, place),
            place: place as u64,
        })
    }

    /// What the image has for each number, where these are the segments. Refused by `BadImage` where that is no
    /// table.
    fn number_table(self, segments: &SegTable) -> Result<Items<Option<DatEntry>>, VolError> {
        let count = self.sections.geometry.total() as usize;
        number_entries(self.alloc, self.sections, segments).table(count)
    }

    fn in_numbers(self, segments: &SegTable) -> Result<Place, VolError> {
        let count = self.sections.geometry.total() as usize;
        let entries = number_entries(self.alloc, self.sections, segments);
        let place = first_bad(&entries, count)?;
        Ok(Place::Number {
            byte: byte_of(self.sections.places.numbers, NUMBER_SIZE, place),
            number: (place as u64).saturating_add(1),
        })
    }

    fn in_trees(self, condition: u8) -> Result<Option<Place>, VolError> {
        let pages = ImagePages::of(self.alloc, self.sections)?;
        let kept = self.checkpoint_table()?;
        let trees = Trees {
            alloc: self.alloc,
            pages: &pages,
            geometry: self.sections.geometry,
            kept: kept.as_slice(),
            condition,
        };
        let place = first_bad(&trees, kept.len())?;
        match kept.as_slice().get(place) {
            Some(entry) => Ok(Some(Place::Tree {
                checkpoint: entry.number,
                culprit: culprit_of(self.alloc, &pages, entry, condition)?,
            })),
            None => Ok(None),
        }
    }

    /// Where a condition on numbers and what is behind them fails, where those are the segments.
    fn behind_segments(self, table: &SegTable, condition: u8) -> Result<Option<Place>, VolError> {
        match condition {
            6 => Ok(Some(self.in_numbers(table)?)),
            7 => {
                let numbers = self.number_table(table)?;
                Ok(in_logs(self.alloc, self.sections, table, numbers.as_slice())?)
            }
            8..=10 => self.in_trees(condition),
            _ => match in_padding(self.sections) {
                Some(place) => Ok(Some(place)),
                None => Ok(in_unused(self.sections, table)),
            },
        }
    }

    /// Where a condition from the fourth on fails, where those hold that it asks for.
    fn place(self, condition: u8) -> Result<Option<Place>, VolError> {
        match condition {
            4 => Ok(Some(self.in_segments()?)),
            5 => Ok(Some(self.in_checkpoints()?)),
            _ => {
                let table = self.segment_table()?;
                self.behind_segments(&table, condition)
            }
        }
    }
}

/// Where an image fails the condition of a number, which is the first that it fails. None where that isn't
/// known. Refused by want of memory.
pub fn place_of(alloc: Global, image: &[u8], condition: u8) -> Result<Option<Place>, AllocError>
    ensures mark { condition ≡ number_of conditions.Mark
        → IfOk result (λ place. place ≡ mark_told) }
    ensures length { (p : Parts) → HasOtherLength image.now p → (HasTooMany p.shape → ⊥)
        → (condition ≡ number_of conditions.Mark → ⊥)
        → IfOk result (λ place. place ≡ length_told image.now p) }
{
    if condition == ImageCondition::Mark.number() {
        return Ok(Some(Place::Superblock(0)));
    }
    let Some(sections) = Sections::of(image) else {
        return Ok(Some(in_superblock(image)));
    };
    if image.len() != sections.places.end {
        return Ok(Some(Place::Length {
            bytes: image.len() as u64,
            parts: sections.places.end as u64,
        }));
    }
    let whole = Whole {
        alloc,
        sections: &sections,
    };
    match whole.place(condition) {
        Ok(place) => Ok(place),
        Err(VolError::Memory) => Err(AllocError),
        Err(_) => Ok(None),
    }
}
