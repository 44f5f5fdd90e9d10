//! The summary block of a log.
ghost use Rattle.std.specs.Prelude.{◌≡◌, ◌<◌, ◌≤◌, ◌-◌, ◌*◌, ◌^◌, ◌++◌, length, drop, replicate, All, IfSome, Some};
ghost use Rattle.std.specs.Option.{SomeIff};
ghost use Rattle.nl_types.specs.Plain.Limits as limits;
ghost use Rattle.nl_layout.specs.Tag.{TagHasSpelling};
ghost use Rattle.nl_layout.specs.Summary.{Contents, HaveLevels, Spells, contents_at, header_bytes, tags_at, tags_bytes};

use crate::level::Level;
use crate::tag::{TAG_SIZE, Tag};
use byteorder::{ByteOrder, LittleEndian};
use nl_types::{BLOCK_SIZE, CheckpointNumber, InodeNumber, VirtualNumber};
use std::marker::Model;

const MARK: [u8; 4] = *b"NLSG";

const HEADER_SIZE: usize = 64;

const MAX_TAGS: usize = 30;

/// What the first block of a log says of it, as the segment summaries of nilfs2.rst and of Rosenblum and
/// Ousterhout 1992 do: the log's moment, the number of a checkpoint, and what each of its 1 to 30 payload
/// blocks is. It takes no memory.
///
/// The block has 1,024 bytes, with numbers in little endian: the mark `NLSG` at 0, the count of payload
/// blocks in 2 bytes at 4, the moment in 8 bytes at 8, the checkpoint number in 8 bytes at 16, and record k
/// in 32 bytes at 64 + 32 k: virtual number, inode and offset in 8 bytes each, then the level in one. All
/// other bytes are zero.
#[derive(Drop)]
pub struct Summary {
    stamp: u64,
    checkpoint: CheckpointNumber,
    count: usize,
    tags: [Tag; MAX_TAGS],
}

impl Model for Summary {
    ghost use Rattle.std.specs.Prelude.{◌≤◌, take};
    ghost use Rattle.nl_layout.specs.Summary.{Contents};

    ghost Value = { Contents };

    ghost view = { λ s. record { stamp = s.stamp; checkpoint = s.checkpoint; tags = take s.count s.tags } };

    ghost invariant = { λ s. (1 ≤ s.count) × (s.count ≤ 30) };
}

impl Summary {
    /// The summary of a log whose payload blocks are as the tags say, in their order.
    pub fn new(stamp: u64, checkpoint: CheckpointNumber, tags: &[Tag]) -> Self
        requires some { 1 ≤ length tags.now }
        requires most { length tags.now ≤ limits.log_limit }
        ensures { result ≡ record { stamp = stamp; checkpoint = checkpoint; tags = tags.now } }
    {
        let mut all = no_tags();
        all[..tags.len()].copy_from_slice(tags);
        Summary {
            stamp,
            checkpoint,
            count: tags.len(),
            tags: all,
        }
    }

    /// The moment at which the log was written, in whole seconds.
    pub fn stamp(&self) -> u64
        ensures { result ≡ self.now.stamp }
    {
        self.stamp
    }

    /// The checkpoint that was being made; where blocks were moved, the minor one that the move makes.
    pub fn checkpoint(&self) -> CheckpointNumber
        ensures { result ≡ self.now.checkpoint }
    {
        self.checkpoint
    }

    /// What each payload block is, in the order of the blocks behind the summary.
    pub fn tags(&self) -> &[Tag]
        ensures tags { result.now ≡ self.now.tags }
        ensures some { 1 ≤ length result.now }
        ensures most { length result.now ≤ limits.log_limit }
    {
        &self.tags[..self.count]
    }

    /// The summary that the bytes spell. None where they spell none: not 1,024 of them, another mark, a count
    /// of 0 or above 30, a level above 3, or a byte that isn't zero outside all fields and in the records
    /// from the count on.
    pub fn read(bytes: &[u8]) -> Option<Self>
        ensures found { IfSome result (Spells bytes.now) }
        ensures only { (s : Contents) → Spells bytes.now s → result ≡ Some s }
    {
        if bytes.len() != BLOCK_SIZE {
            return None;
        }
        let count = usize::from(LittleEndian::read_u16(&bytes[4..]));
        if count == 0 || count > MAX_TAGS {
            return None;
        }
        let summary = from_fields(count, bytes)?;
        // A summary has one spelling, so whatever the fields don't tell is judged here.
        let mut again = [0; BLOCK_SIZE];
        summary.write(&mut again);
        if again.as_slice() == bytes {
            Some(summary)
        } else {
            None
        }
    }

    /// Fills a block with the one spelling of the summary, from which `read` gives it back.
    pub fn write(&self, out: &mut [u8])
        requires { length out.old ≡ 1024 }
        ensures { Spells out.new self.now }
    {
        let (header, records) = out.split_at_mut(HEADER_SIZE);
        header.copy_from_slice(&header_of(self));
        write_tags(self.tags(), records);
    }
}

/// A table of records in which none is set yet.
fn no_tags() -> [Tag; MAX_TAGS]
    ensures { length result ≡ limits.log_limit }
{
    let none = Tag {
        number: VirtualNumber::new(0),
        inode: InodeNumber::new(0),
        level: Level::new(0),
        offset: 0,
    };
    [none; MAX_TAGS]
}

fn header_of(summary: &Summary) -> [u8; HEADER_SIZE]
    ensures bytes { result ≡ header_bytes (length summary.now.tags) summary.now.stamp summary.now.checkpoint }
    ensures stamp_fits { summary.now.stamp < 2 ^ 64 }
    ensures checkpoint_fits { summary.now.checkpoint < 2 ^ 64 }
{
    let mut bytes = [0; HEADER_SIZE];
    bytes[..4].copy_from_slice(&MARK);
    LittleEndian::write_u16(&mut bytes[4..], summary.tags().len() as u16);
    LittleEndian::write_u64(&mut bytes[8..], summary.stamp());
    LittleEndian::write_u64(&mut bytes[16..], summary.checkpoint().get());
    bytes
}

/// Writes the records, and zeros behind them.
fn write_tags(tags: &[Tag], out: &mut [u8])
    requires most { length tags.now ≤ limits.log_limit }
    requires room { length out.old ≡ 960 }
    ensures bytes { out.new ≡ tags_bytes tags.now ++ replicate (32 * (limits.log_limit - length tags.now)) 0 }
    ensures fit { All TagHasSpelling tags.now }
{
    out.fill(0);
    for (k, tag) in tags.iter().enumerate() {
        let from = TAG_SIZE * k;
        out[from..from + TAG_SIZE].copy_from_slice(&tag.to_bytes());
    }
}

/// What stands in the fields of a summary of so many records, whatever the other bytes are. None where a
/// level is none.
fn from_fields(count: usize, bytes: &[u8]) -> Option<Summary>
    requires size { length bytes.now ≡ 1024 }
    requires some { 1 ≤ count }
    requires most { count ≤ limits.log_limit }
    ensures { SomeIff result (HaveLevels (tags_at count (drop 64 bytes.now))) (contents_at count bytes.now) }
{
    let mut tags = no_tags();
    for k in 0..count {
        tags[k] = Tag::from_fields(&bytes[HEADER_SIZE + TAG_SIZE * k..])?;
    }
    Some(Summary {
        stamp: LittleEndian::read_u64(&bytes[8..]),
        checkpoint: CheckpointNumber::new(LittleEndian::read_u64(&bytes[16..])),
        count,
        tags,
    })
}
