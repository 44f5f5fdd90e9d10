//! A block of a directory byte by byte, as the format says.
ghost use Rattle.std.specs.Prelude.{IsTrue};
ghost use Rattle.nl_dirs.specs.Records.{AllHaveSpelling, RecordHasSpelling};

use nl_dirs::{Record, pack};
use nl_types::{Block, InodeNumber, Items, Kind, VolError};
use std::alloc::{AllocError, Global};

/// Whether a record may be packed.
fn fits(record: &Record) -> bool
    ensures { IsTrue result → RecordHasSpelling record.now }
{
    let length = record.name.len();
    length > 0 && length <= 255 && record.inode.get() <= 0xffff_ffff
}

/// Whether each record may be packed.
fn all_fit(records: &[Record]) -> bool
    ensures { IsTrue result → AllHaveSpelling records.now }
{
    for record in records {
        if !fits(record) {
            return false;
        }
    }
    true
}

/// The blocks of records. Refused by `BadName` where one can't be packed.
fn packed(alloc: Global, records: &[Record]) -> Result<Vec<Block>, VolError> {
    if !all_fit(records) {
        return Err(VolError::BadName);
    }
    pack(alloc, records)
}

/// Name, inode and kind of a record.
type Entry = (&'static [u8], u64, Kind);

fn record_of(alloc: Global, entry: &Entry) -> Result<Record, AllocError> {
    Ok(Record {
        name: Items::from_slice(alloc, entry.0)?,
        inode: InodeNumber::new(entry.1),
        kind: entry.2,
    })
}

fn records_of(alloc: Global, entries: &[Entry]) -> Result<Vec<Record>, AllocError> {
    let mut records = Vec::new(alloc);
    for entry in entries {
        records.push(record_of(alloc, entry)?)?;
    }
    Ok(records)
}

const FOUR: [Entry; 4] = [
    (b"a", 0x0102_0304, Kind::File),
    (b"b/", 5, Kind::Directory),
    (&[0x7f, 0x80, 0xff], 0xffff_ffff, Kind::File),
    (&[0xff; 255], 0x8000_0000, Kind::Directory),
];

/// The four records up to the last one's name.
const FOUR_SPELLED: [u8; 30] = [
    4, 3, 2, 1, 1, 1, b'a', 5, 0, 0, 0, 2, 2, b'b', b'/', 0xff, 0xff, 0xff, 0xff, 1, 3, 0x7f, 0x80,
    0xff, 0, 0, 0, 0x80, 2, 255,
];

/// Whether a block spells the four records, with zeros behind the last one's name.
fn spells_four(block: &Block) -> bool {
    let bytes = block.bytes();
    &bytes[..30] == FOUR_SPELLED.as_slice()
        && bytes[30..285] == [0xff; 255]
        && bytes[285..] == [0; 739]
}

/// Whether there is one block, which spells the four records.
fn are_of_four(blocks: &[Block]) -> bool {
    match blocks {
        [block] => spells_four(block),
        _ => false,
    }
}

/// Whether the four records are packed as the format says.
pub(crate) fn records_are_spelled_byte_by_byte(alloc: Global) -> Result<bool, VolError> {
    let blocks = packed(alloc, &records_of(alloc, &FOUR)?)?;
    Ok(are_of_four(blocks.as_slice()))
}
