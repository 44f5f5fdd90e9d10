//! Entries of the table of virtual block numbers, as bytes.
ghost use Rattle.std.specs.Prelude.{◌≡◌, length, IfSome, Option, Some};
ghost use Rattle.nl_dat.specs.declared.entries.DatEntry.{DatEntry};
ghost use Rattle.nl_dat.specs.EntryBytes.{HasSpelling, Spells, end_at, entry_of_bytes, number_bytes};

use crate::entries::DatEntry;
use byteorder::{ByteOrder, LittleEndian};
use nl_types::{BlockNumber, CheckpointNumber};

/// The bytes of an entry.
pub(crate) const NUMBER_SIZE: usize = 24;

/// What the bytes have for a number: nothing where it isn't in use, else its entry, as one of the DAT of
/// nilfs2.rst. None where they spell neither: not 24 of them, a start of 0 where another byte isn't zero, or
/// no block's number.
///
/// An entry has numbers in little endian, each in 8 bytes: the block at 0, the start at 8 and the end at 16,
/// which is 2^64 - 1 where it hasn't come. All bytes are zero where the number isn't in use.
pub(crate) fn read_number(bytes: &[u8]) -> Option<Option<DatEntry>>
    ensures found { IfSome result (Spells bytes.now) }
    ensures only { (entry : Option DatEntry) → Spells bytes.now entry → result ≡ Some entry }
{
    if bytes.len() != NUMBER_SIZE {
        return None;
    }
    let entry = from_bytes(bytes);
    // What is told has one spelling, so whatever the fields don't tell is judged here.
    let mut again = [0; NUMBER_SIZE];
    write_number(&entry, &mut again);
    if again.as_slice() == bytes {
        Some(entry)
    } else {
        None
    }
}

/// Fills the place with the spelling of what the table has for a number.
pub(crate) fn write_number(entry: &Option<DatEntry>, out: &mut [u8])
    requires { length out.old ≡ 24 }
    ensures { out.new ≡ number_bytes entry.now }
{
    match entry {
        None => out.fill(0),
        Some(entry) => out.copy_from_slice(&to_bytes(*entry)),
    }
}

fn to_bytes(entry: DatEntry) -> [u8; NUMBER_SIZE]
    ensures { result ≡ number_bytes (Some entry) }
{
    let end = match entry.end {
        Some(end) => end.get(),
        None => u64::MAX,
    };
    let mut bytes = [0; NUMBER_SIZE];
    LittleEndian::write_u64(&mut bytes, u64::from(entry.block.get()));
    LittleEndian::write_u64(&mut bytes[8..], entry.start.get());
    LittleEndian::write_u64(&mut bytes[16..], end);
    bytes
}

/// What stands in the fields, whatever the other bytes are.
fn from_bytes(bytes: &[u8]) -> Option<DatEntry>
    requires { length bytes.now ≡ 24 }
    ensures told { result ≡ entry_of_bytes bytes.now }
    ensures fits { HasSpelling result }
{
    let start = LittleEndian::read_u64(&bytes[8..]);
    if start == 0 {
        return None;
    }
    Some(DatEntry {
        block: BlockNumber::new(LittleEndian::read_u32(bytes)),
        start: CheckpointNumber::new(start),
        end: end_of(LittleEndian::read_u64(&bytes[16..])),
    })
}

fn end_of(number: u64) -> Option<CheckpointNumber>
    ensures { result ≡ end_at number }
{
    if number == u64::MAX {
        None
    } else {
        Some(CheckpointNumber::new(number))
    }
}
