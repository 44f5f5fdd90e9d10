//! The record of a payload block in its log's summary.
ghost use Rattle.std.specs.Prelude.{◌≡◌, ◌≤◌, length, slice_index};
ghost use Rattle.std.specs.Option.{SomeIff};

use crate::level::Level;
use byteorder::{ByteOrder, LittleEndian};
use nl_types::{InodeNumber, VirtualNumber};

/// The bytes of a record.
pub(crate) const TAG_SIZE: usize = 32;

const MAX_LEVEL: u8 = 3;

/// What a payload block is: its number, and its place in the file that it belongs to. By it a cleaner tells
/// whether the block is still needed (Rosenblum and Ousterhout 1992, section 3.3).
#[derive(Clone, Copy)]
pub struct Tag {
    pub number: VirtualNumber,
    /// The file's inode; 6 for the file of inodes.
    pub inode: InodeNumber,
    pub level: Level,
    /// The index of a data block in its file, or the position of a node in its level, from 0.
    pub offset: u64,
}

impl Tag {
    ghost use Rattle.nl_layout.specs.Tag.{TagHasSpelling, tag_at, tag_bytes};

    pub(crate) fn to_bytes(self) -> [u8; TAG_SIZE]
        ensures bytes { result ≡ tag_bytes self }
        ensures fits { TagHasSpelling self }
    {
        let mut bytes = [0; TAG_SIZE];
        LittleEndian::write_u64(&mut bytes, self.number.get());
        LittleEndian::write_u64(&mut bytes[8..], self.inode.get());
        LittleEndian::write_u64(&mut bytes[16..], self.offset);
        bytes[24] = self.level.get();
        bytes
    }

    /// What stands in the fields of a record, whatever its last 7 bytes are. None where the level is none.
    pub(crate) fn from_fields(bytes: &[u8]) -> Option<Tag>
        requires { 32 ≤ length bytes.now }
        ensures { SomeIff result (slice_index bytes.now 24 ≤ 3) (tag_at bytes.now) }
    {
        if bytes[24] > MAX_LEVEL {
            return None;
        }
        Some(Tag {
            number: VirtualNumber::new(LittleEndian::read_u64(bytes)),
            inode: InodeNumber::new(LittleEndian::read_u64(&bytes[8..])),
            level: Level::new(bytes[24]),
            offset: LittleEndian::read_u64(&bytes[16..]),
        })
    }
}
