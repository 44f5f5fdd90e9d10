//! The first block of an image.
ghost use Rattle.std.specs.Prelude.{◌≡◌, ◌↔◌, IsTrue, IfSome, Some, length};
ghost use Rattle.nl_layout.specs.Superblock.{HasSpelling, HasMark, Spells, header_bytes, mark_at, mark_bytes, superblock_at};

use byteorder::{ByteOrder, LittleEndian};
use nl_types::BLOCK_SIZE;

const FIRST_MARK: [u8; 8] = *b"NLVOL001";

const SECOND_MARK: [u8; 8] = *b"NLVOL002";

const HEADER_SIZE: usize = 24;

/// Which format an image has. They differ in that the first one has no minor checkpoints.
#[derive(Clone, Copy)]
pub enum Mark {
    First,
    Second,
}

impl Mark {
    fn bytes(self) -> [u8; 8]
        ensures { result ≡ mark_bytes self }
    {
        match self {
            Mark::First => FIRST_MARK,
            Mark::Second => SECOND_MARK,
        }
    }
}

/// How the volume of an image is divided, and how many checkpoints it keeps. Whether a volume may be so is
/// judged elsewhere.
///
/// The block has 1,024 bytes, with numbers in little endian: the mark `NLVOL001` or `NLVOL002` at 0, the
/// number of segments in 4 bytes at 8, that of the blocks in each in 4 bytes at 12, and that of kept
/// checkpoints in 8 bytes at 16. All other bytes are zero.
#[derive(Clone, Copy)]
pub struct Superblock {
    pub mark: Mark,
    pub segments: u32,
    pub blocks: u32,
    pub checkpoints: u64,
}

impl Superblock {
    /// Whether bytes begin as an image does: there are as many as a superblock has, and the first ones are a
    /// mark.
    pub fn has_mark(bytes: &[u8]) -> bool
        ensures { IsTrue result ↔ HasMark bytes.now }
    {
        bytes.len() >= BLOCK_SIZE && (bytes[..8] == FIRST_MARK[..] || bytes[..8] == SECOND_MARK[..])
    }

    /// The superblock that the bytes spell. None where they spell none: not 1,024 of them, another mark, or a
    /// byte that isn't zero outside all fields.
    pub fn read(bytes: &[u8]) -> Option<Self>
        ensures found { IfSome result (Spells bytes.now) }
        ensures only { (s : Superblock) → Spells bytes.now s → result ≡ Some s }
    {
        if bytes.len() != BLOCK_SIZE {
            return None;
        }
        let superblock = from_bytes(bytes);
        // A superblock has one spelling, so whatever the fields don't tell is judged here.
        let mut again = [0; BLOCK_SIZE];
        superblock.write(&mut again);
        if again.as_slice() == bytes {
            Some(superblock)
        } else {
            None
        }
    }

    /// Fills a block with the one spelling of the superblock, from which `read` gives it back.
    pub fn write(&self, out: &mut [u8])
        requires { length out.old ≡ 1024 }
        ensures { Spells out.new self.now }
    {
        let (header, rest) = out.split_at_mut(HEADER_SIZE);
        header.copy_from_slice(&header_of(*self));
        rest.fill(0);
    }
}

fn header_of(superblock: Superblock) -> [u8; HEADER_SIZE]
    ensures bytes { result ≡ header_bytes superblock }
    ensures fits { HasSpelling superblock }
{
    let mut bytes = [0; HEADER_SIZE];
    bytes[..8].copy_from_slice(&superblock.mark.bytes());
    LittleEndian::write_u32(&mut bytes[8..], superblock.segments);
    LittleEndian::write_u32(&mut bytes[12..], superblock.blocks);
    LittleEndian::write_u64(&mut bytes[16..], superblock.checkpoints);
    bytes
}

/// Which mark bytes begin with, where they begin with one.
fn mark_of(bytes: &[u8]) -> Mark
    requires { length bytes.now ≡ 1024 }
    ensures { result ≡ mark_at bytes.now }
{
    if bytes[..8] == FIRST_MARK[..] {
        Mark::First
    } else {
        Mark::Second
    }
}

/// What stands in the fields, whatever the other bytes are.
fn from_bytes(bytes: &[u8]) -> Superblock
    requires { length bytes.now ≡ 1024 }
    ensures { result ≡ superblock_at bytes.now }
{
    Superblock {
        mark: mark_of(bytes),
        segments: LittleEndian::read_u32(&bytes[8..]),
        blocks: LittleEndian::read_u32(&bytes[12..]),
        checkpoints: LittleEndian::read_u64(&bytes[16..]),
    }
}
