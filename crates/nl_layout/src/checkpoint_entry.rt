//! Entries of the checkpoint file.
ghost use Rattle.std.specs.Prelude.{◌≡◌, length, IfSome, Some};
ghost use Rattle.nl_layout.specs.Checkpoints.{Spells, checkpoint_at, fields_with, flags_of, flags_told, root_fields_at};

use crate::root::RootFields;
use byteorder::{ByteOrder, LittleEndian};
use nl_types::{CheckpointNumber, Mode, VirtualNumber};

/// The bytes of an entry of the checkpoint file.
pub const CHECKPOINT_SIZE: usize = 160;

/// The kind of the file of inodes, as an inode has it.
const INODE_FILE: u8 = 3;

/// A kept checkpoint, as an entry of the cpfile of nilfs2.rst.
///
/// It has 160 bytes, with numbers in little endian: the checkpoint's number in 8 bytes at 0, its stamp in 8
/// bytes at 8, its flags in 4 bytes at 16 (1 for a snapshot, 2 for one that the volume made by itself, 3 for
/// both), how many inodes are in use in 8 bytes at 24, and at 32 the inode of its file of inodes: its kind,
/// which is 3, the root's kind at 33 and height at 34, the size in 8 bytes at 40, and the root's number in 8
/// bytes at 48. All other bytes are zero. Whether a root may be so, and the size too, is judged by the blocks
/// that it leads to, so an entry may have any.
#[derive(Clone, Copy)]
pub struct CheckpointEntry {
    pub number: CheckpointNumber,
    pub mode: Mode,
    /// Whether the volume made it by itself.
    pub minor: bool,
    pub stamp: u64,
    /// How many inodes are in use.
    pub inodes: u64,
    /// Where the blocks of the file of inodes begin.
    pub root: RootFields,
    /// The size of the file of inodes.
    pub size: u64,
}

impl CheckpointEntry {
    /// The entry that the bytes spell. None where they spell none: not 160 of them, flags above 3, an inode
    /// of another kind, or a byte that isn't zero outside all fields.
    pub fn read(bytes: &[u8]) -> Option<Self>
        ensures found { IfSome result (Spells bytes.now) }
        ensures only { (entry : CheckpointEntry) → Spells bytes.now entry → result ≡ Some entry }
    {
        if bytes.len() != CHECKPOINT_SIZE {
            return None;
        }
        let entry = from_bytes(bytes)?;
        // An entry has one spelling, so whatever the fields don't tell is judged here.
        let mut again = [0; CHECKPOINT_SIZE];
        entry.write(&mut again);
        if again.as_slice() == bytes {
            Some(entry)
        } else {
            None
        }
    }

    /// Fills the place with the one spelling of the entry, from which `read` gives it back.
    pub fn write(&self, out: &mut [u8])
        requires { length out.old ≡ 160 }
        ensures { Spells out.new self.now }
    {
        out.copy_from_slice(&self.to_bytes());
    }

    fn to_bytes(self) -> [u8; CHECKPOINT_SIZE]
        ensures { Spells result self }
    {
        let mut bytes = [0; CHECKPOINT_SIZE];
        LittleEndian::write_u64(&mut bytes, self.number.get());
        LittleEndian::write_u64(&mut bytes[8..], self.stamp);
        LittleEndian::write_u32(&mut bytes[16..], flags(self.mode, self.minor));
        LittleEndian::write_u64(&mut bytes[24..], self.inodes);
        bytes[32] = INODE_FILE;
        bytes[33] = self.root.kind;
        bytes[34] = self.root.height;
        LittleEndian::write_u64(&mut bytes[40..], self.size);
        LittleEndian::write_u64(&mut bytes[48..], self.root.number.get());
        bytes
    }
}

/// What stands in the fields of an entry, whatever the other bytes are. None where the flags are none.
fn from_bytes(bytes: &[u8]) -> Option<CheckpointEntry>
    requires { length bytes.now ≡ 160 }
    ensures { result ≡ checkpoint_at bytes.now }
{
    let told = flags_told(LittleEndian::read_u32(&bytes[16..]))?;
    Some(with_flags(bytes, told))
}

/// What stands in the fields but the flags.
fn with_flags(bytes: &[u8], told: (Mode, bool)) -> CheckpointEntry
    requires { length bytes.now ≡ 160 }
    ensures { result ≡ fields_with bytes.now told }
{
    CheckpointEntry {
        number: CheckpointNumber::new(LittleEndian::read_u64(bytes)),
        mode: told.0,
        minor: told.1,
        stamp: LittleEndian::read_u64(&bytes[8..]),
        inodes: LittleEndian::read_u64(&bytes[24..]),
        root: root_fields(bytes),
        size: LittleEndian::read_u64(&bytes[40..]),
    }
}

fn root_fields(bytes: &[u8]) -> RootFields
    requires { length bytes.now ≡ 160 }
    ensures { result ≡ root_fields_at bytes.now }
{
    RootFields {
        kind: bytes[33],
        height: bytes[34],
        number: VirtualNumber::new(LittleEndian::read_u64(&bytes[48..])),
    }
}

fn flags(mode: Mode, minor: bool) -> u32
    ensures { result ≡ flags_of mode minor }
{
    match (mode, minor) {
        (Mode::Plain, false) => 0,
        (Mode::Snapshot, false) => 1,
        (Mode::Plain, true) => 2,
        (Mode::Snapshot, true) => 3,
    }
}

/// The mode that flags tell, and whether the checkpoint is minor.
fn flags_told(flags: u32) -> Option<(Mode, bool)>
    ensures { result ≡ flags_told flags }
{
    match flags {
        0 => Some((Mode::Plain, false)),
        1 => Some((Mode::Snapshot, false)),
        2 => Some((Mode::Plain, true)),
        3 => Some((Mode::Snapshot, true)),
        _ => None,
    }
}
