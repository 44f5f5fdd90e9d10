//! Inodes.
ghost use Rattle.std.specs.Prelude.{◌≡◌, ◌≤◌, length, IfSome, Some};
ghost use Rattle.nl_layout.specs.Inode.{Spells, InodeHasSpelling, entry_at, inode_bytes};

use crate::root::{Root, RootFields};
use byteorder::{ByteOrder, LittleEndian};
use nl_types::VirtualNumber;

/// The bytes of an inode.
pub const INODE_SIZE: usize = 128;

/// What an inode in use is for.
#[derive(Clone, Copy, PartialEq, Eq)]
pub enum InodeKind {
    File,
    Directory,
    /// The file whose blocks hold the inodes.
    InodeFile,
}

/// An inode in use: what it is for, how many bytes it has, and where its blocks begin.
#[derive(Clone, Copy, PartialEq, Eq)]
pub struct Inode {
    pub kind: InodeKind,
    pub root: Root,
    pub size: u64,
}

/// A place for an inode in the file of inodes, as in the ifile of nilfs2.rst.
///
/// It has 128 bytes, with numbers in little endian: the kind at 0 (1 for a file, 2 for a directory, 3 for the
/// file of inodes), the root's kind at 1 (0 for an empty one, 1 for a chain, 2 for a tree), the height of a
/// tree at 2, the size in 8 bytes at 8, and the number of the root's first or topmost node in 8 bytes at 16,
/// which is 0 for an empty root. All other bytes are zero, and so are all bytes of a free place.
#[derive(Clone, Copy)]
pub enum InodeEntry {
    Free,
    InUse(Inode),
}

impl InodeEntry {
    /// The entry that the bytes spell. None where they spell none: not 128 of them, a kind or a root's kind
    /// that is none, a tree higher than 3, or a byte that isn't zero outside all fields, or anywhere in a
    /// free place.
    pub fn read(bytes: &[u8]) -> Option<Self>
        ensures found { IfSome result (Spells bytes.now) }
        ensures only { (entry : InodeEntry) → Spells bytes.now entry → result ≡ Some entry }
    {
        if bytes.len() != INODE_SIZE {
            return None;
        }
        let entry = from_fields(bytes)?;
        // An entry has one spelling, so whatever the fields don't tell is judged here.
        let mut again = [0; INODE_SIZE];
        entry.write(&mut again);
        if again.as_slice() == bytes {
            Some(entry)
        } else {
            None
        }
    }

    /// Fills the place with the one spelling of the entry, from which `read` gives it back.
    pub fn write(&self, out: &mut [u8])
        requires { length out.old ≡ 128 }
        ensures { Spells out.new self.now }
    {
        match self {
            InodeEntry::Free => out.fill(0),
            InodeEntry::InUse(inode) => out.copy_from_slice(&inode.to_bytes()),
        }
    }
}

impl Inode {
    pub(crate) fn to_bytes(self) -> [u8; INODE_SIZE]
        ensures bytes { result ≡ inode_bytes self }
        ensures fits { InodeHasSpelling self }
    {
        let root = self.root.fields();
        let mut bytes = [0; INODE_SIZE];
        bytes[0] = self.kind.code();
        bytes[1] = root.kind;
        bytes[2] = root.height;
        LittleEndian::write_u64(&mut bytes[8..], self.size);
        LittleEndian::write_u64(&mut bytes[16..], root.number.get());
        bytes
    }
}

impl InodeKind {
    ghost use Rattle.nl_layout.specs.Inode.{inode_kind_code};

    fn code(self) -> u8
        ensures { result ≡ inode_kind_code self }
    {
        match self {
            InodeKind::File => 1,
            InodeKind::Directory => 2,
            InodeKind::InodeFile => 3,
        }
    }
}

/// What stands in the fields of an entry, whatever the other bytes are. None where a kind is none.
pub(crate) fn from_fields(bytes: &[u8]) -> Option<InodeEntry>
    requires { length bytes.now ≡ 128 }
    ensures { result ≡ entry_at bytes.now }
{
    let kind = match bytes[0] {
        0 => return Some(InodeEntry::Free),
        1 => InodeKind::File,
        2 => InodeKind::Directory,
        3 => InodeKind::InodeFile,
        _ => return None,
    };
    let root = RootFields {
        kind: bytes[1],
        height: bytes[2],
        number: VirtualNumber::new(LittleEndian::read_u64(&bytes[16..])),
    };
    Some(InodeEntry::InUse(Inode {
        kind,
        root: root.root()?,
        size: LittleEndian::read_u64(&bytes[8..]),
    }))
}
