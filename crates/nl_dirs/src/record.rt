//! The records of a directory, and their bytes.
ghost use Rattle.std.specs.Prelude.{◌≡◌, ◌≢◌, ◌++◌, ◌≤◌, length, drop, MatchOption, IfOk};
ghost use Rattle.nl_types.specs.declared.kind.Kind.{Kind};
ghost use Rattle.nl_dirs.specs.Private.Stored.{stored};
ghost use Rattle.nl_dirs.specs.Records.{Begins, BeginsNone, RecordHasSpelling, kind_code, record_bytes, size_of};

use byteorder::{ByteOrder, LittleEndian};
use nl_types::{InodeNumber, Items, Kind};
use std::alloc::{AllocError, Global};

/// What stands in front of the name: the inode in 4 bytes, the kind in one, and the length of the name in
/// one.
const HEAD_SIZE: usize = 6;

/// A record of a directory: a name of 1 to 255 bytes, and what it stands for. Inode numbers are below 2^32.
/// Which names a path may have is for the caller to judge.
#[derive(Drop)]
pub struct Record {
    pub name: Items<u8>,
    pub inode: InodeNumber,
    pub kind: Kind,
}

/// A record as it stands in a block, with its name still there.
#[derive(Clone, Copy)]
pub(crate) struct StoredRecord<'a> {
    pub(crate) name: &'a [u8],
    pub(crate) inode: InodeNumber,
    pub(crate) kind: Kind,
}

fn code_of(kind: Kind) -> u8
    ensures { result ≡ kind_code kind }
{
    match kind {
        Kind::File => 1,
        Kind::Directory => 2,
    }
}

fn kind_of(code: u8) -> Option<Kind>
    ensures { MatchOption result ((kind : Kind) → code ≢ kind_code kind)
        (λ kind. code ≡ kind_code kind) }
{
    match code {
        1 => Some(Kind::File),
        2 => Some(Kind::Directory),
        _ => None,
    }
}

impl Record {
    /// The bytes that the record takes in a block.
    pub(crate) fn size(&self) -> usize
        requires { RecordHasSpelling self.now }
        ensures { result ≡ size_of self.now }
    {
        HEAD_SIZE + self.name.len()
    }

    /// Writes the record's bytes to the beginning of `out`, and leaves what stands behind them.
    pub(crate) fn write(&self, out: &mut [u8])
        requires fits { RecordHasSpelling self.now }
        requires room { size_of self.now ≤ length out.old }
        ensures { out.new ≡ record_bytes self.now ++ drop (size_of self.now) out.old }
    {
        let name = self.name.as_slice();
        LittleEndian::write_u32(out, self.inode.get() as u32);
        out[4] = code_of(self.kind);
        out[5] = name.len() as u8;
        out[HEAD_SIZE..HEAD_SIZE + name.len()].copy_from_slice(name);
    }
}

impl StoredRecord<'_> {
    /// The record by itself, with a copy of the name. May be refused for memory.
    pub(crate) fn to_record(&self, alloc: Global) -> Result<Record, AllocError>
        ensures { IfOk result (λ copy. copy ≡ stored self.now) }
    {
        Ok(Record {
            name: Items::from_slice(alloc, self.name)?,
            inode: self.inode,
            kind: self.kind,
        })
    }
}

/// Takes the record off the front of the bytes, if one begins them.
pub(crate) fn split_record(bytes: &[u8]) -> Option<(StoredRecord<'_>, &[u8])>
    ensures { MatchOption result (BeginsNone bytes.now)
        (λ split. Begins bytes.now (stored split.0) split.1.now) }
{
    if bytes.len() < HEAD_SIZE {
        return None;
    }
    let (head, rest) = bytes.split_at(HEAD_SIZE);
    let kind = kind_of(head[4])?;
    let length = head[5] as usize;
    if length == 0 || rest.len() < length {
        return None;
    }
    let (name, behind) = rest.split_at(length);
    let inode = InodeNumber::new(LittleEndian::read_u32(head).into());
    Some((StoredRecord { name, inode, kind }, behind))
}
