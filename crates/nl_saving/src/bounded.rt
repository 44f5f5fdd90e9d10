//! Files of the system, each read no further than it has to be. What they hold is known to no contract.
ghost use Rattle.std.specs.Prelude.{◌≡◌, ◌++◌, IfErr, IfSome, OnOk, take};
ghost use Rattle.nl_saving.specs.Files.{IsUnread};

use crate::files::{FileFault, open_file, read_fault};
use nl_types::VolError;
use std::fs::OpenFile;
use std::io::Read;
use std::rt::Files;

/// How far a file is read, whose first bytes tell how long it has to be.
pub trait Reach {
    /// How many bytes more are read at most behind the first ones. `length` is how long the file is, where
    /// the system tells that.
    fn more(&self, first: &[u8], length: Option<u64>) -> u64;
}

/// The first bytes of a file.
#[derive(Drop)]
pub struct FirstBytes {
    pub bytes: Vec<u8>,
    /// How long the file is. None where the system doesn't tell that, as of a device or a pipe.
    pub length: Option<u64>,
}

/// At most so many bytes more of an input, put behind others.
///
/// # Errors
/// `Unread`; `Refused(Memory)`.
pub fn read_more<I: Read>(input: &mut I, bytes: &mut Vec<u8>, most: u64) -> Result<(), FileFault>
    ensures bytes { OnOk result (IfSome (I.remaining input.old)
        (λ left. bytes.new.items ≡ bytes.old.items ++ take most left)) }
    ensures refused { IfErr result IsUnread }
{
    let mut part = input.take(most);
    match part.read_to_end(bytes) {
        Ok(_) => Ok(()),
        Err(error) => Err(read_fault(&error)),
    }
}

/// How long a regular file is. None of another one.
fn told_length<F: OpenFile>(file: &F) -> Option<u64> {
    match file.metadata() {
        Ok(metadata) if metadata.is_file() => Some(metadata.len()),
        _ => None,
    }
}

/// Makes room for so many bytes at once, as a list that grows is copied time and again; but for no more than
/// a file has, and none where its length isn't told.
fn make_room(bytes: &mut Vec<u8>, more: u64, length: Option<u64>) -> Result<(), FileFault>
    ensures same { bytes.new.items ≡ bytes.old.items }
    ensures refused { IfErr result IsUnread }
{
    let room = more.min(length.unwrap_or(0));
    match bytes.reserve(usize::try_from(room).unwrap_or(usize::MAX)) {
        Ok(()) => Ok(()),
        Err(_) => Err(FileFault::Refused(VolError::Memory)),
    }
}

/// The first bytes of the file at a path: so many, and behind them as many as these let be read.
///
/// # Errors
/// `Unread` where it can't be read; `Refused(Memory)`.
pub fn read_within<R: AllocGlobal + Files, E: Reach>(
    rt: &R,
    path: &[u8],
    first: u64,
    reach: &E,
) -> Result<FirstBytes, FileFault>
    ensures refused { IfErr result IsUnread }
{
    let mut file = open_file(rt, path)?;
    let length = told_length(&file);
    let mut bytes = Vec::new(rt.alloc());
    read_more(&mut file, &mut bytes, first)?;
    let more = reach.more(bytes.as_slice(), length);
    make_room(&mut bytes, more, length)?;
    read_more(&mut file, &mut bytes, more)?;
    Ok(FirstBytes { bytes, length })
}

/// The first bytes of the file at a path, at most so many.
///
/// # Errors
/// `Unread` where it can't be read; `Refused(Memory)`.
pub fn read_first<R: AllocGlobal + Files>(
    rt: &R,
    path: &[u8],
    most: u64,
) -> Result<Vec<u8>, FileFault>
    ensures refused { IfErr result IsUnread }
{
    let mut file = open_file(rt, path)?;
    let mut bytes = Vec::new(rt.alloc());
    read_more(&mut file, &mut bytes, most)?;
    Ok(bytes)
}
