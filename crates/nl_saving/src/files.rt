//! Files of the system, each read whole. What they hold is known to no contract.
ghost use Rattle.std.specs.Prelude.{◌≡◌, ◌⊎◌, IfErr, IfOk, IfSome};
ghost use Rattle.nl_saving.specs.Files.{IsUnread};

use nl_types::VolError;
use std::alloc::Global;
use std::fs::OpenFile;
use std::io::{ErrorKind, Read};
use std::rt::Files;
use std::{fs, io, str};

/// Why what a file is to hold isn't there.
#[derive(Clone, Copy)]
pub enum FileFault {
    /// The file can't be read.
    Unread,
    /// What it holds is refused, or there is no memory for it.
    Refused(VolError),
}

/// A read that fails for want of memory isn't the file's fault.
pub(crate) fn read_fault(error: &io::Error) -> FileFault
    ensures { (result ≡ FileFault.Unread) ⊎ (result ≡ FileFault.Refused VolError.Memory) }
{
    if error.kind() == ErrorKind::OutOfMemory {
        return FileFault::Refused(VolError::Memory);
    }
    FileFault::Unread
}

/// All that an input has left.
pub fn read_all<I: Read>(alloc: Global, input: &mut I) -> Result<Vec<u8>, FileFault>
    ensures bytes { IfOk result (λ bytes. IfSome (I.remaining input.old) (λ left. bytes.items ≡ left)) }
    ensures refused { IfErr result IsUnread }
{
    let mut bytes = Vec::new(alloc);
    match input.read_to_end(&mut bytes) {
        Ok(_) => Ok(bytes),
        Err(error) => Err(read_fault(&error)),
    }
}

/// The file at a path, open to be read.
pub fn open_file<R: Files>(files: &R, path: &[u8]) -> Result<R::File, FileFault>
    ensures refused { IfErr result IsUnread }
{
    let Ok(path) = str::from_utf8(path) else {
        return Err(FileFault::Unread);
    };
    match fs::open(files, path) {
        Ok(file) => Ok(file),
        Err(error) => Err(read_fault(&error)),
    }
}

/// How long a file is, where that is told.
fn length_of<F: OpenFile>(file: &F) -> u64 {
    match file.metadata() {
        Ok(metadata) => metadata.len(),
        Err(_) => 0,
    }
}

/// All that the file at a path holds.
///
/// # Errors
/// `Unread` where it can't be read; `Refused(Memory)`.
pub fn read_file<R: AllocGlobal + Files>(rt: &R, path: &[u8]) -> Result<Vec<u8>, FileFault>
    ensures refused { IfErr result IsUnread }
{
    let mut file = open_file(rt, path)?;
    // Room for all of it is made at once, as a list that grows is copied time and again.
    let room = usize::try_from(length_of(&file)).unwrap_or(usize::MAX);
    let Ok(mut bytes) = Vec::with_capacity(rt.alloc(), room) else {
        return Err(FileFault::Refused(VolError::Memory));
    };
    match file.read_to_end(&mut bytes) {
        Ok(_) => Ok(bytes),
        Err(error) => Err(read_fault(&error)),
    }
}
