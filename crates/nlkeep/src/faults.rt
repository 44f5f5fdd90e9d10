//! Why a command is refused.
use nl_folders::FolderError;
use nl_keep::KeepError;
use nl_types::VolError;
use std::alloc::{AllocError, AllocFailed, Global};
use std::io;

/// The status of a command that is refused.
pub const REFUSED: u8 = 2;

/// The status of one that has changed something, and isn't done whole.
pub const PARTLY: u8 = 3;

/// What is said of a tree of the volume that is none. No volume has one.
pub const DISORDERED: &str = "has a tree that is not in order";

/// Why a command isn't done, or not whole.
#[derive(Drop)]
pub enum Fault {
    /// This is wrong. What the command is about stays as it was.
    Told(String),
    /// This is wrong with each of these, too.
    Listed(String, Vec<String>),
    /// There is no memory. All stays as it was.
    Memory,
    /// Standard output failed. All stays as it was.
    Output(io::Error),
    /// Standard output failed behind a change, and this is what was done.
    Behind(String, io::Error),
}

impl Fault {
    /// The program's status.
    pub fn status(&self) -> u8 {
        match self {
            Fault::Told(_) | Fault::Listed(_, _) | Fault::Memory | Fault::Output(_) => REFUSED,
            Fault::Behind(_, _) => PARTLY,
        }
    }
}

impl From<AllocError> for Fault {
    fn from(_: AllocError) -> Fault {
        Fault::Memory
    }
}

impl<T: Drop> From<AllocFailed<T>> for Fault {
    fn from(_: AllocFailed<T>) -> Fault {
        Fault::Memory
    }
}

impl From<io::Error> for Fault {
    fn from(error: io::Error) -> Fault {
        if error.kind() == io::ErrorKind::OutOfMemory {
            Fault::Memory
        } else {
            Fault::Output(error)
        }
    }
}

/// What is wrong, by a text for which memory may have lacked.
pub fn told(text: Result<String, AllocError>) -> Fault {
    match text {
        Ok(text) => Fault::Told(text),
        Err(_) => Fault::Memory,
    }
}

/// What is wrong with what stands at a path, or with a word.
pub fn fault_at(alloc: Global, path: &str, what: &str) -> Fault {
    told(format!(in alloc; "{path}: {what}"))
}

/// The same, with what the system says.
pub fn system_fault(alloc: Global, path: &str, what: &str, error: &io::Error) -> Fault {
    if error.kind() == io::ErrorKind::OutOfMemory {
        return Fault::Memory;
    }
    told(format!(in alloc; "{path}: {what}: {error}"))
}

/// What the volume of an image refuses.
pub fn volume_fault(alloc: Global, image: &str, error: VolError) -> Fault {
    match error {
        VolError::Memory => Fault::Memory,
        VolError::BadImage(_) => fault_at(
            alloc,
            image,
            "is no image of a volume, or a damaged one",
        ),
        VolError::NoSpace => fault_at(alloc, image, "is full"),
        _ => told(format!(in alloc; "{image}: {error}")),
    }
}

/// What is wrong with a tree of the volume of an image.
pub fn tree_fault(alloc: Global, image: &str, error: FolderError) -> Fault {
    match error {
        FolderError::Refused(error) => volume_fault(alloc, image, error),
        FolderError::Unread => fault_at(alloc, image, "cannot be read"),
        FolderError::Disordered => fault_at(alloc, image, DISORDERED),
    }
}

/// The same of a whole tree that is read.
pub fn read_fault(alloc: Global, image: &str, error: KeepError) -> Fault {
    match error {
        KeepError::Refused(error) => volume_fault(alloc, image, error),
        KeepError::Disordered => fault_at(alloc, image, DISORDERED),
    }
}
