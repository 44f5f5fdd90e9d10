//! What the system refuses while a tree is laid out.
use crate::left_out::LeftOut;
use std::alloc::Global;
use std::io::{self, ErrorKind};

/// EIO of Linux, for which std has no kind.
const BAD_DEVICE: i32 = 5;

/// A path of the host that the system refused, and what it said.
#[derive(Drop)]
pub struct Refused {
    pub path: String,
    pub error: io::Error,
}

/// What came of a tree that was laid out, beside what no path of the host may have.
#[derive(Drop)]
pub struct Laid {
    /// What the system refused, each by its own path. Nothing below it was tried.
    pub refused: Vec<Refused>,
    /// What is there and has not all its attributes.
    pub unset: Vec<LeftOut>,
    /// How many entries are there.
    pub count: usize,
}

impl Laid {
    /// Nothing yet.
    pub fn new(alloc: Global) -> Laid {
        Laid {
            refused: Vec::new(alloc),
            unset: Vec::new(alloc),
            count: 0,
        }
    }
}

/// Whether the system would refuse each further file by this too: there is no room, the file system can't be
/// written to, the device fails, or memory is wanting.
pub(crate) fn is_of_all(error: &io::Error) -> bool {
    let is_known = matches!(
        error.kind(),
        ErrorKind::StorageFull
            | ErrorKind::QuotaExceeded
            | ErrorKind::ReadOnlyFilesystem
            | ErrorKind::OutOfMemory
    );
    is_known || error.raw_os_error() == Some(BAD_DEVICE)
}
