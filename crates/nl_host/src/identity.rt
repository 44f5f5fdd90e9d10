//! What tells one file of the host from another.
ghost use Rattle.std.specs.Prelude.{◌≡◌, is_ok};

use std::fs::Metadata;
use std::os::unix::fs::MetadataExt;
use std::rt::Files;
use std::{fs, io};

/// The system's number for what isn't there.
const NOT_THERE: i32 = 2;

/// The system's number for what is no folder.
const NO_FOLDER: i32 = 20;

/// What tells one file of the host from another, by whatever names both are reached.
#[derive(Clone, Copy)]
pub struct Identity {
    pub device: u64,
    pub inode: u64,
}

/// The error where something else stands than is meant.
pub(crate) fn not_there() -> io::Error {
    io::Error::from_raw_os_error(NOT_THERE)
}

impl Identity {
    ghost use Rattle.nl_host.specs.Identities.{is_same};

    /// That of what the system tells of.
    pub fn of(metadata: &Metadata) -> Identity {
        Identity {
            device: metadata.dev(),
            inode: metadata.ino(),
        }
    }

    /// That of the folder at a path. A link isn't followed.
    ///
    /// # Errors
    /// Those of the system, and `NotADirectory` for a link and a file.
    pub(crate) fn of_folder<R: Files>(files: &R, path: &str) -> io::Result<Identity> {
        let told = fs::symlink_metadata(files, path)?;
        if told.is_dir() {
            Ok(Identity::of(&told))
        } else {
            Err(io::Error::from_raw_os_error(NO_FOLDER))
        }
    }

    /// Whether it is one file with another: the same device has the same inode.
    pub fn is_same(self, other: Identity) -> bool
        ensures { result ≡ is_same self other }
    {
        self.device == other.device && self.inode == other.inode
    }

    /// Sees to it that it is the one that is meant.
    ///
    /// # Errors
    /// `NotFound` where it is another one.
    pub(crate) fn expect(self, meant: Identity) -> io::Result<()>
        ensures { is_ok result ≡ is_same self meant }
    {
        if self.is_same(meant) {
            Ok(())
        } else {
            Err(not_there())
        }
    }
}
