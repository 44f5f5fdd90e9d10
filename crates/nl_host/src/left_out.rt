//! What is left out of a tree, and why.
use std::{fmt, io};

/// Why something below a folder isn't kept, or isn't laid out.
#[derive(Clone, Copy)]
pub enum Reason {
    /// It is a symbolic link, where none are kept. It isn't followed.
    Link,
    /// It is a symbolic link, and what it leads to isn't UTF-8.
    TargetNoText,
    /// It is a device, a socket or a pipe.
    Special,
    /// A name in this folder isn't UTF-8. The system doesn't tell which.
    NameNoText,
    /// Its path, or that of its manifest, has more bytes than one of a volume may have.
    LongPath,
    /// It can't be read.
    Unread,
    /// It can't be read, by the system's error of this number.
    Failed(i32),
    /// Something else came to stand there before it was read.
    Replaced,
    /// It has the name of a manifest.
    Reserved,
    /// It is the image, or its sum.
    Image,
    /// It is a file that a save left or kept beside the image or its sum.
    Side,
    /// It lies on another file system than the folder.
    OtherFileSystem,
    /// It lies on the file system of the host's /proc, /sys or /dev.
    System,
    /// It changed while it was read, twice. What was read is kept.
    Changed,
    /// The system doesn't set its owners.
    Owners,
    /// The system doesn't set its mode.
    Mode,
    /// The system doesn't set its time.
    Time,
}

impl Reason {
    /// Why something can't be read, by what the system says.
    pub fn of(error: &io::Error) -> Reason {
        match error.raw_os_error() {
            Some(number) => Reason::Failed(number),
            None => Reason::Unread,
        }
    }

    /// Whether what is left out for it lacks in what is kept. The image, its sum and other file systems don't.
    pub fn is_lack(self) -> bool {
        !matches!(
            self,
            Reason::Image | Reason::OtherFileSystem | Reason::System
        )
    }
}

impl fmt::Display for Reason {
    fn fmt<W: fmt::Write>(&self, f: &mut fmt::Formatter<W>) -> fmt::Result {
        if let Reason::Failed(number) = self {
            let error = io::Error::from_raw_os_error(*number);
            return write!(f, "cannot be read: {error}");
        }
        let text = match self {
            Reason::Link => "a symbolic link",
            Reason::TargetNoText => "a symbolic link to what is not UTF-8",
            Reason::Special => "a device, a socket or a pipe",
            Reason::NameNoText => "has a name in it that is not UTF-8",
            Reason::LongPath => "a path above 4095 bytes",
            Reason::Unread | Reason::Failed(_) => "cannot be read",
            Reason::Replaced => "something else came to stand there before it was read",
            Reason::Reserved => "a name that nlkeep keeps for itself",
            Reason::Image => "the image itself",
            Reason::Side => "a file that a save left beside the image",
            Reason::OtherFileSystem => "on another file system",
            Reason::System => "on the file system of /proc, /sys or /dev",
            Reason::Changed => "changed while it was read",
            Reason::Owners => "its owners, which cannot be set",
            Reason::Mode => "its mode, which cannot be set",
            Reason::Time => "its time, which cannot be set",
        };
        f.write_str(text)
    }
}

/// A path of the host of which something isn't as it should be.
#[derive(Drop)]
pub struct LeftOut {
    pub path: String,
    pub reason: Reason,
}

/// A file of the host that is greater than one of a volume may be.
#[derive(Drop)]
pub struct TooBig {
    pub path: String,
    /// In bytes.
    pub size: u64,
}
