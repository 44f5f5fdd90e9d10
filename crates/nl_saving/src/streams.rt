//! The standard streams, of which each has a file before another one is opened.

use std::fs::{File, OpenOptions};
use std::io;
use std::os::fd::AsRawFd;
use std::rt::Files;

/// How many standard streams there are.
const STREAMS: u8 = 3;

/// The number of standard error, the last one of them.
const LAST_STREAM: i32 = 2;

/// What stands in the place of the standard streams that the program began without. A new file gets the
/// lowest free number: so without these one that is opened later would be such a stream, and get what the
/// program prints, or be read as its script. Held until the program ends.
#[derive(Drop)]
pub struct StandIns {
    held: Vec<File>,
}

/// The device that holds nothing, open to be read and written.
fn open_nothing<R: Files<File = File>>(files: &R) -> io::Result<File> {
    let mut how = OpenOptions::new();
    let _ = how.read(true);
    let _ = how.write(true);
    how.open(files, "/dev/null")
}

impl StandIns {
    /// Opens /dev/null in the place of each standard stream that is closed. To be called before any file is
    /// opened.
    ///
    /// # Errors Where it can't be opened, and where there is no memory.
    pub fn take<R: AllocGlobal + Files<File = File>>(rt: &R) -> io::Result<StandIns> {
        let mut held = Vec::new(rt.alloc());
        for _ in 0..STREAMS {
            let file = open_nothing(rt)?;
            if file.as_raw_fd() > LAST_STREAM {
                break;
            }
            held.push(file)?;
        }
        Ok(StandIns { held })
    }
}
