//! Files that saves of an image left beside it, since they were cut off.
use crate::complaining::complain;
use crate::faults::{Fault, system_fault};
use nl_keep_pen::OpenedVolume;
use nl_saving::{Leftover, Leftovers, SavePlace};
use nl_types::VolError;
use std::alloc::Global;
use std::io;
use std::path::Path;

/// More bytes than any image has.
const MOST_BYTES: u64 = 1 << 30;

/// What is to become of a file that a save left.
#[derive(Clone, Copy, PartialEq)]
enum Fate {
    Removed,
    /// It is a whole image, which an older version may have kept.
    Whole,
    /// It can't be read.
    Unread,
}

fn fate_of(alloc: Global, left: &mut Leftover) -> Fate {
    if left.size() > MOST_BYTES {
        return Fate::Removed;
    }
    let Ok(bytes) = left.read(alloc) else {
        return Fate::Unread;
    };
    match OpenedVolume::open(alloc, bytes.as_slice()) {
        Err(VolError::BadImage(_)) => Fate::Removed,
        Ok(_) => Fate::Whole,
        Err(_) => Fate::Unread,
    }
}

fn remove(rt: &HostRuntime, left: &Leftover) {
    let path = left.path.as_str();
    match left.remove(rt) {
        Ok(()) => complain(
            rt,
            format_args!("removed: {path}: left by a save that was cut off"),
        ),
        Err(error) => complain(rt, format_args!("{path}: cannot be removed: {error}")),
    }
}

fn clear_one(rt: &HostRuntime, left: &mut Leftover) {
    match fate_of(rt.alloc(), left) {
        Fate::Removed => remove(rt, left),
        Fate::Whole => {
            let path = left.path.as_str();
            complain(
                rt,
                format_args!(
                    "{path}: is a whole image, of a save that was cut off or a session that was kept: it stays"
                ),
            );
        }
        Fate::Unread => {
            let path = left.path.as_str();
            complain(rt, format_args!("{path}: cannot be read, and stays"));
        }
    }
}

/// Removes what was found, and tells each.
fn clear_all(rt: &HostRuntime, image: &str, left: Leftovers) {
    let Leftovers { files, has_locks } = left;
    for mut file in files {
        clear_one(rt, &mut file);
    }
    if !has_locks {
        complain(
            rt,
            format_args!(
                "{image}: files of saves that were cut off stay beside it, since there are no locks here"
            ),
        );
    }
}

/// What saves of an image and of its sum left beside it.
fn found(rt: &HostRuntime, place: &SavePlace<'_>, image: &str, sum: &str) -> io::Result<Leftovers> {
    let mut left = place.leftovers(rt, Path::new(image))?;
    let of_sum = place.leftovers(rt, Path::new(sum))?;
    for file in of_sum.files {
        left.files.push(file)?;
    }
    left.has_locks = left.has_locks && of_sum.has_locks;
    Ok(left)
}

/// Removes the files that saves of an image left beside it and its sum as they were cut off, under the
/// image's lock, and tells each. A whole image is told, and stays.
pub fn clear(rt: &HostRuntime, place: &SavePlace<'_>, image: &str, sum: &str) -> Result<(), Fault> {
    match found(rt, place, image, sum) {
        Ok(left) => {
            clear_all(rt, image, left);
            Ok(())
        }
        Err(error) => Err(system_fault(rt.alloc(), image, "cannot be written", &error)),
    }
}
