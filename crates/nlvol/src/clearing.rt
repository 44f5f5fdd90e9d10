//! Files that saves left beside the file of an image, since they were cut off.
use nl_core::{geometry_of, open};
use nl_device::MemDevice;
use nl_saving::{Leftover, Leftovers, SavePlace, behind_links};
use nl_types::VolError;
use std::alloc::Global;
use std::fs::File;
use std::io::Eprint;
use std::rt::Files;
use std::{io, str};

/// More bytes than any image has.
const MOST_BYTES: u64 = 1 << 30;

/// Sees to it that bytes are an image.
fn judge(alloc: Global, bytes: &[u8]) -> Result<(), VolError> {
    let geometry = geometry_of(bytes)?;
    let device = MemDevice::new(alloc, geometry)?;
    drop(open(alloc, bytes, device)?);
    Ok(())
}

/// Whether a file is no image. Where that can't be told it isn't known to be none.
fn is_none(alloc: Global, left: &mut Leftover) -> bool {
    if left.size() > MOST_BYTES {
        return true;
    }
    match left.read(alloc) {
        Ok(bytes) => matches!(judge(alloc, bytes.as_slice()), Err(VolError::BadImage(_))),
        Err(_) => false,
    }
}

/// Removes a file that a save left, and tells that. A whole image may be a session that an older version
/// kept.
fn clear_one<R: AllocGlobal + Files + Eprint>(rt: &R, left: &mut Leftover) {
    let is_none = is_none(rt.alloc(), left);
    let path = left.path.as_str();
    if !is_none {
        let _ = eprintln!(rt; "{path}: is an image that a save left, and stays");
    } else if left.remove(rt).is_ok() {
        let _ = eprintln!(rt; "{path}: is removed: a save that was cut off left it");
    }
}

fn clear_all<R: AllocGlobal + Files + Eprint>(rt: &R, path: &str, left: Leftovers) {
    let Leftovers { files, has_locks } = left;
    for mut file in files {
        clear_one(rt, &mut file);
    }
    if !has_locks {
        let _ = eprintln!(rt; "{path}: there are no locks here: files that saves left stay");
    }
}

fn found<R: AllocGlobal + Files<File = File>>(
    rt: &R,
    place: &SavePlace<'_>,
    path: &str,
) -> io::Result<Leftovers> {
    let target = behind_links(rt, path)?;
    place.leftovers(rt, target.as_path())
}

/// Removes the files that saves left beside the file of a place, under its lock, and tells each. A whole
/// image stays. Where they can't be looked at, that shows when the place is saved.
pub fn clear<R: AllocGlobal + Files<File = File> + Eprint>(rt: &R, place: &SavePlace<'_>) {
    let Ok(path) = str::from_utf8(place.path) else {
        return;
    };
    if let Ok(left) = found(rt, place, path) {
        clear_all(rt, path, left);
    }
}
