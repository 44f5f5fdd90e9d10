//! The image of a volume: read, opened, and saved again.
use crate::asking::Outcome;
use crate::clearing::clear;
use crate::faults::{Fault, fault_at, system_fault, told, volume_fault};
use crate::image_files::{Purpose, read_for};
use crate::sums::PlannedSum;
use nl_keep_pen::OpenedVolume;
use nl_saving::{InUse, SavePlace, Saved, SideNames, side_names};
use std::alloc::{AllocError, Global};
use std::fs::File;
use std::io::ErrorKind;
use std::path::Path;
use std::rt::Files;

/// The bytes of an image that is to be opened. Of a file that hasn't the length of one there are so many that
/// they fail the same condition.
pub fn read_image<R: AllocGlobal + Files>(rt: &R, path: &str) -> Result<Vec<u8>, Fault> {
    let read = read_for(rt, path, Purpose::Opening)?;
    Ok(read.bytes)
}

/// The volume of an image. `path` is where that stands.
pub fn open_image(alloc: Global, path: &str, image: &[u8]) -> Result<OpenedVolume, Fault> {
    match OpenedVolume::open(alloc, image) {
        Ok(volume) => Ok(volume),
        Err(error) => Err(volume_fault(alloc, path, error)),
    }
}

/// The place where an image is saved in the end, for this program alone.
pub fn take_place<'a, R: AllocGlobal + Files<File = File>>(
    rt: &R,
    path: &'a str,
) -> Result<SavePlace<'a>, Fault> {
    match SavePlace::take(rt, path.as_bytes()) {
        Ok(place) => Ok(place),
        Err(InUse) => Err(fault_at(rt.alloc(), path, "is in use by another program")),
    }
}

/// Puts an image in its place, whole or not at all, and then its sum beside it. Answers whether that was left
/// out, which is told.
pub fn save_image(
    rt: &HostRuntime,
    path: &str,
    place: &mut SavePlace<'_>,
    image: &[u8],
) -> Result<Outcome, Fault> {
    let sum = PlannedSum::of(rt, path, image)?;
    clear(rt, place, sum.image.as_str(), sum.path.as_str())?;
    save_with(rt, path, place, image, &sum)
}

fn save_with(
    rt: &HostRuntime,
    path: &str,
    place: &mut SavePlace<'_>,
    image: &[u8],
    sum: &PlannedSum,
) -> Result<Outcome, Fault> {
    match place.save(rt, image) {
        Ok(Saved::There) => Ok(sum.save(rt)),
        Ok(Saved::Beside(side)) => Err(changed_fault(rt.alloc(), path, side.as_str())),
        Err(error) if error.kind() == ErrorKind::AlreadyExists => {
            Err(taken_fault(rt.alloc(), path, sum.image.as_path())?)
        }
        Err(error) => Err(system_fault(rt.alloc(), path, "cannot be written", &error)),
    }
}

fn changed_fault(alloc: Global, path: &str, side: &str) -> Fault {
    told(format!(in alloc; "{path}: was changed by another program: this volume is in {side}"))
}

/// No name is free for the new file of an image.
fn taken_fault(alloc: Global, path: &str, image: Path<'_>) -> Result<Fault, AllocError> {
    let SideNames { first, last } = side_names(alloc, image.file_name().unwrap_or(""))?;
    Ok(told(format!(in alloc;
        "{path}: cannot be written: beside it stand {first} to {last}: \
         move away those that are worth keeping, and remove the others"
    )))
}
