//! `init`: a new volume in a new file.
use crate::asking::{Clock, Outcome, moment, segments, word};
use crate::faults::{Fault, fault_at, system_fault, volume_fault};
use crate::hosting::LockedImage;
use crate::sizes::BLOCKS;
use clap::ArgMatches;
use nl_keep_pen::format_image;
use nl_types::{Geometry, VolError};
use std::alloc::Global;
use std::fs;
use std::io::ErrorKind;

/// How many segments a volume has where nothing is said: 8 MiB.
const DEFAULT: u32 = 128;

/// The image of a new volume of so many segments of so many blocks.
pub fn new_image(
    alloc: Global,
    segments: u32,
    blocks: u32,
    moment: u64,
) -> Result<Vec<u8>, VolError> {
    let geometry = Geometry::new(segments, blocks)?;
    format_image(alloc, geometry, moment)
}

/// Sees to it that nothing stands where an image is to be made.
fn judge_new(rt: &HostRuntime, path: &str) -> Result<(), Fault> {
    match fs::symlink_metadata(rt, path) {
        Ok(_) => Err(fault_at(rt.alloc(), path, "is there already")),
        Err(error) if error.kind() == ErrorKind::NotFound => Ok(()),
        Err(error) => Err(system_fault(rt.alloc(), path, "cannot be made", &error)),
    }
}

/// How a new volume is divided.
fn geometry_said(rt: &HostRuntime, matches: &ArgMatches<'_>) -> Result<Geometry, Fault> {
    let segments = segments(rt, matches, "size", DEFAULT)?;
    match Geometry::new(segments, BLOCKS) {
        Ok(geometry) => Ok(geometry),
        Err(error) => Err(volume_fault(rt.alloc(), word(matches, "IMAGE"), error)),
    }
}

/// Makes a volume. A file that is there is left alone.
pub fn init(
    rt: &HostRuntime,
    matches: &ArgMatches<'_>,
    clock: &Clock<'_>,
) -> Result<Outcome, Fault> {
    let mut image = LockedImage::take(rt, word(matches, "IMAGE"))?;
    judge_new(rt, image.path)?;
    let geometry = geometry_said(rt, matches)?;
    let moment = moment(rt, matches, clock.now)?;
    match nl_backups::init(rt.alloc(), &mut image, geometry, moment) {
        Ok(()) => Ok(image.outcome),
        Err(refusal) => Err(image.fault_of(None, refusal)),
    }
}
