//! `init`: an image of a new volume.
ghost use Rattle.std.specs.Prelude.{◌≡◌, IfErr, IsOk, OnErr};
ghost use Rattle.nl_backups.specs.Commands.{Makes};
ghost use Rattle.nl_backups.specs.Refusals.{RefusesInit};

use crate::hosts::Place;
use crate::refusals::Refusal;
use nl_keep_pen::format_image;
use nl_types::Geometry;
use std::alloc::Global;

/// Puts the image of a new volume in its place, with checkpoint 1 of an empty folder. The moment is in whole
/// seconds. Refused, what stood there is as it was.
///
/// # Errors
/// `Host` where the host doesn't take the image; `Volume(Memory)`. No caller sees `Fault`.
pub fn init<P: Place>(
    alloc: Global,
    place: &mut P,
    geometry: Geometry,
    moment: u64,
) -> Result<(), Refusal>
    ensures done { IsOk result → Makes moment (P.image place.new) }
    ensures stays { OnErr result (P.image place.new ≡ P.image place.old) }
    ensures refused { IfErr result RefusesInit }
{
    let image = format_image(alloc, geometry, moment)?;
    place.save(image.as_slice())?;
    Ok(())
}
