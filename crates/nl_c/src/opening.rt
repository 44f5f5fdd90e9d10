//! Volumes are opened and closed.
ghost use Rattle.std.specs.Prelude.{◌≡◌, ◌⊎◌, None, IfErr, IfOk};
ghost use Rattle.nl_core.specs.Opened.{IsOpenRefusal};
ghost use Rattle.nl_c.specs.Openings.{BecomesNew, BecomesOpened, HoldsPen, IsMemoryOrFault, IsNewPen, IsOpenedPen, LeadsTo, StaysBy};
ghost use Rattle.nl_c.specs.Statuses.{version};

use crate::held::{Held, no_manifest};
use crate::status::{DONE, MEMORY, error_number};
use crate::volume::Volume;
use nl_core::{Pen, geometry_of, open};
use nl_device::MemDevice;
use nl_types::{Geometry, Items, VolError};
use std::alloc::Global;

/// The version of the library: 65536 times the first number, 256 times the second, and the third.
#[unsafe(no_mangle)]
pub extern "C" fn nlvol_version() -> u32
    ensures { result ≡ version }
{
    256
}

/// A new volume in memory.
fn new_pen(alloc: Global, geometry: Geometry, moment: u64) -> Result<Pen<MemDevice>, VolError>
    ensures made { IfOk result (IsNewPen geometry moment) }
    ensures refused { IfErr result IsMemoryOrFault }
{
    let device = MemDevice::new(alloc, geometry)?;
    Pen::format(alloc, device, geometry, moment)
}

/// The volume of an image, on a device in memory.
fn opened_pen(alloc: Global, image: &[u8]) -> Result<Pen<MemDevice>, VolError>
    ensures opened { IfOk result (IsOpenedPen image.now) }
    ensures refused { IfErr result (IsOpenRefusal image.now) }
{
    let geometry = geometry_of(image)?;
    let device = MemDevice::new(alloc, geometry)?;
    let pen = open(alloc, image, device)?;
    Ok(pen)
}

/// Lets a handle lead to a volume. What it led to before is freed. Without memory it stays as it was.
fn hold(alloc: Global, volume: &mut Volume, pen: Pen<MemDevice>) -> u32
    ensures { HoldsPen volume.old.place.held pen result volume.new.place.held }
{
    let held = Held {
        pen,
        image: Items::new(alloc),
        names: Items::new(alloc),
        manifest: no_manifest(alloc),
    };
    match Box::new(alloc, held) {
        Ok(held) => {
            let old = volume.take(alloc);
            drop(old);
            volume.put(held);
            DONE
        }
        Err(_) => MEMORY,
    }
}

/// Lets a handle lead to a new volume.
#[tactic(auto, using(crate::proofs::Openings::held_such))]
fn hold_new(alloc: Global, volume: &mut Volume, geometry: Geometry, moment: u64) -> u32
    ensures { LeadsTo (IsNewPen geometry moment) result volume.new.place.held
        ⊎ StaysBy IsMemoryOrFault volume.old.place.held result volume.new.place.held }
{
    match new_pen(alloc, geometry, moment) {
        Ok(pen) => hold(alloc, volume, pen),
        Err(error) => error_number(error),
    }
}

/// A new volume of so many segments, with so many blocks in each, and checkpoint 1 of the root alone. The
/// moment is in whole seconds. What the handle led to before is closed.
///
/// Refused by 26 where no volume has this geometry, and by 18; the handle is as it was then.
#[unsafe(no_mangle)]
pub extern "C" fn nlvol_format(
    alloc: Global,
    volume: &mut Volume,
    segments: u32,
    blocks: u32,
    moment: u64,
) -> u32
    ensures { BecomesNew segments blocks moment volume.old.place.held result volume.new.place.held }
{
    match Geometry::new(segments, blocks) {
        Ok(geometry) => hold_new(alloc, volume, geometry, moment),
        Err(error) => error_number(error),
    }
}

/// The volume of an image. What the handle led to before is closed.
///
/// Refused by 24, with the number of the first condition that the bytes fail 256 times above it, and by 18;
/// the handle is as it was then.
#[unsafe(no_mangle)]
#[tactic(auto, using(crate::proofs::Openings::held_such))]
pub extern "C" fn nlvol_open(alloc: Global, volume: &mut Volume, image: &[u8]) -> u32
    ensures { BecomesOpened image.now volume.old.place.held result volume.new.place.held }
{
    match opened_pen(alloc, image) {
        Ok(pen) => hold(alloc, volume, pen),
        Err(error) => error_number(error),
    }
}

/// Closes a handle, and frees what it led to. Of a closed one it does nothing.
#[unsafe(no_mangle)]
pub extern "C" fn nlvol_close(alloc: Global, volume: &mut Volume)
    ensures { volume.new.place.held ≡ None }
{
    let held = volume.take(alloc);
    drop(held);
}
