//! The image of a volume, and what calls have left to be copied out.
ghost use Rattle.std.specs.Prelude.{◌≡◌, drop};
ghost use Rattle.nl_c.specs.Saving.{IsImageRead, IsImaged, IsPenImaged, released};

use crate::copying::copy_bytes;
use crate::held::no_manifest;
use crate::status::{CLOSED, DONE, UNSETTLED, error_number};
use crate::volume::Volume;
use nl_core::Pen;
use nl_device::MemDevice;
use nl_types::Items;
use std::alloc::Global;

/// The image of a volume without its mounts, which stay, or the number of the refusal.
fn image_of(pen: &mut Pen<MemDevice>) -> Result<Items<u8>, u32>
    ensures { IsPenImaged pen.old result pen.new }
{
    if pen.is_dirty() {
        return Err(UNSETTLED);
    }
    match pen.image_beside() {
        Ok(bytes) => Ok(Items::from_vec(bytes)),
        Err(error) => Err(error_number(error)),
    }
}

/// Leaves the image of a volume for `nlvol_image_read`, in the place of the last one. `size` gets how many
/// bytes it has.
///
/// Refused by 66 where the current tree may differ from the latest checkpoint: `nlvol_sync` makes one. Else
/// by 18.
#[unsafe(no_mangle)]
pub extern "C" fn nlvol_image(alloc: Global, volume: &mut Volume, size: &mut u64) -> u32
    ensures { IsImaged volume.old.place.held size.old result volume.new.place.held size.new }
{
    match volume.take(alloc) {
        None => CLOSED,
        Some(mut held) => match image_of(&mut held.pen) {
            Ok(image) => {
                *size = image.len() as u64;
                held.image = image;
                volume.put(held);
                DONE
            }
            Err(status) => {
                volume.put(held);
                status
            }
        },
    }
}

fn rest_from(bytes: &[u8], offset: u64) -> &[u8]
    ensures { result.now ≡ drop offset bytes.now }
{
    let offset = offset as usize;
    if offset < bytes.len() {
        &bytes[offset..]
    } else {
        &[]
    }
}

/// Bytes of the last image from an offset on, as many as there are and as the array has places for. `count`
/// gets how many.
#[unsafe(no_mangle)]
pub extern "C" fn nlvol_image_read(
    alloc: Global,
    volume: &mut Volume,
    offset: u64,
    into: &mut [u8],
    count: &mut u64,
) -> u32
    ensures told { IsImageRead volume.old.place.held offset into.old count.old result into.new count.new }
    ensures same { volume.new.place.held ≡ volume.old.place.held }
{
    match volume.take(alloc) {
        None => CLOSED,
        Some(held) => {
            *count = copy_bytes(rest_from(held.image.as_slice(), offset), into) as u64;
            volume.put(held);
            DONE
        }
    }
}

/// Frees what `nlvol_image`, `nlvol_list` and the calls on manifests have left.
#[unsafe(no_mangle)]
pub extern "C" fn nlvol_release(alloc: Global, volume: &mut Volume)
    ensures { volume.new.place.held ≡ released volume.old.place.held }
{
    if let Some(mut held) = volume.take(alloc) {
        held.image = Items::new(alloc);
        held.names = Items::new(alloc);
        held.manifest = no_manifest(alloc);
        volume.put(held);
    }
}
