//! Volumes in memory: new ones, and those of images.
use nl_core::{Pen, geometry_of, open};
use nl_device::{Device, MemDevice};
use nl_types::{Geometry, VolError};
use std::alloc::Global;

/// A pen on a new volume of so many segments with so many blocks each.
pub(crate) fn new_pen(
    alloc: Global,
    segments: u32,
    blocks: u32,
) -> Result<Pen<MemDevice>, VolError> {
    let geometry = Geometry::new(segments, blocks)?;
    let device = MemDevice::new(alloc, geometry)?;
    Pen::format(alloc, device, geometry, 0)
}

/// The pen of an image.
pub(crate) fn opened(alloc: Global, image: &[u8]) -> Result<Pen<MemDevice>, VolError> {
    let geometry = geometry_of(image)?;
    let device = MemDevice::new(alloc, geometry)?;
    open(alloc, image, device)
}

/// The image of a pen. One that is dirty or has mounts isn't closed.
pub(crate) fn closed<D: Device>(pen: &mut Pen<D>) -> Result<Vec<u8>, VolError> {
    if pen.is_dirty() || pen.mount_count() > 0 {
        return Err(VolError::Mounted);
    }
    pen.close()
}
