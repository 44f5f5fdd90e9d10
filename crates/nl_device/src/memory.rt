//! A device in memory, which never fails.
ghost use Rattle.std.specs.Prelude.{◌≡◌, ℕ, ◌+◌, ◌*◌, ◌<◌, ◌≤◌, None, Some, IfOk, IsOkUnless, replicate, vec_len};
ghost use Rattle.nl_device.specs.Pages.{IsEmpty, KeepsOthers};

use crate::device::{Device, DeviceError, Fault};
use nl_types::{BlockNumber, Geometry, Page, Segment, VolError, empty_places};
use std::alloc::{AllocError, Global};

/// A device in memory. Its table has its full length from the start, and from each growth on.
#[derive(Drop)]
pub struct MemDevice {
    geometry: Geometry,
    blocks: Vec<Option<Page>>,
    ghost sized: { vec_len blocks ≡ geometry.segments * geometry.blocks },
}

/// So many blocks without a page.
fn empty_blocks(alloc: Global, total: usize) -> Result<Vec<Option<Page>>, AllocError>
    ensures { IfOk result (λ blocks. blocks.items ≡ replicate total None) }
{
    Ok(empty_places(alloc, total)?.into_vec())
}

impl MemDevice {
    ghost use Rattle.nl_device.specs.Memory.{memory_pages};

    /// An empty device, refused by `Memory` alone.
    pub fn new(alloc: Global, geometry: Geometry) -> Result<MemDevice, VolError>
        ensures empty { IfOk result (λ device. IsEmpty (memory_pages device)) }
        ensures shape { IfOk result (λ device. device.geometry ≡ geometry) }
        ensures refused { IsOkUnless result VolError.Memory }
    {
        let blocks = empty_blocks(alloc, geometry.total() as usize)?;
        Ok(MemDevice { geometry, blocks })
    }

    /// Puts a page at a number.
    pub(crate) fn set(&mut self, number: BlockNumber, page: Page)
        requires { number < self.old.geometry.segments * self.old.geometry.blocks }
        ensures there { memory_pages self.new number ≡ Some page }
        ensures others { KeepsOthers number (memory_pages self.old) (memory_pages self.new) }
        ensures shape { self.new.geometry ≡ self.old.geometry }
    {
        let at = number.get() as usize;
        self.blocks[at] = Some(page);
    }
}

impl Device for MemDevice {
    ghost use Rattle.nl_device.specs.Failures.{no_failures};
    ghost use Rattle.nl_device.specs.Memory.{memory_pages};

    ghost pages = { memory_pages };

    ghost failed = { λ _. no_failures };

    ghost shape = { λ d. d.geometry };

    fn put(&mut self, number: BlockNumber, page: Page) -> Result<(), Fault> {
        self.set(number, page);
        Ok(())
    }

    fn get(&mut self, number: BlockNumber) -> Result<Option<Page>, DeviceError> {
        let at = number.get() as usize;
        match &self.blocks[at] {
            None => Ok(None),
            Some(page) => match page.share() {
                Ok(page) => Ok(Some(page)),
                Err(_) => Err(DeviceError::Memory),
            },
        }
    }

    fn clear(&mut self, segment: Segment) {
        let blocks = self.geometry.blocks as usize;
        let from = segment.get() as usize * blocks;
        for at in from..from + blocks {
            self.blocks[at] = None;
        }
    }

    fn grow(&mut self, segments: u32) -> Result<(), DeviceError> {
        let more = (segments - self.geometry.segments) * self.geometry.blocks;
        let alloc = *self.blocks.allocator();
        let added = match empty_blocks(alloc, more as usize) {
            Ok(mut empty) => self.blocks.append(&mut empty),
            Err(refused) => Err(refused),
        };
        match added {
            Ok(()) => {
                self.geometry.segments = segments;
                Ok(())
            }
            Err(_) => Err(DeviceError::Memory),
        }
    }

    fn failures(&self) -> u64 {
        0
    }
}
