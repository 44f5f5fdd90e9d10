//! A device in memory of which one call of each kind fails, by which tests see what the layers above do then.
ghost use Rattle.std.specs.Prelude.{◌≡◌, IfOk, IsOkUnless, replicate};
ghost use Rattle.nl_device.specs.Turns.{IsOver, turn_of, zeros_if};

use crate::device::{Device, DeviceError, Fault};
use crate::memory::MemDevice;
use crate::turn::Turn;
use nl_types::{BLOCK_SIZE, Block, BlockNumber, Page, Segment, VolError};
use std::alloc::{AllocError, Global};

/// A device in memory of which one put, one get and one growth fail. A torn put leaves zeros in the place of
/// the old page. It goes on behind a failure.
#[derive(Drop)]
pub struct FaultDevice {
    memory: MemDevice,
    put: Turn,
    get: Turn,
    grow: Turn,
    /// What a torn put leaves, until it has.
    zeros: Option<Page>,
}

fn zeros(alloc: Global) -> Result<Page, AllocError>
    ensures { IfOk result (λ page. page ≡ replicate 1024 0) }
{
    Page::new(alloc, Block::new([0; BLOCK_SIZE]))
}

/// A page of zeros, where one is wanted.
fn zeros_if(alloc: Global, wanted: bool) -> Result<Option<Page>, VolError>
    ensures zeros { IfOk result (λ page. page ≡ zeros_if wanted) }
    ensures refused { IsOkUnless result VolError.Memory }
{
    if wanted {
        let page = zeros(alloc)?;
        Ok(Some(page))
    } else {
        Ok(None)
    }
}

impl FaultDevice {
    ghost use Rattle.std.specs.Prelude.{◌*◌, ◌<◌, ◌≤◌, OnOk, OnErr, Some, is_err};
    ghost use Rattle.nl_device.specs.Memory.{memory_pages};
    ghost use Rattle.nl_device.specs.Pages.{KeepsOthers};
    ghost use Rattle.nl_device.specs.Turns.{HasTurned, left_of, turned};

    /// Over a device in memory, whose pages it keeps: the put and the get of these numbers fail, counted from
    /// 1 since it was made, and none does for 0. Refused by `Memory` alone; the device is dropped then.
    pub fn new(
        alloc: Global,
        memory: MemDevice,
        put: u64,
        get: u64,
        torn: bool,
    ) -> Result<FaultDevice, VolError>
        ensures over { IfOk result (IsOver memory put get torn) }
        ensures refused { IsOkUnless result VolError.Memory }
    {
        let zeros = zeros_if(alloc, torn)?;
        Ok(FaultDevice {
            memory,
            put: Turn::of(put),
            get: Turn::of(get),
            grow: Turn::Never,
            zeros,
        })
    }

    /// The growth of this number fails, counted from now on, and none does for 0.
    pub fn fail_growth(&mut self, number: u64)
        ensures { self.new ≡ record self.old { grow = turn_of number } }
    {
        self.grow = Turn::of(number);
    }

    // Puts a page, where the turn of the put that fails has not come.
    fn put_in_turn(&mut self, number: BlockNumber, page: Page) -> Result<(), Fault>
        requires { number < self.old.memory.geometry.segments * self.old.memory.geometry.blocks }
        ensures there { OnOk result (memory_pages self.new.memory number ≡ Some page) }
        ensures left { OnErr result (memory_pages self.new.memory number
            ≡ left_of self.old.zeros (memory_pages self.old.memory number)) }
        ensures others { KeepsOthers number (memory_pages self.old.memory) (memory_pages self.new.memory) }
        ensures turned { HasTurned self.old.put (is_err result) self.new.put }
        ensures failed { OnErr result (turned self.old.put < turned self.new.put) }
        ensures unfailed { OnOk result (turned self.new.put ≡ turned self.old.put) }
        ensures counted { turned self.old.put ≤ turned self.new.put }
        ensures gets { self.new.get ≡ self.old.get }
        ensures growths { self.new.grow ≡ self.old.grow }
        ensures shape { self.new.memory.geometry ≡ self.old.memory.geometry }
    {
        if self.put.comes() {
            if let Some(zeros) = self.zeros.take() {
                self.memory.set(number, zeros);
            }
            return Err(Fault);
        }
        self.memory.set(number, page);
        Ok(())
    }
}

impl Device for FaultDevice {
    ghost use Rattle.nl_device.specs.Memory.{memory_pages};
    ghost use Rattle.nl_device.specs.Turns.{failures_of};

    ghost pages = { λ d. memory_pages d.memory };

    ghost failed = { failures_of };

    ghost shape = { λ d. d.memory.geometry };

    fn put(&mut self, number: BlockNumber, page: Page) -> Result<(), Fault> {
        self.put_in_turn(number, page)
    }

    fn get(&mut self, number: BlockNumber) -> Result<Option<Page>, DeviceError> {
        if self.get.comes() {
            return Err(DeviceError::Fault);
        }
        self.memory.get(number)
    }

    fn clear(&mut self, segment: Segment) {
        self.memory.clear(segment);
    }

    fn grow(&mut self, segments: u32) -> Result<(), DeviceError> {
        if self.grow.comes() {
            return Err(DeviceError::Fault);
        }
        self.memory.grow(segments)
    }

    fn failures(&self) -> u64 {
        self.get.failures() + self.put.failures() + self.grow.failures()
    }
}
