//! What the layers above know of a device.
ghost use Rattle.std.specs.Prelude.{◌≡◌, ◌*◌, ◌<◌, ◌≤◌, Some, OnOk, OnErr, IfOk, IsErrOf};
ghost use Rattle.nl_types.specs.declared.geometry.Geometry.{Geometry};
ghost use Rattle.nl_types.specs.Plain.Limits.{IsGeometry};
ghost use Rattle.nl_device.specs.Failures.{Failures, CountsReads, CountsWrites, FailsToRead, FailsToWrite, failure_count};
ghost use Rattle.nl_device.specs.Pages.{DevicePages, KeepsBelow, KeepsOthers, ClearsBlocks, SamePages};

use nl_types::{BlockNumber, Page, Segment};

/// A put failed, and the device has counted it.
#[derive(Clone, Copy)]
pub struct Fault;

/// Why a get was refused, or more segments were.
#[derive(Clone, Copy)]
pub enum DeviceError {
    /// The device failed, and has counted it.
    Fault,
    /// There is no memory to share the page, or for more blocks.
    Memory,
}

/// Blocks by number. A device gives back what was put, and counts its failures, those of gets apart from
/// those of puts and clears. It tells a put or a growth that failed by its answer, and a clear by the count
/// alone.
pub trait Device: Drop {
    /// The page at each block number, if there is one.
    ghost pages: { Self → DevicePages };

    /// How often the device has failed in its reads, and how often in its writes.
    ghost failed: { Self → Failures };

    /// How it is divided. Only more segments change it.
    ghost shape: { Self → Geometry };

    /// Puts a page at a number. Refused exactly where it failed; that block alone may differ then.
    fn put(&mut self, number: BlockNumber, page: Page) -> Result<(), Fault>
        requires { number < (shape self.old).segments * (shape self.old).blocks }
        ensures there { OnOk result (pages self.new number ≡ Some page) }
        ensures others { KeepsOthers number (pages self.old) (pages self.new) }
        ensures failed { OnErr result (FailsToWrite (failed self.old) (failed self.new)) }
        ensures unfailed { OnOk result (failed self.new ≡ failed self.old) }
        ensures counted { CountsWrites (failed self.old) (failed self.new) }
        ensures shape { shape self.new ≡ shape self.old };

    /// The page at a number, or none where none was put.
    fn get(&mut self, number: BlockNumber) -> Result<Option<Page>, DeviceError>
        requires { number < (shape self.old).segments * (shape self.old).blocks }
        ensures found { IfOk result (λ page. page ≡ pages self.old number) }
        ensures failed { IsErrOf result DeviceError.Fault → FailsToRead (failed self.old) (failed self.new) }
        ensures same { SamePages (pages self.old) (pages self.new) }
        ensures counted { CountsReads (failed self.old) (failed self.new) }
        ensures shape { shape self.new ≡ shape self.old };

    /// Empties a segment.
    fn clear(&mut self, segment: Segment)
        requires { segment < (shape self.old).segments }
        ensures cleared { ClearsBlocks (segment * (shape self.old).blocks) (shape self.old).blocks
            (pages self.old) (pages self.new) }
        ensures counted { CountsWrites (failed self.old) (failed self.new) }
        ensures shape { shape self.new ≡ shape self.old };

    /// Makes it a device of so many segments of the same size, and keeps its pages. Of the new blocks nothing
    /// is promised. Refused, by `Fault` exactly where it failed, it stays as it is.
    fn grow(&mut self, segments: u32) -> Result<(), DeviceError>
        requires more { (shape self.old).segments ≤ segments }
        requires limits { IsGeometry segments (shape self.old).blocks }
        ensures grown { OnOk result ((shape self.new).segments ≡ segments) }
        ensures stays { OnErr result (shape self.new ≡ shape self.old) }
        ensures same { OnErr result (SamePages (pages self.old) (pages self.new)) }
        ensures blocks { (shape self.new).blocks ≡ (shape self.old).blocks }
        ensures pages { KeepsBelow ((shape self.old).segments * (shape self.old).blocks)
            (pages self.old) (pages self.new) }
        ensures failed { IsErrOf result DeviceError.Fault → FailsToWrite (failed self.old) (failed self.new) }
        ensures unfailed { OnOk result (failed self.new ≡ failed self.old) }
        ensures untried { IsErrOf result DeviceError.Memory → failed self.new ≡ failed self.old }
        ensures counted { CountsWrites (failed self.old) (failed self.new) };

    /// How often the device has failed.
    fn failures(&self) -> u64
        ensures { result ≡ failure_count (failed self.now) };
}
