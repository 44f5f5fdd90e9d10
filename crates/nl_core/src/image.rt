//! Volumes opened of images.
ghost use Rattle.std.specs.Prelude.{◌≡◌, ◌⊎◌, IfErr, IfOk, OnErr, List, ℕ, length};
ghost use Rattle.nl_types.specs.Blocks.Segments.{HaveLogs, total_blocks};
ghost use Rattle.nl_segwriter.specs.Images.{HoldLogs, page_in};
ghost use Rattle.nl_segwriter.specs.Images as spaces;
ghost use Rattle.nl_dat.specs.Images.{IsTableOver};
ghost use Rattle.nl_image.specs.Conditions.{AreImage, IsShapeOf, MeetsFirst};
ghost use Rattle.nl_image.specs.Parts.{Parts, with_present_mark};
ghost use Rattle.nl_image.specs.Reading.{CanBeRestored, HaveOwn, IsReadImage};
ghost use Rattle.nl_commit.specs.Layout.{IsPen};
ghost use Rattle.nl_core.specs.Opened.{IsAtRest, IsOpenRefusal, IsRestoredStore};
ghost use Rattle.nl_core.specs.PenImages.{IsPenImage};

use crate::pen::Pen;
use nl_cpfile::Checkpoints;
use nl_dat::{Dat, DatEntry};
use nl_device::Device;
use nl_events::Tables;
use nl_image::{ReadImage, read_image};
use nl_reclaim::NeededCounts;
use nl_segwriter::{LogSpace, Restored};
use nl_sufile::SegTable;
use nl_types::{Items, VolError};
use std::alloc::Global;

/// The volume whose image these bytes are, on a device of its geometry. It is closed to the same bytes, but
/// for the mark where that is the first one. What the device holds is no part of it. Refused by `BadImage`
/// with the number of the first condition that the bytes fail, by `Memory`, and by `Fault` where the bytes
/// are an image and the device failed; the device is dropped then. Where it is opened, no put failed.
pub fn open<D: Device>(alloc: Global, bytes: &[u8], device: D) -> Result<Pen<D>, VolError>
    requires shape { (p : Parts) → MeetsFirst 2 bytes.now p → IsShapeOf (D.shape device) p.shape }
    ensures accepted { IfOk result (λ _. AreImage bytes.now) }
    ensures rest { IfOk result (λ pen. IsAtRest pen.lists) }
    ensures pen { IfOk result IsPen }
    ensures image { IfOk result (λ pen. IsPenImage pen (with_present_mark bytes.now)) }
    ensures unfailed { IfOk result (λ pen. pen.store.failed ≡ D.failed device) }
    ensures refused { IfErr result (IsOpenRefusal bytes.now) }
{
    let read = read_image(alloc, bytes)?;
    let pen = open_read(alloc, read, device)?;
    Ok(pen)
}

/// The volume of what was read of an image.
fn open_read<D: Device>(alloc: Global, read: ReadImage, device: D) -> Result<Pen<D>, VolError>
    requires shape { spaces.IsTableShapeOf (D.shape device) read.segments }
    requires restores { CanBeRestored read }
    requires image { (bytes : List ℕ) × IsReadImage bytes read }
    ensures rest { IfOk result (λ pen. IsAtRest pen.lists) }
    ensures pen { IfOk result IsPen }
    ensures image { (bytes : List ℕ) → IsReadImage bytes read
        → IfOk result (λ pen. IsPenImage pen (with_present_mark bytes)) }
    ensures unfailed { IfOk result (λ pen. pen.store.failed ≡ D.failed device) }
    ensures refused { IfErr result (λ e. (e ≡ VolError.Fault) ⊎ (e ≡ VolError.Memory)) }
{
    // Of the latest one's inodes one is the root's.
    crate::laws::checked_checkpoints_have_inodes();
    nl_image::laws::images_are_spelled();
    crate::laws::opened_images_are_pens();
    let ReadImage {
        segments,
        kept,
        numbers,
        logs,
        ..
    } = read;
    let checkpoints = Checkpoints::from_entries(alloc, kept.as_slice())?;
    let store = restore_store(device, segments, logs, numbers)?;
    let tables = Tables::opened(alloc, checkpoints);
    let needed = NeededCounts::of_store(alloc, &store, &tables)?;
    let parts = nl_events::Parts {
        alloc,
        tables,
        store,
        needed,
    };
    Ok(Pen::of_parts(parts))
}

/// The store of an image, on a device of its geometry.
fn restore_store<D: Device>(
    device: D,
    segments: SegTable,
    logs: Restored,
    numbers: Items<Option<DatEntry>>,
) -> Result<Dat<LogSpace<D>>, VolError>
    requires shape { spaces.IsTableShapeOf (D.shape device) segments }
    requires pages { length logs.pages ≡ total_blocks segments }
    requires logs { HoldLogs segments (page_in logs.pages) logs.payload }
    requires have_logs { HaveLogs segments }
    requires over { IsTableOver numbers segments }
    requires own { HaveOwn numbers logs.payload }
    ensures restored { IfOk result (λ dat. IsRestoredStore segments logs numbers dat.store) }
    ensures unfailed { IfOk result (λ dat. dat.store.failed ≡ D.failed device) }
    ensures refused { OnErr result (result ≡ Err VolError.Fault) }
{
    match LogSpace::restore(device, segments, logs) {
        Ok(space) => {
            let store = Dat::restore(space, numbers)?;
            Ok(store)
        }
        Err(_) => Err(VolError::Fault),
    }
}
