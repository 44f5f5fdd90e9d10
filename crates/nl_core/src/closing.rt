//! The image of a volume that is closed.
ghost use Rattle.std.specs.Prelude.{◌≡◌, ◌<◌, ◌≤◌, IfErr, IfOk, IsErrOf};
ghost use Rattle.nl_types.specs.declared.error.VolError;
ghost use Rattle.nl_types.specs.Blocks.Roots.{pages_of};
ghost use Rattle.nl_vstore.specs.Appended.{IsLoadError};
ghost use Rattle.nl_vstore.specs.Stores.{KeepsStored, content_in};
ghost use Rattle.nl_cpfile.specs.Tables as tables;
ghost use Rattle.nl_image.specs.StoreImages.{IsSizedEntry};
ghost use Rattle.nl_core.specs.Private.Closed.{AreSized, HasSize, HaveSizes};
ghost use Rattle.nl_core.specs.PenImages.{IsPenImage};

use nl_check::size_of_blocks;
use nl_cpfile::{Checkpoint, Checkpoints};
use nl_dat::Dat;
use nl_events::Parts;
use nl_image::write_image;
use nl_layout::CheckpointEntry;
use nl_reclaim::counting_laws;
use nl_types::VolError;
use nl_vstore::{Space, Vstore};
use std::alloc::Global;

/// The entry of a checkpoint, with the size of its file of inodes. Refused by `Memory` alone.
fn sized_entry<V: Vstore>(
    alloc: Global,
    store: &V,
    checkpoint: &Checkpoint,
) -> Result<CheckpointEntry, VolError>
    requires { HasSize (pages_of (content_in (V.store store.now))) checkpoint.now }
    ensures entry { IfOk result
        (IsSizedEntry (pages_of (content_in (V.store store.now))) checkpoint.now) }
    ensures refused { IfErr result (λ e. e ≡ VolError.Memory) }
{
    let Some(size) = size_of_blocks(alloc, store, store.capacity(), &checkpoint.root)? else {
        unreachable!();
    };
    Ok(checkpoint.entry(size))
}

/// The entries of checkpoints, with room for one more. Refused by `Memory` alone.
fn entries_of<V: Vstore>(
    alloc: Global,
    store: &V,
    kept: &[Checkpoint],
) -> Result<Vec<CheckpointEntry>, VolError>
    requires { HaveSizes (pages_of (content_in (V.store store.now))) kept.now }
    ensures entries { IfOk result (λ entries.
        AreSized (pages_of (content_in (V.store store.now))) kept.now entries.items) }
    ensures refused { IfErr result (λ e. e ≡ VolError.Memory) }
{
    let mut entries = Vec::with_capacity(alloc, kept.len() + 1)?;
    for checkpoint in kept {
        let entry = sized_entry(alloc, store, checkpoint)?;
        entries.push(entry)?;
    }
    Ok(entries)
}

/// The entries of all kept checkpoints. Refused by `Memory` alone.
fn all_entries<V: Vstore>(
    alloc: Global,
    store: &V,
    checkpoints: &Checkpoints,
) -> Result<Vec<CheckpointEntry>, VolError>
    requires { HaveSizes (pages_of (content_in (V.store store.now)))
        (tables.all checkpoints.now.table) }
    ensures entries { IfOk result (λ entries.
        AreSized (pages_of (content_in (V.store store.now)))
        (tables.all checkpoints.now.table) entries.items) }
    ensures refused { IfErr result (λ e. e ≡ VolError.Memory) }
{
    let mut entries = entries_of(alloc, store, checkpoints.earlier())?;
    let latest = sized_entry(alloc, store, checkpoints.latest())?;
    entries.push(latest)?;
    Ok(entries)
}

/// The image of a pen's store and of the checkpoints that are kept over it. Each used block is loaded once
/// from the device, in order, and nothing else is. Refused by `Memory`, and by `Fault` where the device
/// failed.
pub fn image_of<S: Space>(parts: &mut Parts<Dat<S>>) -> Result<Vec<u8>, VolError>
    ensures image { IfOk result (λ bytes. IsPenImage parts.old bytes.items) }
    ensures lists { parts.new.lists ≡ parts.old.lists }
    ensures same { KeepsStored parts.old.store parts.new.store }
    ensures counted { parts.old.store.failures ≤ parts.new.store.failures }
    ensures fault { IsErrOf result VolError.Fault
        → parts.old.store.failures < parts.new.store.failures }
    ensures errors { IfErr result IsLoadError }
{
    counting_laws::counts_stay();
    let entries = all_entries(parts.alloc, &parts.store, parts.tables.checkpoints())?;
    let image = write_image(parts.alloc, &mut parts.store, entries.as_slice())?;
    Ok(image)
}
