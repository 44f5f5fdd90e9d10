//! The first checkpoint of a new volume, and its tables.
ghost use Rattle.std.specs.Prelude.{◌≡◌, ◌⊎◌, [], length, replicate, IfErr, IfOk, OnOk};
ghost use Rattle.nl_types.specs.declared.geometry.Geometry.{Geometry};
ghost use Rattle.nl_types.specs.Plain.Worlds.{formatted};
ghost use Rattle.nl_device.specs.Failures.{Failures};
ghost use Rattle.nl_device.specs.Pages.{DevicePages};
ghost use Rattle.nl_commit.specs.Layout.{IsFormatted, IsPen, MeansWorld, blank_layout, layout_of};
ghost use Rattle.nl_commit.specs.Tables.{blank_lists};
ghost use Rattle.nl_events.specs.NeededBlocks.{IsBlank, IsCountedPen};

use crate::checkpoints::write_checkpoint;
use crate::notes::NoNotes;
use crate::parts::Parts;
use crate::tables::Tables;
use nl_reclaim::{NeededCounts, counting_laws};
use nl_types::{CheckpointNumber, Mode, VolError};
use nl_vstore::Vstore;
use std::alloc::Global;

/// Checkpoint 1 of a blank volume: of the root alone. The blank checkpoint goes. Refused by `Memory`, and by
/// `Fault` where the device fails.
fn first_checkpoint<V: Vstore>(
    alloc: Global,
    tables: &mut Tables,
    store: &mut V,
    needed: &mut NeededCounts,
    now: u64,
) -> Result<(), VolError>
    requires blank { IsBlank (layout_of tables.old.lists (V.store store.old)) }
    requires none { needed.old.counts ≡ replicate (length (V.store store.old).segments.each) 0 }
    requires no_ends { needed.old.ends ≡ [] }
    ensures formatted { (geometry : Geometry) (pages : DevicePages) (failures : Failures)
        → layout_of tables.old.lists (V.store store.old) ≡ blank_layout geometry pages failures
        → OnOk result (IsFormatted geometry pages failures now
        (layout_of tables.new.lists (V.store store.new))) }
    ensures means { OnOk result
        (MeansWorld (layout_of tables.new.lists (V.store store.new)) (formatted now)) }
    ensures pen { OnOk result (IsCountedPen (layout_of tables.new.lists (V.store store.new)) needed.new) }
    ensures refused { IfErr result (λ e. (e ≡ VolError.Memory) ⊎ (e ≡ VolError.Fault)) }
{
    counting_laws::unused_stores_are_counted();
    let draft = write_checkpoint(alloc, tables, store, needed, Mode::Plain, now, &mut NoNotes)?;
    needed.written(&*store, &draft.batch, draft.checkpoint.number);
    tables.forget_earlier();
    needed.removed(
        &*store,
        &*tables,
        CheckpointNumber::new(0),
        CheckpointNumber::new(1),
    );
    Ok(())
}

impl<V: Vstore + Drop> Parts<V> {
    /// A new volume over a store without a number in use, to which it writes checkpoint 1, of the root alone.
    /// Refused by `Memory`, and by `Fault` where the device fails; the store is dropped then.
    pub fn format(alloc: Global, mut store: V, now: u64) -> Result<Parts<V>, VolError>
        requires { IsBlank (layout_of blank_lists (V.store store)) }
        ensures formatted { (geometry : Geometry) (pages : DevicePages) (failures : Failures)
            → layout_of blank_lists (V.store store) ≡ blank_layout geometry pages failures
            → IfOk result (IsFormatted geometry pages failures now) }
        ensures means { IfOk result (λ parts. MeansWorld parts (formatted now)) }
        ensures pen { IfOk result IsPen }
        ensures refused { IfErr result (λ e. (e ≡ VolError.Memory) ⊎ (e ≡ VolError.Fault)) }
    {
        let segments = store.table().sustat().segments as u32;
        let mut tables = Tables::blank(alloc)?;
        let mut needed = NeededCounts::new(alloc, segments)?;
        first_checkpoint(alloc, &mut tables, &mut store, &mut needed, now)?;
        Ok(Parts {
            alloc,
            tables,
            store,
            needed,
        })
    }
}
