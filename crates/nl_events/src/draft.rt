//! A checkpoint that is not published yet.
ghost use Rattle.std.specs.Prelude.{◌≡◌, ◌<◌, ◌≤◌, ℕ, List, length, IfErr, IfOk, OnErr, OnOk};
ghost use Rattle.nl_cpfile.specs.Tables.{ComesNext};
ghost use Rattle.nl_vstore.specs.Batches.{CanBeTaken};
ghost use Rattle.nl_vstore.specs.Stores.{IsWriteRefused, IsWritten, Store, capacity, content_in};
ghost use Rattle.nl_reclaim.specs.Counted.{IsCounted};
ghost use Rattle.nl_commit.specs.Draft.{CanBeDrafted, HasFewNames, IsDraftRefusal, IsNextDraft};
ghost use Rattle.nl_commit.specs.Volume.{published};

use crate::tables::Tables;
use nl_commit::Draft;
use nl_reclaim::NeededCounts;
use nl_types::{CheckpointNumber, Mode, VolError};
use nl_vstore::Vstore;
use std::alloc::Global;

/// The next checkpoint, with all the memory that it takes, and with room for its ends among the counts of
/// needed blocks. Refused by `NumbersSpent` and `Memory`.
pub fn draft_next<V: Vstore>(
    alloc: Global,
    tables: &mut Tables,
    store: &V,
    needed: &mut NeededCounts,
    mode: Mode,
    moment: u64,
) -> Result<Draft, VolError>
    requires base { CanBeDrafted (content_in (V.store store.now)) tables.old.lists }
    requires few { HasFewNames tables.old.lists }
    ensures same { tables.new.lists ≡ tables.old.lists }
    ensures drafted { IfOk result (IsNextDraft (V.store store.now) mode moment tables.old.lists) }
    ensures refused { IfErr result (IsDraftRefusal tables.old.lists) }
    ensures room { OnOk result (0 < tables.new.room) }
    ensures needed { (s : Store) (kept : List ℕ) → IsCounted s kept needed.old → IsCounted s kept needed.new }
    ensures ends { IfOk result (λ draft. length draft.batch.ends ≤ needed.new.room) }
{
    let draft = tables.draft(alloc, store, mode, moment)?;
    needed.reserve(draft.batch.ends().len())?;
    Ok(draft)
}

/// Writes the blocks of a draft, and then keeps its checkpoint. The write takes its memory before its first
/// put, so it is refused for memory before anything is written.
pub fn write_draft<V: Vstore>(
    alloc: Global,
    tables: &mut Tables,
    store: &mut V,
    draft: &Draft,
) -> Result<CheckpointNumber, VolError>
    requires room { 0 < tables.old.room }
    requires next { ComesNext draft.now.checkpoint tables.old.lists.table }
    requires fits { CanBeTaken (capacity (V.store store.old))
        (content_in (V.store store.old)) draft.now.batch }
    ensures written { OnOk result (IsWritten draft.now.checkpoint.number draft.now.checkpoint.stamp
        draft.now.batch (V.store store.old) (V.store store.new)) }
    ensures kept { OnOk result (tables.new.lists ≡ published draft.now.checkpoint tables.old.lists) }
    ensures number { IfOk result (λ number. number ≡ draft.now.checkpoint.number) }
    ensures refused { IfErr result (IsWriteRefused draft.now.checkpoint.number draft.now.checkpoint.stamp
        draft.now.batch (V.store store.old) (V.store store.new)) }
    ensures same { OnErr result (tables.new.lists ≡ tables.old.lists) }
    ensures counted { (V.store store.old).failures ≤ (V.store store.new).failures }
{
    let checkpoint = draft.checkpoint;
    store.write(alloc, &draft.batch, checkpoint.number, checkpoint.stamp)?;
    Ok(tables.publish(checkpoint))
}
