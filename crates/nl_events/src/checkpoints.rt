//! Checkpoints, each with the commit that tells readers of it.
ghost use Rattle.std.specs.Prelude.{◌≡◌, ◌≤◌, ◌∷◌, ◌++◌, [], ℕ, List, length, map, IfOk, IfErr, OnErr, OnOk};
ghost use Rattle.nl_types.specs.declared.event.Event.TheVariants.{Checkpoint};
ghost use Rattle.nl_vstore.specs.Batches.{births_of};
ghost use Rattle.nl_vstore.specs.Stores.{Store, content_in};
ghost use Rattle.nl_reclaim.specs.Counted.{IsCounted};
ghost use Rattle.nl_commit.specs.Draft.{CanBeDrafted, HasFewNames};
ghost use Rattle.nl_commit.specs.Layout.{HasRefused, layout_of};
ghost use Rattle.nl_commit.specs.Notes.{DoesTelling, made_where, new_checkpoint, new_page, told_where};
ghost use Rattle.nl_events.specs.NeededBlocks.{HasWrittenBatch};

use crate::draft::{draft_next, write_draft};
use crate::notes::Notes;
use crate::parts::Parts;
use crate::tables::Tables;
use nl_commit::{Commit, Draft, NewPage, Written};
use nl_cpfile::Checkpoint as Kept;
use nl_reclaim::NeededCounts;
use nl_types::{Answer, Items, Mode, Reply, VolError};
use nl_vstore::{Batch, Payload, Vstore};
use std::alloc::{AllocError, Global};

/// The pages of births, under their numbers.
fn new_pages(alloc: Global, births: &[Payload]) -> Result<Items<NewPage>, AllocError>
    ensures { IfOk result (λ pages. pages ≡ map new_page (births_of births.now)) }
{
    let mut pages = Vec::with_capacity(alloc, births.len())?;
    for birth in births {
        let page = birth.1.share()?;
        let number = birth.0.number;
        pages.push(NewPage { number, page })?;
    }
    Ok(Items::from_vec(pages))
}

/// A checkpoint with what its batch changes.
fn written(alloc: Global, batch: &Batch, checkpoint: Kept) -> Result<Commit, AllocError>
    ensures { IfOk result (λ commit. commit ≡ Commit.Written (new_checkpoint batch.now checkpoint)) }
{
    let births = new_pages(alloc, batch.births())?;
    let ends = batch.ends().to_vec(alloc)?;
    Ok(Commit::Written(Written {
        births,
        ends: Items::from_vec(ends),
        checkpoint,
    }))
}

/// The commit of a draft, where readers are told, and room for it. Refused by `Memory` alone.
fn drafted_commit<N: Notes>(
    alloc: Global,
    draft: &Draft,
    notes: &mut N,
) -> Result<Option<Commit>, VolError>
    ensures commit { IfOk result (λ commit. commit
        ≡ made_where N.told (Commit.Written (new_checkpoint draft.now.batch draft.now.checkpoint))) }
    ensures room { OnOk result (N.has_room notes.new) }
    ensures same { N.commits notes.new ≡ N.commits notes.old }
    ensures refused { OnErr result (result ≡ Err VolError.Memory) }
{
    notes.reserve()?;
    if notes.is_told() {
        let commit = written(alloc, &draft.batch, draft.checkpoint)?;
        Ok(Some(commit))
    } else {
        Ok(None)
    }
}

/// Writes the next checkpoint, and notes it: its draft, which takes the memory for the tables and for its
/// commit, and then what the draft has. The needed blocks are still counted as before it, with room for the
/// ends.
pub fn write_checkpoint<V: Vstore, N: Notes>(
    alloc: Global,
    tables: &mut Tables,
    store: &mut V,
    needed: &mut NeededCounts,
    mode: Mode,
    moment: u64,
    notes: &mut N,
) -> Result<Draft, VolError>
    requires base { CanBeDrafted (content_in (V.store store.old)) tables.old.lists }
    requires few { HasFewNames tables.old.lists }
    ensures written { IfOk result (λ draft. HasWrittenBatch mode moment draft.batch
        (layout_of tables.old.lists (V.store store.old)) (layout_of tables.new.lists (V.store store.new))) }
    ensures noted { IfOk result (λ draft. N.commits notes.new ≡ N.commits notes.old
        ++ told_where N.told (Commit.Written (new_checkpoint draft.batch tables.new.lists.table.latest) ∷ [])) }
    ensures number { IfOk result (λ draft.
        draft.checkpoint.number ≡ tables.new.lists.table.latest.number) }
    ensures refused { IfErr result (λ e. HasRefused (Checkpoint mode moment) e
        (layout_of tables.old.lists (V.store store.old)) (layout_of tables.new.lists (V.store store.new))) }
    ensures same { OnErr result (N.commits notes.new ≡ N.commits notes.old) }
    ensures counted { (V.store store.old).failures ≤ (V.store store.new).failures }
    ensures needed { (s : Store) (kept : List ℕ) → IsCounted s kept needed.old → IsCounted s kept needed.new }
    ensures ends { IfOk result (λ draft. length draft.batch.ends ≤ needed.new.room) }
{
    // Whatever is settled takes the lowest numbers that are free.
    nl_files::laws::settled_numbers_are_lowest();
    let draft = draft_next(alloc, tables, store, needed, mode, moment)?;
    let commit = drafted_commit(alloc, &draft, notes)?;
    let _ = write_draft(alloc, tables, store, &draft)?;
    notes.note(commit);
    Ok(draft)
}

impl<V: Vstore> Parts<V> {
    /// A checkpoint: the next one is written with what differs from the latest one, and kept. Refused by
    /// `NumbersSpent`, by `NoSpace` where no list of logs fits what is written, by `Memory`, and by `Fault`
    /// where the device failed.
    pub(crate) fn checkpoint<N: Notes>(&mut self, mode: Mode, moment: u64, notes: &mut N) -> Reply
        ensures { DoesTelling N.told self.old (Checkpoint mode moment) result self.new
            (N.commits notes.old) (N.commits notes.new) }
    {
        nl_reclaim::counting_laws::refusals_keep_counts();
        let draft = write_checkpoint(
            self.alloc,
            &mut self.tables,
            &mut self.store,
            &mut self.needed,
            mode,
            moment,
            notes,
        )?;
        self.needed
            .written(&self.store, &draft.batch, draft.checkpoint.number);
        Ok(Answer::Checkpoint(draft.checkpoint.number))
    }
}
