//! Moves out of segments and retirements of segments, by what the kept checkpoints need, each with the commit
//! that tells readers of it.
ghost use Rattle.std.specs.Prelude.{◌≡◌, ◌<◌, ◌++◌, [], length, true, IfOk, OnErr, OnOk};
ghost use Rattle.nl_types.specs.declared.event.Event.TheVariants.{Move, Retire};
ghost use Rattle.nl_vstore.specs.Located.{numbers_in, onto};
ghost use Rattle.nl_commit.specs.Layout.{Does, unshared};
ghost use Rattle.nl_commit.specs.Notes.{DoesTelling, made, where_any, without_changes};

use crate::notes::Notes;
use crate::parts::Parts;
use nl_commit::{Commit, Written};
use nl_cpfile::Checkpoint;
use nl_reclaim::{list_needed, move_listed, retire};
use nl_types::{Answer, Items, Reply, Segment, VirtualNumber};
use nl_vstore::Vstore;
use std::alloc::{AllocError, Global};

// ---- a move

/// The commit of a checkpoint without births and ends. It takes no memory.
fn written_minor(alloc: Global, minor: &Checkpoint) -> Commit
    ensures { result ≡ without_changes minor.now }
{
    Commit::Written(Written {
        births: Items::new(alloc),
        ends: Items::new(alloc),
        checkpoint: *minor,
    })
}

impl<V: Vstore> Parts<V> {
    /// Moves the first needed blocks of a segment elsewhere, at the moment `now` in whole seconds. Where there
    /// are some, the latest checkpoint is kept once more, and noted: its number, and room for it and its
    /// commit, are taken before a block is read. Refused as `list_needed` is, by `NumbersSpent`, by `Memory`,
    /// and as `move_listed` is.
    pub(crate) fn move_out<N: Notes>(
        &mut self,
        segment: Segment,
        limit: u32,
        now: u64,
        notes: &mut N,
    ) -> Reply
        ensures { DoesTelling N.told self.old (Move segment limit now) result self.new
            (N.commits notes.old) (N.commits notes.new) }
    {
        nl_reclaim::laws::listed_moves_are_moves();
        nl_reclaim::counting_laws::first_needed_stand_there();
        nl_reclaim::counting_laws::refusals_keep_counts();
        nl_reclaim::counting_laws::counts_stay();
        let listed = list_needed(self.alloc, &self.store, &self.tables, segment, limit)?;
        if listed.first.as_slice().is_empty() {
            return Ok(Answer::Moved { moved: 0, left: 0 });
        }
        let minor = self.tables.draft_minor(now)?;
        notes.reserve()?;
        let count = move_listed(
            self.alloc,
            &mut self.store,
            &listed,
            segment,
            minor.number,
            now,
        )?;
        self.needed
            .moved(&self.store, segment, listed.first.as_slice());
        self.tables.publish_minor(minor);
        notes.note(Some(written_minor(self.alloc, &minor)));
        Ok(Answer::Moved {
            moved: count.moved,
            left: count.left,
        })
    }
}

// ---- a retirement

/// Puts a number behind the others, where there is one.
fn push_found(
    numbers: &mut Vec<VirtualNumber>,
    found: Option<VirtualNumber>,
) -> Result<(), AllocError>
    ensures { OnOk result (numbers.new.items ≡ numbers.old.items ++ onto found []) }
{
    if let Some(number) = found {
        numbers.push(number)?;
    }
    Ok(())
}

/// The numbers whose pages stand in a segment that there is, by block.
fn listed_numbers<V: Vstore>(
    alloc: Global,
    store: &V,
    segment: Segment,
) -> Result<Vec<VirtualNumber>, AllocError>
    requires { segment < length (V.store store.now).segments.each }
    ensures { IfOk result (λ numbers. numbers.items ≡ numbers_in (V.store store.now) segment) }
{
    let mut numbers = Vec::new(alloc);
    for position in 0..store.table().blocks() {
        let found = store.at(segment, position);
        push_found(&mut numbers, found)?;
    }
    Ok(numbers)
}

/// The numbers whose pages stand in a segment, by block. None where there is no such segment.
fn segment_numbers<V: Vstore>(
    alloc: Global,
    store: &V,
    segment: Segment,
) -> Result<Vec<VirtualNumber>, AllocError>
    ensures { IfOk result (λ numbers. segment < length (V.store store.now).segments.each
        → numbers.items ≡ numbers_in (V.store store.now) segment) }
{
    match store.table().suinfo(segment) {
        Ok(_) => listed_numbers(alloc, store, segment),
        Err(_) => Ok(Vec::new(alloc)),
    }
}

/// The numbers whose pages stand in a segment, by block, and room for a commit of them, where readers are
/// told. Where they aren't it takes no memory.
fn gone_from<V: Vstore, N: Notes>(
    alloc: Global,
    store: &V,
    segment: Segment,
    notes: &mut N,
) -> Result<Vec<VirtualNumber>, AllocError>
    ensures numbers { IfOk result (λ gone. N.told ≡ true → segment < length (V.store store.now).segments.each
        → gone.items ≡ numbers_in (V.store store.now) segment) }
    ensures room { OnOk result (N.has_room notes.new) }
    ensures same { N.commits notes.new ≡ N.commits notes.old }
    ensures refused { OnErr result (N.told ≡ true) }
{
    notes.reserve()?;
    if notes.is_told() {
        segment_numbers(alloc, store, segment)
    } else {
        Ok(Vec::new(alloc))
    }
}

/// The commit of numbers that are out of use, where there are any.
fn freed_commit(gone: Vec<VirtualNumber>) -> Option<Commit>
    ensures { made result ≡ where_any gone.items (Commit.Freed gone.items) }
{
    if gone.is_empty() {
        None
    } else {
        Some(Commit::Freed(Items::from_vec(gone)))
    }
}

impl<V: Vstore> Parts<V> {
    /// Empties a segment in which no block is needed, as the counts tell. It takes no memory. Refused as
    /// `retire` of `nl_reclaim` is.
    fn empty(&mut self, segment: Segment) -> Reply
        ensures { Does unshared self.old (Retire segment) result self.new }
    {
        nl_reclaim::counting_laws::counts_stay();
        let count = self.needed.get(segment)?;
        let freed = retire(&mut self.store, count, segment)?;
        Ok(Answer::Freed(freed))
    }

    /// Empties a segment in which no block is needed, and notes which numbers are out of use. Refused as
    /// `retire` of `nl_reclaim` is, and by `Memory` where readers are told, before anything changes.
    pub(crate) fn retire<N: Notes>(&mut self, segment: Segment, notes: &mut N) -> Reply
        ensures { DoesTelling N.told self.old (Retire segment) result self.new
            (N.commits notes.old) (N.commits notes.new) }
    {
        let gone = gone_from(self.alloc, &self.store, segment, notes)?;
        let answer = self.empty(segment)?;
        notes.note(freed_commit(gone));
        Ok(answer)
    }
}
