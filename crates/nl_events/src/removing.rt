//! Removals of checkpoints from a pen, and what they let go of its needed blocks.
ghost use Rattle.std.specs.Prelude.{◌≡◌, [], ◌<◌, ◌≤◌, MatchOption};
ghost use Rattle.nl_types.specs.declared.event.Event.TheVariants.{Expire, Remove, RemoveRange};
ghost use Rattle.nl_commit.specs.Layout.{Does, layout_of, unshared};
ghost use Rattle.nl_events.specs.NeededBlocks.{AreEarlier, AreNeededCounts, HasLostBetween, IsSpanOf, taken_out};
ghost use Rattle.nl_commit.specs.Volume.{IsTakenOut, Lists};

use crate::parts::Parts;
use crate::tables::Tables;
use nl_reclaim::NeededCounts;
use nl_types::{Answer, CheckpointNumber, Moment, Reply};
use nl_vstore::Vstore;

/// The numbers that an answer tells to be gone.
fn gone_by(answer: &Answer) -> &[CheckpointNumber]
    ensures { result.now ≡ taken_out answer.now }
{
    match answer {
        Answer::Removed(range) => range.removed.as_slice(),
        Answer::Expired(gone) => gone.as_slice(),
        _ => &[],
    }
}

/// The first and the last of some numbers.
fn span_of(numbers: &[CheckpointNumber]) -> Option<(CheckpointNumber, CheckpointNumber)>
    ensures { MatchOption result (numbers.now ≡ []) (λ span. IsSpanOf span.0 span.1 numbers.now) }
{
    let first = numbers.first()?;
    let last = numbers.last()?;
    Some((*first, *last))
}

/// Kept checkpoints between two numbers are gone, both included: what the others need no more is let go. It
/// takes no memory.
fn let_go_between<V: Vstore>(
    tables: &Tables,
    store: &V,
    needed: &mut NeededCounts,
    first: CheckpointNumber,
    last: CheckpointNumber,
)
    requires order { first ≤ last }
    requires low { last < tables.now.lists.table.latest.number }
    requires counted { (old : Lists) × AreNeededCounts (layout_of old (V.store store.now)) needed.old }
    ensures { (old : Lists) → HasLostBetween first last old tables.now.lists
        → AreNeededCounts (layout_of old (V.store store.now)) needed.old
        → AreNeededCounts (layout_of tables.now.lists (V.store store.now)) needed.new }
{
    let next = tables.first_above(last);
    needed.removed(store, tables, first, next);
}

/// Kept checkpoints of these numbers are gone, which ascend: what the others need no more is let go. It takes
/// no memory.
fn let_go<V: Vstore>(
    tables: &Tables,
    store: &V,
    needed: &mut NeededCounts,
    gone: &[CheckpointNumber],
)
    requires earlier { AreEarlier gone.now tables.now.lists }
    requires counted { (old : Lists) × AreNeededCounts (layout_of old (V.store store.now)) needed.old }
    ensures { (old : Lists) → IsTakenOut gone.now old tables.now.lists
        → AreNeededCounts (layout_of old (V.store store.now)) needed.old
        → AreNeededCounts (layout_of tables.now.lists (V.store store.now)) needed.new }
{
    match span_of(gone) {
        Some(span) => let_go_between(tables, store, needed, span.0, span.1),
        None => {}
    }
}

impl<V: Vstore> Parts<V> {
    /// Removes a checkpoint, without memory. It is refused as `Tables::remove` is.
    pub(crate) fn remove(&mut self, number: CheckpointNumber) -> Reply
        ensures { Does unshared self.old (Remove number) result self.new }
    {
        let answer = self.tables.remove(number)?;
        let_go_between(&self.tables, &self.store, &mut self.needed, number, number);
        Ok(answer)
    }

    /// Removes the checkpoints of a range that may go. It is refused as `Tables::remove_range` is.
    pub(crate) fn remove_range(&mut self, first: CheckpointNumber, last: CheckpointNumber) -> Reply
        ensures { Does unshared self.old (RemoveRange first last) result self.new }
    {
        let answer = self.tables.remove_range(self.alloc, first, last)?;
        let_go(
            &self.tables,
            &self.store,
            &mut self.needed,
            gone_by(&answer),
        );
        Ok(answer)
    }

    /// Removes the plain checkpoints that a period no longer protects. Refused by `Memory` alone.
    pub(crate) fn expire(&mut self, now: Moment, period: u64) -> Reply
        ensures { Does unshared self.old (Expire now period) result self.new }
    {
        let answer = self.tables.expire(self.alloc, now, period)?;
        let_go(
            &self.tables,
            &self.store,
            &mut self.needed,
            gone_by(&answer),
        );
        Ok(answer)
    }
}
