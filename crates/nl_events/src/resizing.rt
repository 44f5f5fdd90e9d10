//! A volume that gets more segments, and the commit that tells readers of it.
ghost use Rattle.std.specs.Prelude.{◌≡◌, ◌≤◌, nat_lt, length, Ok, Err, IfOk, IfErr, OnOk, OnErr};
ghost use Rattle.nl_types.specs.declared.event.Event.TheVariants.{Resize};
ghost use Rattle.nl_types.specs.declared.reply.Answer.TheVariants.{Done};
ghost use Rattle.nl_types.specs.Plain.Limits.{IsGeometry};
ghost use Rattle.nl_reclaim.specs.Counted.{with_segments};
ghost use Rattle.nl_vstore.specs.Stores.{HasGrown, IsGrowthRefused};
ghost use Rattle.nl_commit.specs.CleaningEvents.{resized_in};
ghost use Rattle.nl_commit.specs.Notes.{DoesTelling};

use crate::notes::Notes;
use crate::parts::Parts;
use nl_commit::Commit;
use nl_reclaim::{NeededCounts, counting_laws};
use nl_sufile::SegTable;
use nl_types::{Answer, Geometry, Reply, VolError};
use nl_vstore::Vstore;
use std::alloc::Global;

/// Whether a resize to so many segments adds any. Refused by `BadRange` for fewer than there are, and as
/// `Geometry::new` is for more than a volume can have.
pub fn adds_segments(table: &SegTable, segments: u32) -> Result<bool, VolError>
    ensures adds { IfOk result (λ adds. adds ≡ nat_lt (length table.now.each) segments) }
    ensures done { IfOk result (λ _. resized_in table.now segments ≡ Ok Done) }
    ensures refused { IfErr result (λ e. resized_in table.now segments ≡ Err e) }
{
    let wanted = segments as usize;
    let present = table.sustat().segments;
    if wanted < present {
        return Err(VolError::BadRange);
    }
    Geometry::new(segments, table.blocks())?;
    Ok(present < wanted)
}

/// Adds clean segments, up to so many, with a count of needed blocks for each. Refused, the counts stay.
fn add_segments<V: Vstore>(
    alloc: Global,
    store: &mut V,
    needed: &mut NeededCounts,
    segments: u32,
) -> Result<(), VolError>
    requires more { length (V.store store.old).segments.each ≤ segments }
    requires limits { IsGeometry segments (V.store store.old).segments.blocks }
    requires counts { length needed.old.counts ≡ length (V.store store.old).segments.each }
    ensures grown { OnOk result (HasGrown segments (V.store store.old) (V.store store.new)) }
    ensures counts { OnOk result (needed.new ≡ with_segments segments needed.old) }
    ensures refused { IfErr result (IsGrowthRefused (V.store store.old) (V.store store.new)) }
    ensures same { OnErr result (needed.new ≡ needed.old) }
    ensures counted { (V.store store.old).failures ≤ (V.store store.new).failures }
{
    counting_laws::growth_keeps_counts();
    let present = store.table().sustat().segments as u32;
    needed.grow(alloc, segments)?;
    let grown = store.grow(alloc, segments);
    if grown.is_err() {
        needed.shrink(present);
    }
    grown
}

impl<V: Vstore> Parts<V> {
    /// Makes the volume one of so many segments, the new ones clean, where it has fewer, with a count of
    /// needed blocks for each. Refused as `adds_segments` is, by `Memory`, and by `Fault` where the device
    /// failed.
    pub(crate) fn resize<N: Notes>(&mut self, segments: u32, notes: &mut N) -> Reply
        ensures { DoesTelling N.told self.old (Resize segments) result self.new
            (N.commits notes.old) (N.commits notes.new) }
    {
        counting_laws::growth_keeps_counts();
        if !adds_segments(self.store.table(), segments)? {
            return Ok(Answer::Done);
        }
        let blocks = self.store.table().blocks();
        notes.reserve()?;
        add_segments(self.alloc, &mut self.store, &mut self.needed, segments)?;
        notes.note(Some(Commit::Resized { segments, blocks }));
        Ok(Answer::Done)
    }
}
