//! What a shared volume needs of its pen.
ghost use Rattle.std.specs.Prelude.{◌≡◌, [], ◌∷◌, IfOk, IsOkUnless};
ghost use Rattle.nl_cpfile.specs.Tables.{cpstat_of};
ghost use Rattle.nl_commit.specs.CleanerViews.{needed_told};
ghost use Rattle.nl_commit.specs.Commits.{IsHistory, shown_after};
ghost use Rattle.nl_commit.specs.Layout.{IsPen, ReadsCopy, layout_of};
ghost use Rattle.nl_commit.specs.Notes.{DoesNoting, shown_of};
ghost use Rattle.nl_commit.specs.Shown.{MountsRise};
ghost use Rattle.nl_commit.specs.Volume.{without_mounts};

use crate::commit::Commit;
use nl_cpfile::Cpstat;
use nl_sufile::SegTable;
use nl_types::{Ask, CheckpointNumber, Event, Reply, Segment, VolError};

/// A pen that notes the commits of its events.
pub trait NotingPen: Drop {
    ghost use Rattle.nl_commit.specs.Layout.{Layout};

    /// What it holds, its store and device included.
    ghost layout: { Self → Layout };

    /// Every pen means a world, and is sound. This says so to its callers, and does nothing.
    fn means_a_world(&self)
        ensures { IsPen (layout self.now) };

    /// One event beside readers. Its commits are added to the notes. The room for them comes first, so a
    /// refusal adds none.
    fn apply_noting(&mut self, event: &Event, notes: &mut Vec<Commit>) -> Reply
        ensures { DoesNoting (layout self.old) event.now result
            (layout self.new) notes.old.items notes.new.items };

    /// All that readers see of it, as the commit that begins a history. Refused by `Memory` alone.
    fn whole(&self) -> Result<Commit, VolError>
        ensures begins { IfOk result (λ commit. IsHistory (commit ∷ [])) }
        ensures state { IfOk result (λ commit. shown_after (commit ∷ []) ≡ shown_of (layout self.now)) }
        ensures mounts { IfOk result (λ commit. MountsRise (shown_after (commit ∷ []))) }
        ensures refused { IsOkUnless result VolError.Memory };

    /// Gives all mounts back. It takes no memory.
    fn give_all_back(&mut self)
        ensures { layout self.new
            ≡ layout_of (without_mounts (layout self.old).lists) (layout self.old).store };

    /// The states of its segments.
    fn segments(&self) -> &SegTable
        ensures { result.now ≡ (layout self.now).store.segments };

    /// How many needed blocks a segment has. Refused by `BadRange` where there is no such segment. It takes
    /// no memory.
    fn needed(&self, segment: Segment) -> Result<u32, VolError>
        ensures { result ≡ needed_told (layout self.now) segment };

    /// How many checkpoints and snapshots are kept, and the latest one's number. It takes no memory.
    fn cpstat(&self) -> Cpstat
        ensures { result ≡ cpstat_of (layout self.now).lists.table };

    /// What the tree of a kept checkpoint answers. Refused by `NoCheckpoint` where it isn't kept, as the call
    /// is, and by `Memory` where it isn't `stat`, which takes none.
    fn read_at(&self, number: CheckpointNumber, ask: &Ask) -> Reply
        ensures { ReadsCopy (layout self.now) number ask.now result };
}
