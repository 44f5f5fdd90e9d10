//! What the cleaner is told of a pen.
ghost use Rattle.std.specs.Prelude.{◌≡◌, ◌≤◌, IfOk, IsOkUnless};
ghost use Rattle.std.specs.List.{AllByRecursion};
ghost use Rattle.std.proofs.Props.{props};
ghost use Rattle.nl_types.specs.Plain.Protection.{staying_numbers};
ghost use Rattle.nl_vstore.specs.Located.{payload_count_in};
ghost use Rattle.nl_cpfile.specs.Tables.{rows};
ghost use Rattle.nl_commit.specs.CleanerViews.{counts_after, needed_after, needed_told};

use crate::parts::Parts;
use nl_cpfile::Checkpoints;
use nl_protect::{expiring_run, first_staying, needed_from};
use nl_reclaim::{Keeping, count_needed};
use nl_sufile::SegmentCounts;
use nl_types::{CheckpointNumber, Period, Segment, VolError};
use nl_vstore::Vstore;
use std::alloc::Global;

/// The kept checkpoints without the plain ones below a number. None of them lies below the first.
#[derive(Clone, Copy)]
struct Staying<'a> {
    kept: &'a Checkpoints,
    below: CheckpointNumber,
    first: CheckpointNumber,
    ghost least: { AllByRecursion (λ n. first ≤ n)
        (staying_numbers below (rows kept.now.table)) } by { Prim.hlevel props },
}

impl<'a> Keeping for Staying<'a> {
    ghost use Rattle.nl_types.specs.Plain.Protection.{staying_numbers};
    ghost use Rattle.nl_cpfile.specs.Tables.{rows};

    ghost kept = { λ s. staying_numbers s.below (rows s.kept.now.table) };

    fn is_needed(&self, period: Period) -> bool {
        needed_from(self.kept, self.below, self.first, period)
    }
}

impl<V: Vstore> Parts<V> {
    /// How many needed blocks a segment has. Refused by `BadRange` where there is no such segment. It takes
    /// no memory.
    pub fn needed(&self, segment: Segment) -> Result<u32, VolError>
        ensures { result ≡ needed_told self.now segment }
    {
        self.needed.get(segment)
    }

    /// How many numbers whose pages stand in a segment are needed once the plain checkpoints below one are
    /// gone: 0 where there is no such segment.
    pub fn needed_in(&self, segment: Segment, below: CheckpointNumber) -> u32
        ensures { result ≡ needed_after self.now below segment }
    {
        let kept = self.tables.checkpoints();
        match self.store.table().suinfo(segment) {
            Ok(_) => {
                let first = first_staying(kept, below);
                count_needed(&self.store, &Staying { kept, below, first }, segment)
            }
            Err(_) => 0,
        }
    }

    /// How many needed blocks each segment has once the plain checkpoints below one are gone. Refused by
    /// `Memory` alone.
    pub fn counts_after(
        &self,
        alloc: Global,
        below: CheckpointNumber,
    ) -> Result<SegmentCounts, VolError>
        requires { below ≤ self.now.lists.table.latest.number }
        ensures counts { IfOk result (λ counts. counts ≡ counts_after self.now below) }
        ensures refused { IsOkUnless result VolError.Memory }
    {
        let kept = self.tables.checkpoints();
        let first = first_staying(kept, below);
        let (gone, next) = expiring_run(kept, below);
        self.needed.after(
            alloc,
            &self.store,
            &Staying { kept, below, first },
            gone,
            next,
        )
    }

    /// How many blocks of the logs of a segment have payload: 0 where there is no such segment.
    pub fn payload_count(&self, segment: Segment) -> u32
        ensures { result ≡ payload_count_in self.now.store segment }
    {
        match self.store.table().suinfo(segment) {
            Ok(_) => self.store.payload_count(segment),
            Err(_) => 0,
        }
    }
}
