//! Counts of blocks by segment.
ghost use Rattle.std.specs.Prelude.{◌≡◌, ◌+◌, ◌-◌, ◌<◌, ◌≤◌, ◌^◌, OnErr, OnOk, length, replicate, slice_get, slice_index_or, slice_set, take, IfOk, IsOkUnless};
ghost use Rattle.std.specs.Option.{ok_or};
ghost use Rattle.nl_sufile.specs.BySegment.{grown_counts, one_less, one_more};

use nl_types::{Items, Segment, VolError};
use std::alloc::{AllocError, Global};
use std::marker::Model;

/// A count of blocks for each segment, as many as there are segments. Contracts see the list of counts.
#[derive(Drop)]
pub struct SegmentCounts {
    counts: Items<u32>,
}

impl Model for SegmentCounts {
    ghost use Rattle.std.specs.Prelude.{List, ℕ};

    ghost Value = { List ℕ };

    ghost view = { λ c. c.counts };
}

/// So many zeros.
fn zeros(alloc: Global, count: u32) -> Result<Items<u32>, AllocError>
    ensures { IfOk result (λ zeros. zeros ≡ replicate count 0) }
{
    Ok(Items::from_vec(vec![in alloc; 0; count as usize]?))
}

fn copied(alloc: Global, counts: &[u32]) -> Result<Items<u32>, AllocError>
    ensures { IfOk result (λ copy. copy ≡ counts.now) }
{
    Ok(Items::from_vec(counts.to_vec(alloc)?))
}

impl SegmentCounts {
    /// So many segments without a block. Refused by `Memory` alone.
    pub fn new(alloc: Global, segments: u32) -> Result<SegmentCounts, VolError>
        ensures zeros { IfOk result (λ counts. counts ≡ replicate segments 0) }
        ensures refused { IsOkUnless result VolError.Memory }
    {
        let counts = zeros(alloc, segments)?;
        Ok(SegmentCounts { counts })
    }

    /// The count of a segment. Refused by `BadRange` where there is no such segment. Takes no memory.
    pub fn get(&self, segment: Segment) -> Result<u32, VolError>
        ensures { result ≡ ok_or (slice_get self.now segment) VolError.BadRange }
    {
        match self.counts.as_slice().get(segment.get() as usize) {
            Some(count) => Ok(*count),
            None => Err(VolError::BadRange),
        }
    }

    /// One block more stands in a segment. Takes no memory.
    pub fn add(&mut self, segment: Segment)
        requires segment { segment < length self.old }
        requires small { slice_index_or self.old segment 0 + 1 < 2 ^ 32 }
        ensures { self.new ≡ one_more segment self.old }
    {
        let at = segment.get() as usize;
        let count = self.counts.as_slice()[at];
        self.counts.set(at, count + 1);
    }

    /// One block less stands in a segment. Takes no memory.
    pub fn take(&mut self, segment: Segment)
        requires segment { segment < length self.old }
        requires some { 0 < slice_index_or self.old segment 0 }
        ensures { self.new ≡ one_less segment self.old }
    {
        let at = segment.get() as usize;
        let count = self.counts.as_slice()[at];
        self.counts.set(at, count - 1);
    }

    /// Adds segments without a block, up to so many. Refused for memory alone; the counts stay then.
    pub fn grow(&mut self, alloc: Global, segments: u32) -> Result<(), AllocError>
        requires { length self.old ≤ segments }
        ensures grown { OnOk result (self.new ≡ grown_counts segments self.old) }
        ensures same { OnErr result (self.new ≡ self.old) }
    {
        let more = zeros(alloc, segments - self.counts.len() as u32)?;
        self.counts.append(more.into_vec())
    }

    /// Keeps the first so many segments. Takes no memory.
    pub fn shrink(&mut self, segments: u32)
        ensures { self.new ≡ take segments self.old }
    {
        self.counts.truncate(segments as usize);
    }

    /// The same counts once more. Refused by `Memory` alone.
    pub fn copy(&self, alloc: Global) -> Result<SegmentCounts, VolError>
        ensures same { IfOk result (λ copy. copy ≡ self.now) }
        ensures refused { IsOkUnless result VolError.Memory }
    {
        let counts = copied(alloc, self.counts.as_slice())?;
        Ok(SegmentCounts { counts })
    }
}
