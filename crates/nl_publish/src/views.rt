//! What is told of the pen that lies under the lock, as it stands. None of it takes memory.
ghost use Rattle.std.specs.Prelude.{◌≡◌, ◌+◌, length, slice_get};
ghost use Rattle.std.specs.Option.{ok_or};
ghost use Rattle.nl_types.specs.Blocks.Segments.{clean_segments};
ghost use Rattle.nl_cpfile.specs.Tables.{cpstat_of};
ghost use Rattle.nl_commit.specs.CleanerViews.{needed_told};
ghost use Rattle.nl_publish.specs.SegmentViews.{segment_told};

use crate::locked::Locked;
use crate::press::Press;
use crate::protocol::Volumes;
use nl_commit::NotingPen;
use nl_cpfile::Cpstat;
use nl_sufile::Sustat;
use nl_types::{Segment, SegmentInfo, VolError};

/// What is told of a segment, all of it of one state.
#[derive(Clone, Copy)]
pub struct SegmentView {
    pub info: SegmentInfo,
    /// How many needed blocks it has.
    pub needed: u32,
}

impl<P: NotingPen, J: Volumes, W: Press> Locked<P, J, W> {
    /// What is known of a segment, and how many needed blocks it has. Refused by `BadRange` where there is no
    /// such segment.
    pub fn segment(&self, segment: Segment) -> Result<SegmentView, VolError>
        ensures { result ≡ segment_told self.now.layout segment }
    {
        let info = self.suinfo(segment)?;
        let needed = self.needed(segment)?;
        Ok(SegmentView { info, needed })
    }

    /// What is known of a segment. Refused by `BadRange` where there is no such segment. It takes no memory.
    pub fn suinfo(&self, segment: Segment) -> Result<SegmentInfo, VolError>
        ensures { result ≡ ok_or (slice_get self.now.layout.store.segments.each segment) VolError.BadRange }
    {
        self.pen().segments().suinfo(segment)
    }

    /// How many needed blocks a segment has. Refused by `BadRange` where there is no such segment. It takes
    /// no memory.
    pub fn needed(&self, segment: Segment) -> Result<u32, VolError>
        ensures { result ≡ needed_told self.now.layout segment }
    {
        self.pen().needed(segment)
    }

    /// How many segments there are, and of them how many are clean, and how many dirty. It takes no memory.
    pub fn sustat(&self) -> Sustat
        ensures segments { result.segments ≡ length self.now.layout.store.segments.each }
        ensures clean { result.clean ≡ length (clean_segments self.now.layout.store.segments) }
        ensures dirty { result.dirty + result.clean ≡ result.segments }
    {
        self.pen().segments().sustat()
    }

    /// How many checkpoints and snapshots are kept, and the latest one's number. It takes no memory.
    pub fn cpstat(&self) -> Cpstat
        ensures { result ≡ cpstat_of self.now.layout.lists.table }
    {
        self.pen().cpstat()
    }
}
