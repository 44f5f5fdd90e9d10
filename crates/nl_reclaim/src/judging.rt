//! Which segments are cleaned.
ghost use Rattle.std.specs.Prelude.{◌≡◌};
ghost use Rattle.nl_reclaim.specs.Cleaning.{judged_segment, judged_by};

use nl_sufile::SegTable;
use nl_types::{Segment, SegmentInfo, SegmentState, VolError};

fn judge_info(info: SegmentInfo) -> Result<SegmentInfo, VolError>
    ensures { result ≡ judged_by info.state info }
{
    match info.state {
        SegmentState::Clean => Err(VolError::SegClean),
        SegmentState::Dirty => Ok(info),
        SegmentState::Active => Err(VolError::SegActive),
        SegmentState::Error => Err(VolError::SegError),
    }
}

/// What is known of a segment that may be cleaned: one with logs, which takes no more of them and has no
/// error. Refused by `BadRange` where there is no such segment, and by `SegClean`, `SegActive` and `SegError`
/// by its state. It takes no memory.
pub fn judge(table: &SegTable, segment: Segment) -> Result<SegmentInfo, VolError>
    ensures { result ≡ judged_segment table.now segment }
{
    match table.suinfo(segment) {
        Ok(info) => judge_info(info),
        Err(refusal) => Err(refusal),
    }
}
