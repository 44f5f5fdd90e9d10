//! Laws of cleaning, as contracts of functions that do nothing.
ghost use Rattle.nl_reclaim.specs.Moves.{FullMovesComeClean, ListedMovesAreFirst, MovesKeepClosed, MoveTakesFirst, RefusedListsAreNone, RefusedMovesAreNone, RefusedMovesKeepClosed, RetirementsKeepOthers, SegmentsComeClean};
ghost use Rattle.nl_reclaim.specs.Reclaims.{RetiredSegmentsAreUnreached, RetiringIsAllowed};
ghost use Rattle.nl_reclaim.specs.Rounds.{RoundsLeaveNothingDead};

/// A segment that takes no more logs stays as it is, whatever is moved, and each stays where another is
/// retired.
pub fn closed_segments_stay()
    ensures moved { MovesKeepClosed }
    ensures refused { RefusedMovesKeepClosed }
    ensures retired { RetirementsKeepOthers }
{}

/// Listing the first needed numbers and then moving them is one move of them, which is refused where either
/// half is.
pub fn listed_moves_are_moves()
    ensures moved { ListedMovesAreFirst }
    ensures refused { RefusedMovesAreNone }
    ensures unlisted { RefusedListsAreNone }
{}

/// A move takes the first needed numbers out of its segment, and leaves those of every other closed segment.
pub fn move_takes_first()
    ensures { MoveTakesFirst }
{}

/// A dirty segment can be retired after as many moves as its needed numbers ask for, and is clean then.
pub fn segments_come_clean()
    ensures plain { SegmentsComeClean }
    ensures full { FullMovesComeClean }
{}

/// A round over all dirty segments, to its end, leaves no number in use that isn't needed, but in segments
/// that were active or in error.
pub fn rounds_leave_nothing_dead()
    ensures { RoundsLeaveNothingDead }
{}

/// Emptying a segment that has no needed number takes out only numbers that no kept checkpoint needs.
pub fn retiring_is_allowed()
    ensures { RetiringIsAllowed }
{}

/// No page of a kept checkpoint stands in a segment that may be emptied.
pub fn retired_segments_are_unreached()
    ensures { RetiredSegmentsAreUnreached }
{}
