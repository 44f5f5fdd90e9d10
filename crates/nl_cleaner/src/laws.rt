//! What moves, retirements and rounds come to, as contracts of functions that do nothing. What is said of
//! events holds for a pen alone and beside readers: `told` says which, and `allowed_where` what may be refused
//! then.
ghost use Rattle.std.specs.Prelude.{Bool};
ghost use Rattle.nl_cleaner.specs.Laws.{RoundsLeaveNothingDead, SegmentsComeClean, StepsEndRounds, TheOldestComesNext, UnmountsLeaveRounds};

/// What a round asks for next is its expiry, or cleans the oldest of the segments that are left, by the logs
/// that its plan saw, whatever was replied and whatever else was done since.
pub fn the_oldest_comes_next()
    ensures { TheOldestComesNext }
{}

/// A dirty segment can be retired after as many moves as its needed numbers ask for, and is clean then. Beside
/// readers memory may be refused to the retirement. Mounts may be given back before each event.
pub fn segments_come_clean()
    ensures { (told : Bool) → SegmentsComeClean told }
{}

/// A round over every dirty segment that is refused nothing leaves no number in use that isn't needed, but in
/// segments that were active or in error. Mounts may be given back before each step.
pub fn rounds_leave_nothing_dead()
    ensures { (told : Bool) → RoundsLeaveNothingDead told }
{}

/// Each step of a round lowers the number of those that are left, so a round ends where no other events come
/// in between.
pub fn steps_end_rounds()
    ensures { (told : Bool) → StepsEndRounds told }
{}

/// A mount that is given back leaves as many steps of a round as there were.
pub fn unmounts_leave_rounds()
    ensures { (told : Bool) → UnmountsLeaveRounds told }
{}
