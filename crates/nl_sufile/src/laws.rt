//! What the definitions mean, as contracts of functions that do nothing.
ghost use Rattle.nl_sufile.specs.BySegment.{AddedIsCounted, CountsAreFew, CountsChangeByOne, GrownAreCounted, TakenIsCounted, TakenWasCounted};

/// Counts by segment stay right where a number gets a block, or loses it, and its segment's count alone is
/// changed. There is something to take where a number has a block, and no count is greater than the numbers.
/// Numbers and segments without a block that come behind the others change no count.
pub fn counts_follow_blocks()
    ensures changes { CountsChangeByOne }
    ensures added { AddedIsCounted }
    ensures taken { TakenIsCounted }
    ensures few { CountsAreFew }
    ensures some { TakenWasCounted }
    ensures grown { GrownAreCounted }
{}
