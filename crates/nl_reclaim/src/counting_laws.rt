//! What the definitions mean, as contracts of functions that change nothing.
ghost use Rattle.nl_reclaim.specs.Laws.{EmptyCheckpointsKeepCounts, FirstNeededStandThere, GrowthIsTakenBack, GrowthKeepsCounts, ReadsKeepCounts, RefusedGrowthKeepsCounts, RefusedMovesKeepCounts, RefusedWritesKeepCounts, RetirementsKeepCounts, UnusedStoresAreCounted};

/// A retirement takes out no needed number, and neither reads of the device nor a checkpoint without births
/// and ends change a number: what was counted still is.
pub fn counts_stay()
    ensures retired { RetirementsKeepCounts }
    ensures read { ReadsKeepCounts }
    ensures empty { EmptyCheckpointsKeepCounts }
{
    nl_sufile::laws::counts_follow_blocks();
    nl_types::laws::checkpoints_keep_needs();
    nl_types::laws::writes_are_by_number();
    nl_vstore::laws::needed_numbers_are_counted();
}

/// A write or a move that is refused changes no number, be it broken off in the middle.
pub fn refusals_keep_counts()
    ensures written { RefusedWritesKeepCounts }
    ensures moved { RefusedMovesKeepCounts }
{
    nl_vstore::laws::needed_numbers_are_counted();
}

/// In segments that come behind the others no number stands, so their counts may be taken back; and where
/// they are refused no number changes.
pub fn growth_keeps_counts()
    ensures grown { GrowthKeepsCounts }
    ensures back { GrowthIsTakenBack }
    ensures refused { RefusedGrowthKeepsCounts }
{
    nl_sufile::laws::counts_follow_blocks();
    nl_vstore::laws::needed_numbers_are_counted();
}

/// Of a store without a number in use all counts are 0.
pub fn unused_stores_are_counted()
    ensures { UnusedStoresAreCounted }
{
    nl_vstore::laws::needed_numbers_are_counted();
}

/// The first needed numbers of a segment, as a move takes them, stand there once each.
pub fn first_needed_stand_there()
    ensures { FirstNeededStandThere }
{
    nl_vstore::laws::needed_numbers_stand_once();
}
