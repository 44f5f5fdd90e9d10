//! What storing, reading and forgetting come to, as contracts of functions that do nothing.
ghost use Rattle.nl_keep.specs.Lasting.{ForgetsChangeCopiesAlone, ForgetsKeepOthers, ForgottenAreEarlier, ForgottenAreGone, KeptTreesLast, MinorRemovalsOnlyTidy, StoredTreesComeBack, StoresKeepCopies, TidyingEventsOnlyTidy, TidyingGoesOn};

use nl_types::laws;

/// A checkpoint that no event takes out is kept with its tree. So what is read of a checkpoint is the tree
/// that was stored as it, whatever came between.
pub fn stored_trees_come_back()
    ensures last { KeptTreesLast }
    ensures back { StoredTreesComeBack }
{
    laws::copies_stay();
}

/// A store keeps each checkpoint as it was.
pub fn stores_keep_copies()
    ensures { StoresKeepCopies }
{}

/// Checkpoints that are forgotten are gone, and each other one is kept as it was, but for plain minor ones.
/// The latest one stays the latest. Nothing but checkpoints changes.
pub fn forgets_keep_others()
    ensures alone { ForgetsChangeCopiesAlone }
    ensures gone { ForgottenAreGone }
    ensures earlier { ForgottenAreEarlier }
    ensures others { ForgetsKeepOthers }
{}

/// What doing nothing, or tidying twice, comes to is tidying.
pub fn tidying_goes_on()
    ensures { TidyingGoesOn }
{}

/// Moves at a moment, retirements, resizes, and expiries that protect all only tidy.
pub fn tidying_events_only_tidy()
    ensures { TidyingEventsOnlyTidy }
{}

/// Where plain minor checkpoints but the latest one are removed, that only tidies.
pub fn minor_removals_only_tidy()
    ensures { MinorRemovalsOnlyTidy }
{}
