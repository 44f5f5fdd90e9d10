//! What the pen's definitions mean, as contracts of functions that do nothing. What is said of events holds
//! for a pen alone and beside readers: `told` says which, and `allowed_where` what may be refused then.
ghost use Rattle.std.specs.Prelude.{Bool};
ghost use Rattle.nl_events.specs.CleanedPens.{MinorsKeepPens, MovesKeepPens, RefusedMovesKeepPens, RetirementsKeepPens};
ghost use Rattle.nl_commit.specs.Commits.{MountsStillShow};
ghost use Rattle.nl_core.specs.LedgerEvents.{EventsAreLedgerEvents, RunsAreLedgerEvents, RunsKeepNumbers};
ghost use Rattle.nl_commit.specs.Notes.{CommitsTellAll, PensShowStates, allowed_where};
ghost use Rattle.nl_core.specs.PenImages.{ImagesMeanOneWorld, PenImagesAreImages, PensHaveOneImage};
ghost use Rattle.nl_core.specs.Opened.{CheckedCheckpointsHaveInodes, OpenedImagesArePens};
ghost use Rattle.nl_commit.specs.Laws.{MeansOneWorld, EventsLeadOn, RunsLeadOn, FailedWritesAreTold, RefusalsKeepPens, RefusalsHaveReasons, NoSpaceIsSaid, NoSpaceIsTrue, MemoryIsTaken, RangesGoOneByOne, ExpiriesGoOneByOne, SettlingsAreAlike};

/// A pen means one world at most.
pub fn pens_mean_one_world()
    ensures { MeansOneWorld }
{}

/// What events do to a pen, one or many, they do beside each world that the pen means: each reply is the one
/// that the definitions give there, or an allowed refusal that keeps the world.
pub fn worlds_follow_pens()
    ensures event { (told : Bool) → EventsLeadOn (allowed_where told) }
    ensures events { (told : Bool) → RunsLeadOn (allowed_where told) }
{}

/// A refusal leaves the pen and its device as they were, but for a fault. A move may have counted reads that
/// failed.
pub fn refusals_keep_pens()
    ensures { (told : Bool) → RefusalsKeepPens (allowed_where told) }
{}

/// A write that fails is told: an event is answered by `Fault`, or no write of the device failed during it. It
/// is said of all events but retirements: how the clear of one went, nobody is told.
pub fn failed_writes_are_told()
    ensures { (told : Bool) → FailedWritesAreTold (allowed_where told) }
{}

/// A refusal is judged by the world or the segments, or it has its reason: space lacks for a checkpoint or a
/// move, or the device failed during one, or the event takes memory.
pub fn refusals_have_reasons()
    ensures { (told : Bool) → RefusalsHaveReasons (allowed_where told) }
{}

/// Memory is refused only to events that take it: changes of modes, removals of one checkpoint, unmounts and
/// retirements take none.
pub fn memory_is_refused_where_it_is_taken()
    ensures { MemoryIsTaken }
{}

/// A removal of a range leaves the same numbers in use, each with the same period, and the same checkpoints
/// as removals of the answered ones, one after another. So does an expiry.
pub fn ranges_go_one_by_one()
    ensures ranges { (told : Bool) → RangesGoOneByOne (allowed_where told) }
    ensures expiries { (told : Bool) → ExpiriesGoOneByOne (allowed_where told) }
{}

/// A checkpoint is refused for space only where no list of logs fits what it writes. Where none fits, it is
/// refused before anything is written.
pub fn space_is_judged_exactly()
    ensures only { (told : Bool) → NoSpaceIsTrue (allowed_where told) }
    ensures always { (told : Bool) → NoSpaceIsSaid (allowed_where told) }
{}

/// Whatever a checkpoint of a pen could write has as many blocks, and gives one root. So whether space lacks
/// is told by what the pen holds.
pub fn settlings_are_alike()
    ensures { SettlingsAreAlike }
{}

/// A move of pages out of a segment leaves a pen that means the same: the same numbers are in use for the
/// same, and each kept checkpoint reaches the same ones. So does a move that is refused.
pub fn moves_keep_pens()
    ensures moved { MovesKeepPens }
    ensures refused { RefusedMovesKeepPens }
{}

/// A minor checkpoint leaves a pen: no number starts or ends at it, and each world that was meant goes on
/// with one copy more, the latest one under the next number.
pub fn minors_keep_pens()
    ensures { MinorsKeepPens }
{}

/// A retirement of a segment in which no number is needed takes out numbers that no kept checkpoint reaches,
/// and leaves a pen that means the same.
pub fn retirements_keep_pens()
    ensures { RetirementsKeepPens }
{}

/// What an event does to the numbers and the kept checkpoints, events of the ledger do, each allowed where it
/// comes. A checkpoint is a write of its births and ends, a move of blocks one of none, a removal, a range or
/// an expiry removes one checkpoint after another, a retirement takes out the numbers of its segment, and
/// nothing else is one. So all laws about lists of ledger events hold of lists of a pen's events.
pub fn events_are_ledger_events()
    ensures event { (told : Bool) → EventsAreLedgerEvents (allowed_where told) }
    ensures events { (told : Bool) → RunsAreLedgerEvents (allowed_where told) }
{}

/// However many events come, a number keeps its page, its place and its start while a kept checkpoint needs
/// it, and its end changes once at most: from none to the number of a checkpoint that was made meanwhile.
pub fn runs_keep_numbers()
    ensures { (told : Bool) → RunsKeepNumbers (allowed_where told) }
{
    nl_types::laws::covered_numbers_stay();
    nl_types::laws::numbers_end_once();
}

/// What readers see of a pen is a state: every kept checkpoint stands for a tree, and every mount is one of
/// a kept snapshot.
pub fn pens_show_states()
    ensures { PensShowStates }
{}

/// The commits of an event lead from what readers saw of the pen to what they see then, and may follow.
pub fn commits_tell_all()
    ensures { (told : Bool) → CommitsTellAll (allowed_where told) }
{}

/// What a mount shows in an image it shows in each later one, until it is given back.
pub fn mounts_still_show()
    ensures { MountsStillShow }
{}

/// What is opened of an image that meets all conditions is a pen: it is sound, and means a world.
pub fn opened_images_are_pens()
    ensures { OpenedImagesArePens }
{
    nl_check::laws::checked_checkpoints_are_sound();
    nl_types::inode_laws::limited_inodes_mean_trees();
}

/// A checkpoint that was checked has an inode in use, the root's: so its paths beside the root are one fewer.
pub fn checked_checkpoints_have_inodes()
    ensures { CheckedCheckpointsHaveInodes }
{
    nl_check::laws::checked_checkpoints_are_sound();
    nl_types::inode_laws::limited_inodes_mean_trees();
}

/// The image of a pen meets all conditions of one, and a pen has no other image.
pub fn pens_have_one_image()
    ensures image { PenImagesAreImages }
    ensures one { PensHaveOneImage }
{
    nl_check::laws::sound_checkpoints_meet_all();
    nl_image::laws::store_images_are_images();
    nl_image::laws::store_images_tell_the_store();
}

/// Pens of one image, of which nothing is dirty or mounted, mean one world, but for how many mount numbers
/// were given.
pub fn pens_of_one_image_mean_one_world()
    ensures { ImagesMeanOneWorld }
{
    nl_check::laws::sound_checkpoints_meet_all();
    nl_image::laws::store_images_are_images();
    nl_image::laws::store_images_tell_the_store();
    nl_image::laws::images_have_one_list_of_parts();
}
