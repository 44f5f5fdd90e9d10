//! What published histories and runs under the lock mean, as contracts of functions that do nothing.
ghost use Rattle.nl_publish.specs.Cached.{CachedPagesStay};
ghost use Rattle.nl_publish.specs.KeptHoldings.{KeptHoldingsStay, MountsHold};
ghost use Rattle.nl_publish.specs.ReadPages.{ReadPagesStand, ReadPagesStay, RetirementsSpareReadPages};
ghost use Rattle.nl_publish.specs.Told.{HistoriesShowStates, KeptTreesStay, LockedRunsLeadOn, MountsBegin, MountsStay, PublishedWorldsAreShown};

/// In each state every kept checkpoint means a tree, and each mount is of a kept snapshot.
pub fn histories_show_states()
    ensures { HistoriesShowStates }
{}

/// A mount shows the checkpoint that it names, with the tree that it was told of, until it is given back.
pub fn mounts_stay()
    ensures { MountsStay }
{}

/// A mount is shown in no history that ends before the mount's own commit.
pub fn mounts_begin()
    ensures { MountsBegin }
{}

/// A checkpoint that is still kept in a history that goes on has the trees that it had.
pub fn kept_trees_stay()
    ensures { KeptTreesStay }
{}

/// A checkpoint that is still kept in a history that goes on holds what it held, and a mount's checkpoint held
/// something when the mount was told.
pub fn kept_holdings_stay()
    ensures stay { KeptHoldingsStay }
    ensures mounts { MountsHold }
{}

/// Where all of the history is published, readers see each copy of each world that the pen means.
pub fn published_worlds_are_shown()
    ensures { PublishedWorldsAreShown }
{}

/// A page of a file that was kept aside is right for good: numbers of checkpoints aren't given twice, and a
/// checkpoint that is still kept has the tree that it had.
pub fn cached_pages_stay()
    ensures { CachedPagesStay }
{}

/// What runs under the lock is a list of events, each done beside each world that the pen means, as on a pen
/// alone but for want of memory.
pub fn locked_runs_lead_on()
    ensures { LockedRunsLeadOn }
{}

/// No block of a freed segment is reached by what a reader may read. Whatever state of the history a reader is
/// in, that has the pages of its checkpoints itself. While the pen keeps such a checkpoint, or a mount of it
/// isn't given back, they also stand at blocks of their own, in segments that aren't clean; no retirement frees
/// one of these; and each later state has the same pages.
pub fn readers_reach_no_freed_block()
    ensures stand { ReadPagesStand }
    ensures spared { RetirementsSpareReadPages }
    ensures stay { ReadPagesStay }
{}
