//! What settling means for checkpoints, as contracts of functions that do nothing.
ghost use Rattle.nl_files.specs.Bounds.{SettlingsAreFew};
ghost use Rattle.nl_files.specs.Laws.{FirstCheckpointsAreSmall, FirstCheckpointsHold, LatestCheckpointsHold, RootsHoldOne, SettledCheckpointsFollow, SettledCheckpointsWriteWhatDiffers, SettledNumbersAreLowest};
ghost use Rattle.nl_files.specs.OneSettling.{CleanTreesWriteNothing, SettlingsAreAlike};
ghost use Rattle.nl_files.specs.Staying.{CheckpointsStay, KeptPagesAgree};
ghost use Rattle.nl_files.specs.TreeLaws.{EmptyRootsHoldNothing, FirstTreesStand, SettledTreesGoOn, TreesCanBeSettled};

/// The checkpoint that a settled tree makes has the new root, and holds that tree.
pub fn settled_checkpoints_follow()
    ensures { SettledCheckpointsFollow }
{}

/// The latest checkpoint of every ledger can be settled over.
pub fn latest_checkpoints_hold()
    ensures { LatestCheckpointsHold }
{}

/// A checkpoint writes exactly the blocks that differ.
pub fn settled_checkpoints_write_what_differs()
    ensures { SettledCheckpointsWriteWhatDiffers }
{}

/// A checkpoint takes the lowest free numbers, in the order of its payload.
pub fn settled_numbers_are_lowest()
    ensures { SettledNumbersAreLowest }
{}

/// A checkpoint's root stands for the contents of one tree's inodes, and of no other's.
pub fn roots_hold_one_holding()
    ensures { RootsHoldOne }
{}

/// The first checkpoint of a volume has two blocks at most.
pub fn first_checkpoints_are_small()
    ensures { FirstCheckpointsAreSmall }
{}

/// A new volume's tree can be settled, over a checkpoint without files.
pub fn first_checkpoints_hold()
    ensures { FirstCheckpointsHold }
{}

/// The current tree of a new volume stands for the root alone, over a checkpoint without files.
pub fn first_trees_stand()
    ensures tree { FirstTreesStand }
    ensures checkpoint { EmptyRootsHoldNothing }
{}

/// What stands for a tree over the latest checkpoint can be settled, and then stands for it over the
/// checkpoint that is made of it.
pub fn settled_trees_go_on()
    ensures before { TreesCanBeSettled }
    ensures after { SettledTreesGoOn }
{}

/// A checkpoint keeps its roots, the numbers at their places and what it stands for over any pages that agree
/// with its own under the numbers that it reaches, as pages do that keep all there were.
pub fn checkpoints_stay()
    ensures stay { CheckpointsStay }
    ensures kept { KeptPagesAgree }
{}

/// Whichever way a tree is settled over a checkpoint, as many blocks are written, and the root is the same:
/// none, and the checkpoint's own, where nothing differs from it.
pub fn settlings_are_alike()
    ensures alike { SettlingsAreAlike }
    ensures clean { CleanTreesWriteNothing }
{}

/// However a current tree is settled, no more blocks are written than its changes weigh, and the nodes of the
/// file of inodes.
pub fn settlings_are_few()
    ensures { SettlingsAreFew }
{}
