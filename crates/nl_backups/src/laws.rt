//! What commands come to, one after another, as contracts of functions that do nothing.
ghost use Rattle.nl_backups.specs.Effects.{EffectsKeepCheckpoints, FoldersComeBack};
ghost use Rattle.nl_backups.specs.Pruning.{PinnedOnesStay};

/// Each command keeps every checkpoint that it doesn't remove: one that stores a tree, one that removes
/// others, and one that leaves the image as it was.
pub fn effects_keep_checkpoints()
    ensures { EffectsKeepCheckpoints }
{
    nl_keep_pen::laws::runs_keep_checkpoints();
    nl_keep_pen::laws::images_have_the_present_mark();
}

/// Whatever commands come between, as long as none of them removes the checkpoint that a backup made, what it
/// shows is the folder that the backup read: with each mode, owner, time and link.
pub fn folders_come_back()
    ensures { FoldersComeBack }
{
    effects_keep_checkpoints();
    nl_keep_pen::laws::images_have_the_present_mark();
    nl_shown::laws::kept_folders_are_shown();
}

/// A prune removes no checkpoint that is pinned.
pub fn pinned_ones_stay()
    ensures { PinnedOnesStay }
{}
