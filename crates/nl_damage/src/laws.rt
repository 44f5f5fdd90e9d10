//! What a sound checkpoint is, as a contract of a function that does nothing.
ghost use Rattle.nl_damage.specs.WholeTrees.{SoundCheckpointsHaveTrees};

/// A checkpoint whose files have their shape, and whose inodes hold a tree, has a tree, which `Ruin::read` reads.
pub fn sound_checkpoints_have_trees()
    ensures { SoundCheckpointsHaveTrees }
{
    nl_check::laws::checked_checkpoints_are_sound();
}
