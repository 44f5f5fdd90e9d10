//! What the conditions mean, as contracts of functions that do nothing.
ghost use Rattle.nl_check.specs.InodeTrees.{FormedTreesAreMeant, MeantTreesAreFormed};
ghost use Rattle.nl_check.specs.Laws.{ExactPeriodsAreExact, SoundCheckpointsAreShaped, SoundCheckpointsMeetAll, SoundTreesAreMeant};
ghost use Rattle.nl_check.specs.Periods.{TellPeriods};

/// Inodes stand for a tree exactly where they form one: each but the root's is named by one record, by its
/// kind, and is found from the root. The tree has as many paths as there are inodes in use.
pub fn inodes_form_trees()
    ensures meant { FormedTreesAreMeant }
    ensures formed { MeantTreesAreFormed }
{}

/// A checkpoint that has the shape and holds a tree is sound and stands for that tree. Where its periods are
/// exact it reaches exactly the numbers that cover it, each at one place.
pub fn checked_checkpoints_are_sound()
    ensures trees { SoundTreesAreMeant }
    ensures exact { ExactPeriodsAreExact }
{}

/// A sound checkpoint with exact lifetimes that stands for a tree meets all conditions.
pub fn sound_checkpoints_meet_all()
    ensures { SoundCheckpointsMeetAll }
{}

/// A sound checkpoint with exact lifetimes has the shape, whatever size is told of it.
pub fn sound_checkpoints_are_shaped()
    ensures { SoundCheckpointsAreShaped }
{}

/// The numbers that were met in a checkpoint tell whether it meets just those whose periods have it.
pub fn met_numbers_tell_periods()
    ensures { TellPeriods }
{}
