//! What forgetting and copying the checkpoints that were chosen come to, as contracts of functions that do nothing.
ghost use Rattle.nl_words.specs.Copied.{EachComesOrIsMissing};
ghost use Rattle.nl_words.specs.Forgotten.{NamedOnesGo};

/// Of the checkpoints that `going` answers each is kept when its turn comes, where they are forgotten one after
/// another and each takes the minor ones right behind it along. In the end each that a range names is gone, but the
/// latest that isn't plain and minor, and the latest of all.
pub fn named_ones_go()
    ensures { NamedOnesGo }
{}

/// Of each own checkpoint that isn't earlier than the latest of the other volume that one has, once those that `coming`
/// answers are there, as many of its date and tree as the greater of the two volumes had. Of each earlier one those
/// are what it lacks that `missing` answers. Both are some of the rows, in their order.
pub fn each_comes_or_is_missing()
    ensures { EachComesOrIsMissing }
{}
