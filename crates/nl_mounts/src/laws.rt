//! What calls of one thread come to, one behind the other, as a contract of a function that does nothing.
ghost use Rattle.nl_mounts.specs.InOrder.{MountsShowWhatWasTold};

use nl_publish::laws as publish_laws;

/// A port that was told of an event, all of whose history was published, and then mounts a checkpoint: the mount
/// shows the copy of that number which the world had behind the event. So checkpoint, mount and read of one thread
/// give what was written.
pub fn mounts_show_what_was_told()
    ensures { MountsShowWhatWasTold }
{
    publish_laws::published_worlds_are_shown();
    publish_laws::kept_trees_stay();
    publish_laws::histories_show_states();
}
