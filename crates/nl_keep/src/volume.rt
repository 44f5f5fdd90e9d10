//! What keeping asks of a volume.
ghost use Rattle.nl_types.specs.Plain.Calls.{IsReadReply};
ghost use Rattle.nl_types.specs.Plain.Worlds.{IsWorld, World};
ghost use Rattle.nl_keep.specs.Volumes.{Follows, LeadsTo, reply_at};

use nl_types::{Ask, CheckpointNumber, Event, Reply};

/// A volume that means worlds: what its users see. The pen of `nl_core` is one.
pub trait Volume: Drop {
    /// That it means a world.
    ghost means: { Self → World → Type 0 };

    /// One event. Beside each world that is meant, it is done as the definitions say. Or it is refused by
    /// `NoSpace` or `Fault`, where it writes, or by `Memory`, where it takes any, and then the world stays.
    fn apply(&mut self, event: &Event) -> Reply
        ensures { LeadsTo (Follows event.now result) (means self.old) (means self.new) };

    /// What the tree of a kept checkpoint answers, be it a snapshot or plain. Nothing changes. Refused by
    /// `NoCheckpoint` where it isn't kept, else as the tree says, and by `Memory`, where the question takes
    /// any.
    fn read_at(&self, number: CheckpointNumber, ask: &Ask) -> Reply
        ensures { (w : World) → means self.now w
            → IsReadReply ask.now result (reply_at w number ask.now) };

    ghost sound: { (v : Self) (w : World) → means v w → IsWorld w };
}

/// Does an event that nothing else needs, as `Volume::apply`. It is dropped here, by one call, and at no exit of
/// a caller: a drop that the compiler adds takes as long to prove as a hundred calls.
pub(crate) fn applied<V: Volume>(volume: &mut V, event: Event) -> Reply
    ensures { LeadsTo (Follows event result) (V.means volume.old) (V.means volume.new) }
{
    let reply = volume.apply(&event);
    drop(event);
    reply
}
