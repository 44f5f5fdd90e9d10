//! Which events a shared volume has calls of their own for.
ghost use Rattle.std.specs.Prelude.{MatchBool};
ghost use Rattle.nl_publish.specs.Locks.{IsNoMountEvent};

use nl_types::Event;

/// Whether an event is a mount or an unmount, which `Locked::apply` doesn't take.
pub fn is_mount_event(event: &Event) -> bool
    ensures { MatchBool result (IsNoMountEvent event.now → ⊥) (IsNoMountEvent event.now) }
{
    matches!(event, Event::Mount(_) | Event::Unmount(_))
}
