//! Events, one after another, on a volume.
ghost use Rattle.std.specs.Prelude.{◌≡◌, ◌≤◌, ◌++◌, List, drop, length, IfOk, OnErr};
ghost use Rattle.nl_types.specs.Plain.Runs.{Run};
ghost use Rattle.nl_types.specs.Plain.Worlds.{Reply};

use crate::volume::Volume;
use nl_types::{Event, Reply};
use std::alloc::{AllocError, Global};

/// Does the events that are not answered yet, in order. Refused by want of memory before the first of them,
/// or not at all.
pub(crate) fn run_rest<V: Volume>(
    volume: &mut V,
    events: &[Event],
    mut replies: Vec<Reply>,
) -> Result<Vec<Reply>, AllocError>
    requires { length replies.items ≤ length events.now }
    ensures run { IfOk result (λ done. (rest : List Reply) × (done.items ≡ replies.items ++ rest)
        × Run V.habits.does volume.old (drop (length replies.items) events.now) rest volume.new) }
    ensures err { OnErr result (volume.new ≡ volume.old) }
{
    let rest = &events[replies.len()..];
    replies.reserve(rest.len())?;
    for event in rest {
        let reply = volume.apply(event);
        replies.push_reserved(reply);
    }
    Ok(replies)
}

/// Does the events in order. Refused by want of memory before the first event, or not at all.
pub fn run_events<V: Volume>(
    alloc: Global,
    volume: &mut V,
    events: &[Event],
) -> Result<Vec<Reply>, AllocError>
    ensures run { IfOk result (λ replies.
        Run V.habits.does volume.old events.now replies.items volume.new) }
    ensures count { IfOk result (λ replies. length events.now ≡ length replies.items) }
    ensures err { OnErr result (volume.new ≡ volume.old) }
{
    let replies = run_rest(volume, events, Vec::new(alloc))?;
    Ok(replies)
}
