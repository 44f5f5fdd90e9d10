//! Lists of events, beside a volume.
ghost use Rattle.std.specs.Prelude.{◌≡◌, IfOk, OnErr};
ghost use Rattle.nl_types.specs.Plain.Runs.{Run};
ghost use Rattle.nl_model.specs.Model.{ModelStep};

use crate::world::World;
use nl_types::{Event, Items, Reply};
use std::alloc::{AllocError, Global};

/// Does the events one after another, and gives a reply for each. Beside each event stands what a volume
/// answered to it, which moves and retirements answer here too: a world knows nothing of blocks. Where there
/// is no memory for the replies, none of the events is done; where there is none for an event, its reply says
/// so.
pub fn run(
    world: &mut World,
    alloc: Global,
    events: &[(Event, Reply)],
) -> Result<Items<Reply>, AllocError>
    ensures ok { IfOk result (λ replies. Run ModelStep world.old events.now replies world.new) }
    ensures err { OnErr result (world.new ≡ world.old) }
{
    let mut replies = Vec::with_capacity(alloc, events.len())?;
    for event in events {
        let reply = world.apply(alloc, &event.0, &event.1);
        if replies.push(reply).is_err() {
            unreachable!();
        }
    }
    Ok(Items::from_vec(replies))
}
