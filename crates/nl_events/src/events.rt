//! Events, each by its body.
ghost use Rattle.nl_commit.specs.Notes.{DoesTelling};

use crate::notes::Notes;
use crate::parts::Parts;
use nl_types::{Event, Reply};
use nl_vstore::Vstore;

impl<V: Vstore> Parts<V> {
    /// One event of a pen. Where it changes what readers see, and they are told, a commit that tells of it
    /// stands behind the others in `notes`; its memory is taken before anything changes. Refused, the lists
    /// stay as they were, and `Does` says what became of the store.
    pub fn step<N: Notes>(&mut self, event: &Event, notes: &mut N) -> Reply
        ensures { DoesTelling N.told self.old event.now result self.new
            (N.commits notes.old) (N.commits notes.new) }
    {
        match event {
            Event::Checkpoint { mode, moment } => self.checkpoint(*mode, *moment, notes),
            Event::Move {
                segment,
                limit,
                now,
            } => self.move_out(*segment, *limit, *now, notes),
            Event::Retire(segment) => self.retire(*segment, notes),
            Event::Resize(segments) => self.resize(*segments, notes),
            _ => self.step_in_lists(event, notes),
        }
    }
}
