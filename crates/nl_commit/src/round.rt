//! What a shared volume needs of a round of cleaning.
ghost use Rattle.std.specs.Prelude.{◌≡◌, IfOk, IsOkUnless};

use crate::NotingPen;
use nl_protect::Config;
use nl_types::{Event, Moment, Reply, VolError};
use std::alloc::Global;

/// A round of cleaning, taken event by event.
pub trait Round<P: NotingPen>: Drop {
    ghost use Rattle.nl_commit.specs.Rounds.{RoundHabits, RoundsEnd};

    /// How rounds go on.
    ghost habits: { RoundHabits Self };

    /// The round that a configuration asks for at a moment. It only looks. Refused by `Memory` alone.
    fn plan(alloc: Global, pen: &P, config: &Config, now: Moment) -> Result<Self, VolError>
        ensures planned { IfOk result (habits.plans (P.layout pen.now) config.now now) }
        ensures refused { IsOkUnless result VolError.Memory };

    /// The event that comes next; None where the round is over. It only looks.
    fn next(&self, pen: &P) -> Option<Event>
        ensures { result ≡ habits.next self.now (P.layout pen.now) };

    /// Takes note of the reply to the event that came next.
    fn note(&mut self, reply: &Reply)
        ensures { self.new ≡ habits.noted self.old reply.now };

    /// Each step leaves fewer, beside readers too.
    ghost ends: { RoundsEnd habits };
}
