//! A round of cleaning as a machine: one event of the pen at a time.
ghost use Rattle.std.specs.Prelude.{◌≡◌, ◌<◌, MatchOption, OnSome};
ghost use Rattle.nl_types.specs.declared.event.Event.{Event};
ghost use Rattle.nl_cleaner.specs.Job.{IsOver, Stepped, next_event, job_after_reply, steps_left};

use nl_commit::ends_round;
use nl_core::Pen;
use nl_device::Device;
use nl_types::{Answer, Event, Moment, Reply, Segment, VolError};
use std::marker::Model;

/// What comes next in a round.
#[derive(Clone, Copy)]
pub enum Stage {
    /// The expiry of checkpoints.
    Expiring,
    /// The segments, one after another.
    Cleaning,
    Ended,
}

/// A round of cleaning, as `plan` makes it: the expiry of a moment, and then moves out of each of some
/// segments and its retirement.
#[derive(Drop)]
pub struct Job {
    stage: Stage,
    moment: Moment,
    period: u64,
    victims: Vec<Segment>,
    done: usize,
}

impl Model for Job {
    ghost use Rattle.std.specs.Prelude.{drop};
    ghost use Rattle.nl_cleaner.specs.Job.{JobView};

    ghost Value = { JobView };

    ghost view = { λ j. record
        { stage = j.stage; moment = j.moment; period = j.period; left = drop j.done j.victims.items } };
}

impl Job {
    ghost use Rattle.nl_cleaner.specs.Job.{Expiring, first_done};

    /// A round that takes these segments.
    pub(crate) fn new(victims: Vec<Segment>, now: Moment, period: u64) -> Job
        ensures { result ≡ record { stage = Expiring; moment = now; period = period; left = victims.items } }
    {
        Job {
            stage: Stage::Expiring,
            moment: now,
            period,
            victims,
            done: 0,
        }
    }

    /// The event that comes next on this pen: the expiry, and then moves out of the oldest of the segments
    /// that are left and its retirement. None where the round is over. It only looks: whoever does the event
    /// hands the reply to `note`, and no other event's, before asking again; `step` does both on a pen alone.
    pub fn next<D: Device>(&self, pen: &Pen<D>) -> Option<Event>
        ensures { result ≡ next_event self.now pen.now }
    {
        match self.stage {
            Stage::Expiring => Some(Event::Expire {
                now: self.moment.get(),
                period: self.period,
            }),
            Stage::Cleaning => {
                let segment = self.victims.get(self.done)?;
                Some(pen.cleaning_event(*segment, self.moment.get()))
            }
            Stage::Ended => None,
        }
    }

    /// The first segment is done.
    fn advance(&mut self)
        ensures { self.new ≡ first_done self.old }
    {
        if self.done < self.victims.len() {
            self.done += 1;
        }
    }

    /// Takes note of the reply to the event that came next. A refused expiry ends the round, and so does want
    /// of numbers, of space or of memory, or a fault; a retirement and any other refusal bring the next
    /// segment.
    pub fn note(&mut self, reply: &Reply)
        ensures { self.new ≡ job_after_reply self.old reply.now }
    {
        match (self.stage, reply) {
            (Stage::Expiring, Ok(_)) => self.stage = Stage::Cleaning,
            (Stage::Expiring, Err(_)) => self.stage = Stage::Ended,
            (Stage::Cleaning, Ok(Answer::Freed(_))) => self.advance(),
            (Stage::Cleaning, Ok(_)) => {}
            (Stage::Cleaning, Err(refusal)) => {
                if ends_round(*refusal) {
                    self.stage = Stage::Ended;
                } else {
                    self.advance();
                }
            }
            (Stage::Ended, _) => {}
        }
    }

    /// Does the next event of the round, and answers the pen's reply to it; None where the round is over. A
    /// refusal for want of numbers, of space or of memory, or for a fault ends the round; where a segment
    /// can't be cleaned, it goes on to the next one.
    pub fn step<D: Device>(&mut self, pen: &mut Pen<D>) -> Option<Reply>
        ensures stepped { MatchOption result (IsOver (self.old, pen.old) (self.new, pen.new))
            (λ reply. (event : Event) × Stepped (self.old, pen.old) event reply (self.new, pen.new)) }
        ensures fewer { OnSome result (steps_left self.new pen.new < steps_left self.old pen.old) }
    {
        pen.means_a_world();
        let event = self.next(pen)?;
        let reply = pen.apply(&event);
        self.note(&reply);
        Some(reply)
    }
}
