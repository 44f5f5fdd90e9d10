//! Planned rounds of cleaning, whose events come again where memory is refused to them.
use crate::rows::again::{Tally, Volume};
use nl_cleaner::Job;
use nl_protect::{Amount, Config};
use nl_types::{Answer, Reply, VolError};
use std::alloc::Global;
use std::mem::swap;

/// What the events of a round come to: how many checkpoints expired, how many blocks were moved, and how many
/// segments freed. An event that is refused adds nothing.
#[derive(Clone, Copy)]
pub(crate) struct Sum {
    pub expired: usize,
    pub moved: u32,
    pub freed: u32,
}

impl Sum {
    /// Adds what one more event comes to.
    fn add(&mut self, reply: &Reply) {
        match reply {
            Ok(Answer::Expired(numbers)) => {
                self.expired = self.expired.saturating_add(numbers.len());
            }
            Ok(Answer::Moved { moved, .. }) => self.moved = self.moved.saturating_add(*moved),
            Ok(Answer::Freed(_)) => self.freed = self.freed.saturating_add(1),
            _ => {}
        }
    }
}

/// Nothing is protected, and each round takes up to eight segments, whatever is needed in them.
pub(crate) fn config() -> Config {
    Config {
        protection_period: 0,
        min_clean_segments: Amount::Count(0),
        max_clean_segments: Amount::Percent(100),
        nsegments_per_clean: 8,
        min_reclaimable_blocks: Amount::Count(0),
        ..Config::standard()
    }
}

fn plans<V: Volume>(alloc: Global, volume: &mut V, tally: &mut Tally) -> Result<Job, VolError> {
    let before = volume.look();
    match volume.plan(alloc) {
        Err(VolError::Memory) => {
            tally.note(before, volume.look());
            volume.plan(alloc)
        }
        planned => planned,
    }
}

/// Does the next event of a round; None where it is over.
fn cleans<V: Volume>(volume: &mut V, job: &mut Job, tally: &mut Tally) -> Option<Reply> {
    let before = volume.look();
    let reply = volume.clean_step(job)?;
    if matches!(&reply, Err(VolError::Memory)) {
        tally.note(before, volume.look());
    }
    Some(reply)
}

/// More events than a round has.
const EVENTS: u64 = 1_000;

/// Does the events of a round. `spare` is the same round, and takes note of all replies but a refusal by
/// `Memory`, which ends the first one: then it goes on in its place, with the event that was refused.
fn goes_round<V: Volume>(volume: &mut V, job: &mut Job, spare: &mut Job, tally: &mut Tally) -> Sum {
    let mut sum = Sum {
        expired: 0,
        moved: 0,
        freed: 0,
    };
    for _ in 0..EVENTS {
        match cleans(volume, job, tally) {
            None => return sum,
            Some(Err(VolError::Memory)) => swap(job, spare),
            Some(reply) => {
                spare.note(&reply);
                sum.add(&reply);
            }
        }
    }
    sum
}

/// Plans the round once more, and does it.
fn does_planned<V: Volume>(
    alloc: Global,
    volume: &mut V,
    job: &mut Job,
    tally: &mut Tally,
) -> Result<Sum, VolError> {
    let mut spare = plans(alloc, volume, tally)?;
    Ok(goes_round(volume, job, &mut spare, tally))
}

/// Plans a round, and does it.
pub(crate) fn round<V: Volume>(
    alloc: Global,
    volume: &mut V,
    tally: &mut Tally,
) -> Result<Sum, VolError> {
    let mut job = plans(alloc, volume, tally)?;
    does_planned(alloc, volume, &mut job, tally)
}
