//! Rounds of cleaning beside readers.
use crate::job::Job;
use crate::planning::plan;
use nl_commit::Round;
use nl_core::Pen;
use nl_device::Device;
use nl_protect::Config;
use nl_types::{Event, Moment, Reply, VolError};
use std::alloc::Global;

impl<D: Device> Round<Pen<D>> for Job {
    ghost use Rattle.nl_cleaner.specs.Rounds.{cleaning_habits};
    ghost use Rattle.nl_cleaner.specs.Facts.StepsLeft.{rounds-end};

    ghost habits = { cleaning_habits };

    fn plan(alloc: Global, pen: &Pen<D>, config: &Config, now: Moment) -> Result<Self, VolError> {
        plan(alloc, pen, config, now)
    }

    fn next(&self, pen: &Pen<D>) -> Option<Event> {
        Job::next(self, pen)
    }

    fn note(&mut self, reply: &Reply) {
        Job::note(self, reply)
    }

    ghost ends = { rounds-end };
}
