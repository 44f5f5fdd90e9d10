//! A shared volume with one port, through which its mounts are read.
use crate::looks::look_at_shared;
use crate::ports::ask_port;
use crate::rows::again::Volume;
use crate::rows::rounds::config;
use crate::rows::words::{number_at, size_at, word_at};
use nl_cleaner::Job;
use nl_core::Pen;
use nl_device::FaultDevice;
use nl_lib::Cleaned;
use nl_mounts::{Port, Shared, is_mount_event};
use nl_publish::{Mount, Volumes};
use nl_types::{
    Answer, Ask, CheckpointNumber, Event, MAX_PAYLOAD, Moment, MountNumber, Reply, Segment,
    VolError, without_answer,
};
use std::alloc::Global;
use std::sync::Wait;

/// A shared volume, its port, and what is mounted.
pub(crate) struct Ported<'a, J: Volumes, R: Wait> {
    pub(crate) rt: &'a R,
    pub(crate) shared: Shared<Pen<FaultDevice>, J>,
    pub(crate) port: Port<J>,
    pub(crate) mounts: Vec<Mount<J>>,
    /// The numbers of all mounts so far. Their places, from 1 on, are the numbers that rows give them.
    pub(crate) numbers: Vec<MountNumber>,
    /// How often memory was refused to a mount, each of which may have spent a number.
    pub(crate) refused: u64,
}

/// More moves than a segment of a row takes.
const MOST_MOVES: u32 = 1_000;

impl<J: Volumes, R: Wait> Ported<'_, J, R> {
    /// The number that a row gives to a mount that is made now.
    fn number_in_row(&self, number: MountNumber) -> MountNumber {
        let due = (self.numbers.len() as u64).saturating_add(1);
        let spent = number.get().saturating_sub(due);
        if number.get() < due || spent > self.refused {
            return number;
        }
        MountNumber::new(due)
    }

    /// The places are there before the mount is made.
    fn mount(&mut self, checkpoint: CheckpointNumber) -> Reply {
        self.mounts.reserve(1)?;
        self.numbers.reserve(1)?;
        match self.shared.mount(self.rt, &mut self.port, checkpoint) {
            Err(refusal) => {
                if refusal == VolError::Memory {
                    self.refused = self.refused.saturating_add(1);
                }
                Err(refusal)
            }
            Ok(mount) => {
                let number = mount.number();
                self.mounts.push_reserved(mount);
                let told = self.number_in_row(number);
                self.numbers.push_reserved(number);
                Ok(Answer::Mount(told))
            }
        }
    }

    /// The place of a mount that a row names; that of none where there is no such mount.
    fn place_of(&self, named: MountNumber) -> usize {
        let place = usize::try_from(named.get().wrapping_sub(1)).unwrap_or(usize::MAX);
        let number = self.numbers.get(place);
        self.mounts
            .iter()
            .position(|mount| number == Some(&mount.number()))
            .unwrap_or(self.mounts.len())
    }

    fn unmount(&mut self, number: MountNumber) -> Reply {
        let place = self.place_of(number);
        if place >= self.mounts.len() {
            return Err(VolError::BadMount);
        }
        let mount = self.mounts.remove(place);
        match self.shared.unmount(self.rt, mount) {
            Ok(()) => Ok(Answer::Done),
            Err((refusal, refused)) => {
                self.mounts.push_reserved(refused.again());
                Err(refusal)
            }
        }
    }

    fn ask(&mut self, alloc: Global, number: MountNumber, ask: &Ask) -> Reply {
        let place = self.place_of(number);
        let Some(mount) = self.mounts.get(place) else {
            return Err(VolError::BadMount);
        };
        ask_port(alloc, &mut self.port, mount, ask)
    }

    /// Applies an event that mounts nothing and gives no mount back.
    fn change(&self, event: &Event) -> Reply {
        if is_mount_event(event) {
            return Err(VolError::BadMount);
        }
        self.shared.apply(self.rt, event)
    }

    /// The same of an event that nothing else needs.
    pub(crate) fn apply_once(&self, event: Event) -> Reply {
        let reply = self.change(&event);
        drop(event);
        reply
    }

    fn warm(&mut self, words: &[&str]) -> Result<usize, VolError> {
        let place = self.place_of(MountNumber::new(number_at(words, 1)));
        let path = word_at(words, 2).as_bytes();
        match self.mounts.get(place) {
            None => Err(VolError::BadMount),
            Some(mount) => self.port.warm(mount, path, 0, number_at(words, 3)),
        }
    }

    /// Keeps at most so many pages from now on, and none yet; keeps those of a mount's file; or tells how many
    /// are kept.
    pub(crate) fn cache(&mut self, alloc: Global, words: &[&str]) -> Result<usize, VolError> {
        match word_at(words, 0) {
            "keep" => self.port.set_cache(alloc, size_at(words, 1)).map(|()| 0),
            "warm" => self.warm(words),
            _ => Ok(self.port.cached()),
        }
    }

    pub(crate) fn latest(&self) -> CheckpointNumber {
        self.shared.cpstat(self.rt).latest
    }

    fn is_needed(&self, segment: Segment) -> bool {
        self.shared.needed(self.rt, segment).unwrap_or(0) > 0
    }

    fn move_out(&self, segment: Segment, now: u64) -> Reply {
        self.apply_once(Event::Move {
            segment,
            limit: MAX_PAYLOAD,
            now,
        })
    }

    /// Moves what is needed out of a segment and retires it, by events.
    fn empty(&self, segment: Segment, now: u64) -> Result<(), VolError> {
        for _ in 0..MOST_MOVES {
            if !self.is_needed(segment) {
                break;
            }
            without_answer(self.move_out(segment, now))?;
        }
        without_answer(self.apply_once(Event::Retire(segment)))
    }

    /// Empties segments up to the first refusal, as `nl_lib::clean_segments` does on a pen.
    pub(crate) fn clean(&self, segments: &[Segment], now: u64) -> Cleaned {
        for (retired, segment) in segments.iter().enumerate() {
            if let Err(refusal) = self.empty(*segment, now) {
                return Cleaned {
                    retired,
                    refusal: Some(refusal),
                };
            }
        }
        Cleaned {
            retired: segments.len(),
            refusal: None,
        }
    }
}

impl<J: Volumes, R: Wait> Volume for Ported<'_, J, R> {
    fn look(&mut self) -> u64 {
        look_at_shared(self.rt, &self.shared)
    }

    fn apply(&mut self, alloc: Global, event: &Event) -> Reply {
        match event {
            Event::Mount(checkpoint) => self.mount(*checkpoint),
            Event::Unmount(number) => self.unmount(*number),
            Event::MountRead(number, ask) => self.ask(alloc, *number, ask),
            _ => self.change(event),
        }
    }

    fn plan(&mut self, alloc: Global) -> Result<Job, VolError> {
        self.shared.plan(self.rt, alloc, &config(), Moment::new(0))
    }

    fn clean_step(&mut self, job: &mut Job) -> Option<Reply> {
        self.shared.clean_step(self.rt, job)
    }
}
