//! What is done again where memory is refused to it, between two looks. `tests/sweep` refuses each request for
//! memory in turn.
use crate::looks::Look;
use crate::rows::rounds::config;
use nl_cleaner::{Job, plan};
use nl_core::Pen;
use nl_device::FaultDevice;
use nl_lib::{
    change_cpmode, checkpoint, create, delete_checkpoint, list, listing, mkdir, read, remove,
    remove_checkpoints, rename, resize, rmdir, snapshot, stat, truncate, write,
};
use nl_types::{Answer, Ask, Change, CheckpointNumber, Event, Mode, Moment, Reply, VolError};
use std::alloc::Global;
use std::io;
use std::io::Write;

/// How often memory was refused, and whether all was as before each time.
#[derive(Clone, Copy)]
pub(crate) struct Tally {
    refused: u64,
    is_kept: bool,
}

impl Tally {
    pub(crate) fn new() -> Tally {
        Tally {
            refused: 0,
            is_kept: true,
        }
    }

    /// Takes note of a refusal, with looks at the volume before it and behind it.
    pub(crate) fn note(&mut self, before: u64, behind: u64) {
        self.refused = self.refused.saturating_add(1);
        if before != behind {
            self.is_kept = false;
        }
    }

    /// Adds a line of how often memory was refused, where it was; and before it one that no row expects where
    /// something was changed by a refusal.
    pub(crate) fn add_refusals(self, out: &mut Vec<u8>) -> io::Result<()> {
        if !self.is_kept {
            out.extend_from_slice(b"differs behind a refusal\n")?;
        }
        if self.refused > 0 {
            writeln!(out, "refused {}", self.refused)?;
        }
        Ok(())
    }
}

/// What does events and rounds.
pub(crate) trait Volume {
    /// A look at what a refused call has to leave as it was.
    fn look(&mut self) -> u64;

    fn apply(&mut self, alloc: Global, event: &Event) -> Reply;

    fn plan(&mut self, alloc: Global) -> Result<Job, VolError>;

    /// Does the next event of a round; None where it is over.
    fn clean_step(&mut self, job: &mut Job) -> Option<Reply>;
}

/// Does an event, and once more where memory is refused to it.
pub(crate) fn reply_again<V: Volume>(
    alloc: Global,
    volume: &mut V,
    event: &Event,
    tally: &mut Tally,
) -> Reply {
    let before = volume.look();
    match volume.apply(alloc, event) {
        Err(VolError::Memory) => {
            tally.note(before, volume.look());
            volume.apply(alloc, event)
        }
        reply => reply,
    }
}

// ---- a pen

/// A pen alone, with the event that reads the file for looks, where that is no matter of the row.
#[derive(Drop)]
pub(crate) struct Alone {
    pub pen: Pen<FaultDevice>,
    pub read: Option<Event>,
}

/// Adds what a read of the file came to, and says whether there was memory for it.
fn has_added(look: &mut Look, reply: &Reply) -> bool {
    match reply {
        Ok(Answer::Bytes(bytes)) => look.add_bytes(bytes.as_slice()),
        Ok(_) => look.add(0),
        Err(VolError::Memory) => return false,
        Err(refusal) => look.add_refusal(*refusal),
    }
    true
}

/// Adds the bytes of the file as it is now, and says whether there was memory for them.
fn has_looked(pen: &mut Pen<FaultDevice>, read: &Event, look: &mut Look) -> bool {
    let reply = pen.apply(read);
    has_added(look, &reply)
}

/// Changes the current tree, by the call for it.
fn change_by_call(alloc: Global, pen: &mut Pen<FaultDevice>, change: &Change) -> Reply {
    let done = match change {
        Change::Create { path } => create(alloc, pen, path.as_slice()),
        Change::Mkdir { path } => mkdir(alloc, pen, path.as_slice()),
        Change::Write {
            path,
            offset,
            bytes,
        } => {
            return write(alloc, pen, path.as_slice(), *offset, bytes.as_slice()).map(
                Answer::Written,
            );
        }
        Change::Truncate { path, size } => truncate(alloc, pen, path.as_slice(), *size),
        Change::Unlink { path } => remove(alloc, pen, path.as_slice()),
        Change::Rmdir { path } => rmdir(alloc, pen, path.as_slice()),
        Change::Rename { from, to } => rename(alloc, pen, from.as_slice(), to.as_slice()),
    };
    done.map(|()| Answer::Done)
}

/// Makes a checkpoint, by the call for its mode.
fn checkpoint_by_call(
    pen: &mut Pen<FaultDevice>,
    mode: Mode,
    moment: u64,
) -> Result<CheckpointNumber, VolError> {
    match mode {
        Mode::Plain => checkpoint(pen, moment),
        Mode::Snapshot => snapshot(pen, moment),
    }
}

/// Asks the current tree, by the call for it.
fn ask_by_call(alloc: Global, pen: &mut Pen<FaultDevice>, ask: &Ask) -> Reply {
    match ask {
        Ask::Bytes { path, offset, len } => {
            read(alloc, pen, path.as_slice(), *offset, *len).map(Answer::Bytes)
        }
        Ask::List { path } => list(alloc, pen, path.as_slice()).map(Answer::Names),
        Ask::Stat { path } => stat(alloc, pen, path.as_slice()).map(Answer::Stat),
    }
}

impl Volume for Alone {
    /// All that is told without memory, and the bytes of the file. They take memory, and are read again where
    /// it is refused.
    fn look(&mut self) -> u64 {
        let mut look = Look::new();
        look.add_pen(&self.pen);
        if let Some(read) = &self.read {
            if !has_looked(&mut self.pen, read, &mut look) {
                has_looked(&mut self.pen, read, &mut look);
            }
        }
        look.get()
    }

    /// An event; by the call of `nl_lib`, where there is one.
    fn apply(&mut self, alloc: Global, event: &Event) -> Reply {
        let pen = &mut self.pen;
        let done = match event {
            Event::Apply(change) => return change_by_call(alloc, pen, change),
            Event::Read(ask) => return ask_by_call(alloc, pen, ask),
            Event::Checkpoint { mode, moment } => {
                return checkpoint_by_call(pen, *mode, *moment).map(Answer::Checkpoint);
            }
            Event::RemoveRange { first, last } => {
                return remove_checkpoints(pen, *first, *last).map(Answer::Removed);
            }
            Event::Listing(options) => return listing(pen, options).map(Answer::Rows),
            Event::ChangeMode(number, mode) => change_cpmode(pen, *number, *mode),
            Event::Remove(number) => delete_checkpoint(pen, *number),
            Event::Resize(segments) => resize(pen, *segments),
            _ => return pen.apply(event),
        };
        done.map(|()| Answer::Done)
    }

    fn plan(&mut self, alloc: Global) -> Result<Job, VolError> {
        plan(alloc, &self.pen, &config(), Moment::new(0))
    }

    fn clean_step(&mut self, job: &mut Job) -> Option<Reply> {
        job.step(&mut self.pen)
    }
}
