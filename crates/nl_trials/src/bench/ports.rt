//! Reads by ports, each in a thread of its own, alone and beside a writer.
ghost use Rattle.std.specs.Prelude.{◌≡◌};

use crate::bench::clock::{now, since};
use crate::bench::volume::{
    LENGTH, large, new_pen, plain_checkpoint, preparation, segments_for, small_write,
};
use crate::tests::backup::{Volume, give_back, shared};
use nl_mounts::{Port, is_mount_event};
use nl_publish::{Mount, Opened, Volumes};
use nl_types::{CheckpointNumber, Event, Segment, VolError, without_answer};
use std::alloc::Global;
use std::sync::Wait;
use std::sync::atomic::{AtomicBool, AtomicUsize, Ordering};
use std::thread::{Threads, for_each_mut, join};
use std::time::{Clock, Duration};

/// Does an event whose answer doesn't matter.
fn done<J: Volumes, R: Wait>(rt: &R, volume: &Volume<J>, event: &Event) -> Result<(), VolError> {
    if is_mount_event(event) {
        return Err(VolError::BadMount);
    }
    without_answer(volume.apply(rt, event))
}

/// Does an event that nothing else needs.
fn done_once<J: Volumes, R: Wait>(
    rt: &R,
    volume: &Volume<J>,
    event: Event,
) -> Result<(), VolError> {
    let went = done(rt, volume, &event);
    drop(event);
    went
}

/// What is measured.
#[derive(Clone, Copy)]
pub(crate) enum Case {
    /// Reads of each port into memory of its thread.
    Reads,
    /// Reads of each port into new memory.
    ReadsIntoNew,
    /// Reads into memory of the thread while a writer makes checkpoints.
    ReadsBesideWriter,
    /// Reads into memory of the thread, of pages that the port keeps.
    ReadsOfKept,
    /// The same while a writer makes checkpoints.
    ReadsOfKeptBesideWriter,
    /// Reads of bytes and of those behind them in turn, into memory of the thread.
    ReadsInTurn,
    /// The same of pages that the port keeps.
    ReadsOfKeptInTurn,
    /// File calls of a writer while ports read.
    CallsBesidePorts,
    /// File calls with a checkpoint behind each while ports read.
    CheckpointsBesidePorts,
    /// The same while ports read an open file in parts.
    CheckpointsBesideParts,
}

/// A case, how many ports read so many bytes at a time, and how many reads of each of them or file calls are
/// measured.
#[derive(Clone, Copy)]
pub(crate) struct Task {
    pub case: Case,
    pub ports: usize,
    pub bytes: usize,
    pub count: u64,
}

impl Task {
    /// How many bytes the large file has.
    fn length(&self) -> usize {
        self.bytes.max(LENGTH)
    }
}

/// The ports of a volume, whether all of them read or not.
const PORTS: usize = 4;

/// As many pages as a port keeps, where it does: all of the large file.
const PAGES: usize = 1024;

/// What the threads of a task share.
#[derive(Drop)]
struct Bench<'a, J: Volumes, R> {
    rt: &'a R,
    alloc: Global,
    volume: &'a Volume<J>,
    mount: &'a Mount<J>,
    task: Task,
    /// How many ports have read once.
    reading: AtomicUsize,
    /// The thread that is measured is done.
    ended: AtomicBool,
    /// A read came out wrong.
    failed: AtomicBool,
}

impl<J: Volumes + Send + Sync, R: Threads + Wait + Clock + Sync> Bench<'_, J, R> {
    fn has_ended(&self) -> bool {
        self.ended.load(Ordering::SeqCst)
    }

    fn end(&self) {
        self.ended.store(true, Ordering::SeqCst);
    }

    // ---- readers

    /// How many of the large file's bytes a port keeps.
    fn kept_bytes(&self) -> usize {
        match self.task.case {
            Case::ReadsOfKept | Case::ReadsOfKeptBesideWriter => self.task.bytes,
            Case::ReadsOfKeptInTurn => self.task.bytes.saturating_mul(2),
            _ => 0,
        }
    }

    /// Each port keeps the pages that it reads from now on, where the task is of such.
    fn warm(&self, ports: &mut [Port<J>]) -> Result<(), VolError> {
        let kept = self.kept_bytes();
        if kept == 0 {
            return Ok(());
        }
        for port in ports {
            port.learn(self.mount);
            port.set_cache(self.alloc, PAGES)?;
            port.warm(self.mount, large(), 0, kept as u64)?;
        }
        Ok(())
    }

    /// Where the read of a turn begins in the large file.
    fn offset(&self, turn: u64) -> u64 {
        match self.task.case {
            Case::ReadsInTurn | Case::ReadsOfKeptInTurn if turn % 2 == 1 => self.task.bytes as u64,
            _ => 0,
        }
    }

    /// Whether a read of the large file comes out right.
    fn reads(&self, port: &mut Port<J>, turn: u64, into: &mut [u8]) -> bool {
        let length = into.len();
        match self.task.case {
            Case::ReadsIntoNew => {
                let bytes = port.read(self.alloc, self.mount, large(), 0, length as u64);
                matches!(bytes, Ok(bytes) if bytes.as_slice().len() == length)
            }
            Case::CheckpointsBesideParts => self.reads_parts(port, into),
            _ => port.read_into(self.mount, large(), self.offset(turn), into) == Ok(length),
        }
    }

    /// Whether a read in parts comes out right.
    fn reads_parts(&self, port: &mut Port<J>, into: &mut [u8]) -> bool {
        match port.open(self.mount, large()) {
            Ok(file) => file.read_parts(port, 0, into).count == into.len(),
            Err(_) => false,
        }
    }

    /// Reads so often into a buffer, or until the task has ended, and says whether all reads came out right.
    fn reads_into(&self, port: &mut Port<J>, count: u64, into: &mut [u8]) -> bool {
        for turn in 0..count {
            if self.has_ended() {
                return true;
            }
            if !self.reads(port, turn, into) {
                return false;
            }
            if turn == 0 {
                self.reading.fetch_add(1, Ordering::SeqCst);
            }
        }
        true
    }

    fn reads_often(&self, port: &mut Port<J>, count: u64) -> bool {
        match vec![in self.alloc; 0; self.task.bytes] {
            Ok(mut into) => self.reads_into(port, count, into.as_mut_slice()),
            Err(_) => false,
        }
    }

    fn read_often(&self, port: &mut Port<J>, count: u64) {
        port.learn(self.mount);
        if !self.reads_often(port, count) {
            self.failed.store(true, Ordering::SeqCst);
        }
    }

    /// Each port in a thread of its own reads so often, or until the task has ended.
    fn read_by_all(&self, ports: &mut [Port<J>], count: u64) {
        let threads = ports.len();
        if threads > 0 {
            for_each_mut(
                self.rt,
                ports,
                threads,
                &|_: usize, port: &mut Port<J>| { self.read_often(port, count) },
            );
        }
    }

    fn time_reads(&self, ports: &mut [Port<J>]) -> Result<Duration, VolError> {
        let begun = now(self.rt);
        self.read_by_all(ports, self.task.count);
        self.end();
        since(self.rt, begun?)
    }

    // ---- the writer

    /// Removes all checkpoints but the latest one and the snapshot, and frees what they alone had.
    fn make_room(&self) -> Result<(), VolError> {
        done_once(self.rt, self.volume, Event::Expire { now: 0, period: 0 })?;
        for segment in 0..segments_for(self.task.length()) {
            // One that is needed is refused.
            let _ = done_once(self.rt, self.volume, Event::Retire(Segment::new(segment)));
        }
        Ok(())
    }

    fn overwrite(&self, turn: u64) -> Result<(), VolError> {
        done_once(self.rt, self.volume, small_write(self.alloc, turn)?)
    }

    /// Overwrites a byte, with a checkpoint behind it but where calls alone are measured.
    fn change(&self, turn: u64) -> Result<(), VolError> {
        self.overwrite(turn)?;
        if !matches!(self.task.case, Case::CallsBesidePorts) {
            done_once(self.rt, self.volume, plain_checkpoint())?;
            if turn % 1000 == 999 {
                self.make_room()?;
            }
        }
        Ok(())
    }

    /// Writes so often, or until the task has ended.
    fn write_often(&self, count: u64) -> Result<(), VolError> {
        for turn in 0..count {
            if self.has_ended() {
                return Ok(());
            }
            self.change(turn)?;
        }
        Ok(())
    }

    fn all_read(&self) -> bool {
        self.reading.load(Ordering::SeqCst) >= self.task.ports.min(PORTS)
    }

    /// Waits until each port that reads has read once, or a read came out wrong.
    fn wait_for_readers(&self) {
        for _ in 0..u64::MAX {
            if self.all_read() || self.failed.load(Ordering::SeqCst) {
                return;
            }
        }
    }

    fn time_writes(&self) -> Result<Duration, VolError> {
        self.wait_for_readers();
        let begun = now(self.rt);
        let written = self.write_often(self.task.count);
        let took = begun.and_then(|begun| since(self.rt, begun));
        self.end();
        written.and(took)
    }

    // ---- both

    fn time(&self, ports: &mut [Port<J>]) -> Result<Duration, VolError> {
        match self.task.case {
            Case::Reads
            | Case::ReadsIntoNew
            | Case::ReadsOfKept
            | Case::ReadsInTurn
            | Case::ReadsOfKeptInTurn => self.time_reads(ports),
            Case::ReadsBesideWriter | Case::ReadsOfKeptBesideWriter => {
                let (took, written) = join(
                    self.rt,
                    || self.time_reads(ports),
                    || self.write_often(u64::MAX),
                );
                written.and(took)
            }
            Case::CallsBesidePorts | Case::CheckpointsBesidePorts | Case::CheckpointsBesideParts =>
                {
                    let (took, ()) = join(
                        self.rt,
                        || self.time_writes(),
                        || self.read_by_all(ports, u64::MAX),
                    );
                    took
                }
        }
    }
}

/// Does a task through a mount of the snapshot. Refused by `BadMount` where a read came out wrong.
fn time_on<J: Volumes + Send + Sync, R: Threads + Wait + Clock + Sync>(
    rt: &R,
    alloc: Global,
    volume: &Volume<J>,
    mount: &Mount<J>,
    ports: &mut [Port<J>],
    task: Task,
) -> Result<Duration, VolError> {
    let bench = Bench {
        rt,
        alloc,
        volume,
        mount,
        task,
        reading: AtomicUsize::new(0),
        ended: AtomicBool::new(false),
        failed: AtomicBool::new(false),
    };
    let count = task.ports.min(ports.len());
    bench.warm(&mut ports[..count])?;
    let took = bench.time(&mut ports[..count]);
    if bench.failed.load(Ordering::SeqCst) {
        return Err(VolError::BadMount);
    }
    took
}

fn do_all<J: Volumes, R: Wait>(
    rt: &R,
    volume: &Volume<J>,
    events: &[Event],
) -> Result<(), VolError> {
    for event in events {
        done(rt, volume, event)?;
    }
    Ok(())
}

fn prepare<J: Volumes, R: Wait>(
    rt: &R,
    alloc: Global,
    volume: &Volume<J>,
    length: usize,
) -> Result<(), VolError> {
    let events = preparation(alloc, length)?;
    do_all(rt, volume, events.as_slice())
}

/// Makes the snapshot, mounts it, and does a task.
fn mount_and_time<J: Volumes + Send + Sync, R: Threads + Wait + Clock + Sync>(
    rt: &R,
    alloc: Global,
    volume: &Volume<J>,
    ports: &mut [Port<J>],
    task: Task,
) -> Result<Duration, VolError> {
    prepare(rt, alloc, volume, task.length())?;
    let Some(first) = ports.first_mut() else {
        return Err(VolError::BadRange);
    };
    match volume.mount(rt, first, CheckpointNumber::new(2)) {
        Err(refusal) => Err(refusal),
        Ok(mount) => {
            let took = time_on(rt, alloc, volume, &mount, ports, task);
            give_back(rt, volume, mount)?;
            took
        }
    }
}

/// How long so many reads of each port take, or so many file calls. At most 4 ports read.
pub(crate) fn measure<J: Volumes + Send + Sync, R: Threads + Wait + Clock + Sync>(
    rt: &R,
    alloc: Global,
    opened: Opened,
    task: Task,
) -> Result<Duration, VolError>
    requires { opened.seen.book ≡ J.book opened.id }
{
    let pen = new_pen(alloc, task.length())?;
    let (volume, mut ports) = shared::<J, _>(rt, alloc, pen, PORTS, opened)?;
    let took = mount_and_time(rt, alloc, &volume, ports.as_mut_slice(), task);
    drop(volume.end(rt, Vec::new(alloc)));
    took
}
