//! Many reads of a mount by two ports at once, beside a writer and a cleaner: each of them goes on while the
//! others do.
ghost use Rattle.std.specs.Prelude.{◌≡◌};

use crate::tests::backup::{Volume, give_back, keep_file, new_pen, shared};
use nl_cleaner::Job;
use nl_mounts::{
    Amount, Config, Gate, Items, JobAnswer, Moment, Mount, Opened, Port, ReadJob, VolError,
    Volumes, read_many,
};
use std::alloc::Global;
use std::marker::Brand;
use std::sync::Wait;
use std::sync::atomic::{AtomicBool, AtomicU64, Ordering};
use std::thread::{Threads, join};

/// How many checkpoints the writer makes.
const CHECKPOINTS: u64 = 200;

/// How many of them are to be answered before the first job is done.
const AWAITED: u64 = 100;

const JOBS: usize = 8000;

/// How many of them each of the two ports does.
const JOBS_OF_EACH: u64 = 4000;

/// How often what others do is waited for at most.
const TURNS: u64 = 2_000_000_000;

// ---- how far all are

/// How far all are. As a gate it holds the first job back until the awaited checkpoint is answered, and all
/// jobs of the other port have ended, which are the odd ones.
#[derive(Drop)]
struct Progress {
    answered: AtomicU64,
    has_ended: AtomicBool,
    even_begun: AtomicU64,
    odd_ended: AtomicU64,
    /// The first job was held back so, and no other one of its port began meanwhile.
    was_met: AtomicBool,
}

impl Progress {
    fn new() -> Progress {
        Progress {
            answered: AtomicU64::new(0),
            has_ended: AtomicBool::new(false),
            even_begun: AtomicU64::new(0),
            odd_ended: AtomicU64::new(0),
            was_met: AtomicBool::new(false),
        }
    }

    fn has_ended(&self) -> bool {
        self.has_ended.load(Ordering::SeqCst)
    }

    /// Whether what the first job waits for has come.
    fn has_come(&self) -> bool {
        self.answered.load(Ordering::SeqCst) >= AWAITED
            && self.odd_ended.load(Ordering::SeqCst) == JOBS_OF_EACH
    }

    fn wait(&self) {
        for _ in 0..TURNS {
            if self.has_come() {
                let is_alone = self.even_begun.load(Ordering::SeqCst) == 1;
                self.was_met.store(is_alone, Ordering::SeqCst);
                return;
            }
        }
    }

    /// Whether the first job was held back so, and all of its port have begun by now.
    fn was_met(&self) -> bool {
        self.was_met.load(Ordering::SeqCst)
            && self.even_begun.load(Ordering::SeqCst) == JOBS_OF_EACH
    }
}

impl Gate for Progress {
    fn before(&self, job: usize) {
        if job % 2 == 0 {
            self.even_begun.fetch_add(1, Ordering::SeqCst);
        }
        if job == 0 {
            self.wait();
        }
    }

    fn after(&self, job: usize) {
        if job % 2 == 1 {
            self.odd_ended.fetch_add(1, Ordering::SeqCst);
        }
    }
}

// ---- the writer

/// Writes one byte over another, with a checkpoint behind each. Whether their numbers ascend, with those of
/// minor ones between.
fn writes<J: Volumes, R: Wait>(
    rt: &R,
    alloc: Global,
    volume: &Volume<J>,
    progress: &Progress,
) -> Result<bool, VolError> {
    let mut last = 0;
    for turn in 0..CHECKPOINTS {
        volume.write(rt, alloc, b"/f", 0, &[turn as u8])?;
        let made = volume.checkpoint(rt, turn)?.get();
        if made <= last {
            return Ok(false);
        }
        last = made;
        progress.answered.store(turn + 1, Ordering::SeqCst);
    }
    Ok(true)
}

fn writes_to_the_end<J: Volumes, R: Wait>(
    rt: &R,
    alloc: Global,
    volume: &Volume<J>,
    progress: &Progress,
) -> bool {
    let written = writes(rt, alloc, volume, progress);
    progress.has_ended.store(true, Ordering::SeqCst);
    written == Ok(true)
}

// ---- the cleaner

/// Nothing is protected, and all segments are cleaned.
fn config() -> Config {
    Config {
        protection_period: 0,
        min_clean_segments: Amount::Count(0),
        max_clean_segments: Amount::Percent(100),
        nsegments_per_clean: 8,
        min_reclaimable_blocks: Amount::Count(0),
        ..Config::standard()
    }
}

/// More steps than a round has: an expiry, and of eight segments of 64 blocks each three moves at most and a
/// retirement.
const STEPS: usize = 1000;

/// Does a round, and says whether it came to its end.
fn cleans<J: Volumes, R: Wait>(
    rt: &R,
    alloc: Global,
    volume: &Volume<J>,
) -> Result<bool, VolError> {
    let mut round: Job = volume.plan(rt, alloc, &config(), Moment::new(0))?;
    for _ in 0..STEPS {
        if volume.clean_step(rt, &mut round).is_none() {
            return Ok(true);
        }
    }
    Ok(false)
}

/// Does one round after another, and the last one behind the writer's end.
fn cleans_to_the_end<J: Volumes, R: Wait>(
    rt: &R,
    alloc: Global,
    volume: &Volume<J>,
    progress: &Progress,
) -> bool {
    for _ in 0..TURNS {
        let is_last = progress.has_ended();
        if cleans(rt, alloc, volume) != Ok(true) {
            return false;
        }
        if is_last {
            return true;
        }
    }
    false
}

// ---- the readers

fn jobs(alloc: Global) -> Result<Vec<ReadJob>, VolError> {
    let mut jobs = Vec::with_capacity(alloc, JOBS)?;
    for _ in 0..JOBS {
        jobs.push(ReadJob {
            path: Items::from_slice(alloc, b"/f")?,
            offset: 0,
            len: 9,
        })?;
    }
    Ok(jobs)
}

fn is_first_byte(answer: &JobAnswer) -> bool {
    matches!(answer, Ok(bytes) if bytes.as_slice() == b"A".as_slice())
}

/// How many jobs are answered by the snapshot's byte.
fn count_answered<J: Volumes + Send + Sync, R: Threads + Sync>(
    rt: &R,
    alloc: Global,
    ports: &mut [Port<J>],
    mount: &Mount<J>,
    progress: &Progress,
) -> Result<usize, VolError> {
    if ports.is_empty() {
        return Ok(0);
    }
    let jobs = jobs(alloc)?;
    let answers = read_many(rt, alloc, ports, mount, jobs.as_slice(), progress)?;
    Ok(
        answers
            .iter()
            .filter(|answer| is_first_byte(answer))
            .count(),
    )
}

// ---- all of them

/// Whether each of them comes to what is due beside the others.
fn go_side_by_side<J: Volumes + Send + Sync, R: Threads + Wait + Sync>(
    rt: &R,
    alloc: Global,
    volume: &Volume<J>,
    ports: &mut [Port<J>],
    mount: &Mount<J>,
) -> bool {
    let progress = Progress::new();
    let (answered, (written, cleaned)) = join(
        rt,
        || count_answered(rt, alloc, ports, mount, &progress),
        || join(
            rt,
            || writes_to_the_end(rt, alloc, volume, &progress),
            || cleans_to_the_end(rt, alloc, volume, &progress),
        ),
    );
    answered == Ok(JOBS) && written && cleaned && progress.was_met()
}

/// Mounts a snapshot of the file, and gives it back behind all of them.
fn go_beside_a_mount<J: Volumes + Send + Sync, R: Threads + Wait + Sync>(
    rt: &R,
    alloc: Global,
    volume: &Volume<J>,
    ports: &mut [Port<J>],
) -> Result<bool, VolError> {
    let Some(first) = ports.first_mut() else {
        return Ok(false);
    };
    let snapshot = keep_file(rt, alloc, volume, b"/f", b"A")?;
    match volume.mount(rt, first, snapshot) {
        Err(refusal) => Err(refusal),
        Ok(mount) => {
            let good = go_side_by_side(rt, alloc, volume, ports, &mount);
            give_back(rt, volume, mount).and(Ok(good))
        }
    }
}

fn many_reads<J: Volumes + Send + Sync, R: Threads + Wait + Sync>(
    rt: &R,
    alloc: Global,
    opened: Opened,
) -> Result<bool, VolError>
    requires { opened.seen.book ≡ J.book opened.id }
{
    let (volume, mut ports) = shared::<J, _>(rt, alloc, new_pen(alloc)?, 2, opened)?;
    let good = go_beside_a_mount(rt, alloc, &volume, ports.as_mut_slice());
    drop(volume.end(rt, Vec::new(alloc)));
    good
}

/// Whether reads go on while a writer and a cleaner do, and each finds what is due.
pub(crate) fn many_reads_are_made_at_once<R: Threads + Wait + Sync>(
    rt: &R,
    alloc: Global,
) -> Result<bool, VolError> {
    many_reads::<Brand, _>(rt, alloc, Opened::new(1))
}
