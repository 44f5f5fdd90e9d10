//! Many reads of a mount at once, one thread a reader.
ghost use Rattle.std.specs.Prelude.{◌≡◌, ◌<◌, ◌≤◌, ◌⊎◌, ◌++◌, ◌∷◌, [], length, map, IfErr, IfOk, OnErr, OnOk};
ghost use Rattle.std.specs.List.{AllZip};
ghost use Rattle.nl_publish.specs.Jobs.{AreAnswers, AreLanesOver, AreLaterReaders, ArePlaced, HasRunBy, HaveLearned, IsLaterReader, IsPlaced, ReaderLaws, all_back, idle, no_memory, with_back};
ghost use Rattle.nl_publish.specs.Reading.{IsLater};

use crate::reader::{FileReader, PlaceKey};
use crate::{Mount, Volumes};
use nl_types::{Items, VolError};
use std::alloc::{AllocError, Global};
use std::marker::{Model, PhantomData};
use std::mem::replace;
use std::thread::{Threads, for_each_mut};

/// A read of a file in a mount's tree: as many bytes as there are from an offset on, and at most `len`.
#[derive(Drop)]
pub struct ReadJob {
    pub path: Items<u8>,
    pub offset: u64,
    pub len: u64,
}

/// The bytes that a job asks for, or why it is refused.
pub type JobAnswer = Result<Items<u8>, VolError>;

/// What stands round each read, by the place of its job. The reader has entered nothing then. It never waits.
pub trait Gate {
    fn before(&self, job: usize);

    fn after(&self, job: usize);
}

// ---- lanes

/// A reader out of its place, while its thread runs, and what it has answered, by the places of jobs.
#[derive(Drop)]
struct Lane<J: Volumes, P: FileReader<J>> {
    reader: P,
    answers: Vec<(usize, JobAnswer)>,
    of: PhantomData<J>,
}

impl<J: Volumes, P: FileReader<J>> Model for Lane<J, P> {
    ghost use Rattle.nl_publish.specs.Jobs.{LaneView};

    ghost Value = { LaneView P };

    ghost view = { λ l. record { reader = l.reader; answers = l.answers.items } };
}

/// Adds an answer, where there is memory for it.
fn push_answer(answers: &mut Vec<(usize, JobAnswer)>, index: usize, answer: JobAnswer)
    ensures { (answers.new.items ≡ answers.old.items)
        ⊎ (answers.new.items ≡ answers.old.items ++ (index, answer) ∷ []) }
{
    // A job without an answer is one that had no memory.
    let _ = answers.push((index, answer));
}

impl<J: Volumes, P: FileReader<J>> Lane<J, P> {
    /// Takes a reader out of its place.
    fn new(alloc: Global, reader: &mut P) -> Lane<J, P>
        ensures lane { result ≡ idle P.taken reader.old }
        ensures left { reader.new ≡ P.left reader.old }
    {
        Lane {
            reader: reader.take(&PlaceKey::new()),
            answers: Vec::new(alloc),
            of: PhantomData,
        }
    }

    /// Reads what a job asks for.
    fn read<G: Gate>(
        &mut self,
        alloc: Global,
        mount: &Mount<J>,
        jobs: &[ReadJob],
        index: usize,
        gate: &G,
    )
        requires index { index < length jobs.now }
        requires answers { ArePlaced mount.now jobs.now self.old.answers }
        ensures later { IsLaterReader P.known P.with_known self.old.reader self.new.reader }
        ensures answers { ArePlaced mount.now jobs.now self.new.answers }
    {
        let job = &jobs[index];
        gate.before(index);
        let answer = self
            .reader
            .read(alloc, mount, job.path.as_slice(), job.offset, job.len);
        gate.after(index);
        push_answer(&mut self.answers, index, answer);
    }

    /// Does a job, where it is this lane's.
    fn run_job<G: Gate>(
        &mut self,
        alloc: Global,
        mount: &Mount<J>,
        jobs: &[ReadJob],
        index: usize,
        is_own: bool,
        gate: &G,
    )
        requires index { index < length jobs.now }
        requires answers { ArePlaced mount.now jobs.now self.old.answers }
        ensures later { IsLaterReader P.known P.with_known self.old.reader self.new.reader }
        ensures answers { ArePlaced mount.now jobs.now self.new.answers }
    {
        if is_own {
            self.read(alloc, mount, jobs, index, gate);
        }
    }

    /// Tells the reader of the mount, and does each job whose place modulo `lanes` is this lane's.
    fn run<G: Gate>(
        &mut self,
        alloc: Global,
        mount: &Mount<J>,
        jobs: &[ReadJob],
        lane: usize,
        lanes: usize,
        gate: &G,
    )
        requires lanes { 0 < lanes }
        ensures { HasRunBy P.known P.with_known mount.now jobs.now self.old self.new }
    {
        self.answers.clear();
        self.reader.learn(mount);
        for index in 0..jobs.len() {
            self.run_job(alloc, mount, jobs, index, index % lanes == lane, gate);
        }
    }

    /// Puts the reader back into its place, and takes the answers out.
    fn put_back(&mut self, alloc: Global, reader: &mut P) -> Vec<(usize, JobAnswer)>
        requires { IsLater (P.known reader.old) (P.known self.old.reader) }
        ensures reader { reader.new ≡ with_back P.joined P.taken reader.old self.old }
        ensures answers { result.items ≡ self.old.answers }
        ensures lane { self.new ≡ record { reader = P.left self.old.reader; answers = [] } }
    {
        let key = PlaceKey::new();
        reader.put_back(self.reader.take(&key), &key);
        replace(&mut self.answers, Vec::new(alloc))
    }
}

/// Takes readers out of their places, into lanes for which there is room.
fn fill_lanes<J: Volumes, P: FileReader<J>>(
    alloc: Global,
    lanes: &mut Vec<Lane<J, P>>,
    readers: &mut [P],
)
    requires none { lanes.old.items ≡ [] }
    requires room { length readers.old ≤ lanes.old.cap }
    ensures readers { readers.new ≡ map P.left readers.old }
    ensures lanes { lanes.new.items ≡ map (idle P.taken) readers.old }
{
    for index in 0..readers.len() {
        lanes.push_reserved(Lane::new(alloc, &mut readers[index]));
    }
}

/// Takes readers out of their places. All of them stay there, where there is no memory.
fn take_out<J: Volumes, P: FileReader<J>>(
    alloc: Global,
    readers: &mut [P],
) -> Result<Vec<Lane<J, P>>, AllocError>
    ensures readers { OnOk result (readers.new ≡ map P.left readers.old) }
    ensures lanes { IfOk result (λ lanes. lanes.items ≡ map (idle P.taken) readers.old) }
    ensures same { OnErr result (readers.new ≡ readers.old) }
{
    let Ok(mut lanes) = Vec::with_capacity(alloc, readers.len()) else {
        return Err(AllocError);
    };
    fill_lanes(alloc, &mut lanes, readers);
    Ok(lanes)
}

/// Runs each lane in its thread.
fn run_lanes<J: Volumes + Send + Sync, P: FileReader<J> + Send, G: Gate + Sync, R: Threads + Sync>(
    rt: &R,
    alloc: Global,
    lanes: &mut [Lane<J, P>],
    mount: &Mount<J>,
    jobs: &[ReadJob],
    gate: &G,
)
    requires lanes { 0 < length lanes.old }
    ensures { AllZip (HasRunBy P.known P.with_known mount.now jobs.now) lanes.old lanes.new }
{
    let count = lanes.len();
    for_each_mut(
        rt,
        lanes,
        count,
        &|i: usize, lane: &mut Lane<J, P>|
            requires { 0 < count }
            ensures { HasRunBy P.known P.with_known mount.entry.now jobs.entry.now
                lane.entry.now lane.exit.now }
        { lane.run(alloc, mount, jobs, i, count, gate) },
    );
}

// ---- answers

/// As many answers as there are jobs, all of them refused for memory.
fn unanswered(alloc: Global, jobs: &[ReadJob]) -> Result<Vec<JobAnswer>, AllocError>
    ensures { IfOk result (λ answers. answers.items ≡ map no_memory jobs.now) }
{
    jobs.iter().map(|_| Err(VolError::Memory)).collect(alloc)
}

/// Puts an answer to its place.
fn set_answer<J: Volumes>(
    mount: &Mount<J>,
    jobs: &[ReadJob],
    answers: &mut [JobAnswer],
    index: usize,
    answer: JobAnswer,
)
    requires placed { IsPlaced mount.now jobs.now (index, answer) }
    requires answers { AreAnswers mount.now jobs.now answers.old }
    ensures { AreAnswers mount.now jobs.now answers.new }
{
    if index < answers.len() {
        answers[index] = answer;
    }
}

/// Puts answers to their places.
fn place<J: Volumes>(
    mount: &Mount<J>,
    jobs: &[ReadJob],
    answers: &mut [JobAnswer],
    found: Vec<(usize, JobAnswer)>,
)
    requires found { ArePlaced mount.now jobs.now found.items }
    requires answers { AreAnswers mount.now jobs.now answers.old }
    ensures { AreAnswers mount.now jobs.now answers.new }
{
    for (index, answer) in found {
        set_answer(mount, jobs, answers, index, answer);
    }
}

/// Puts the lanes' readers back, and their answers to their places.
fn gather<J: Volumes, P: FileReader<J>>(
    alloc: Global,
    mount: &Mount<J>,
    jobs: &[ReadJob],
    readers: &mut [P],
    lanes: &mut [Lane<J, P>],
    answers: &mut [JobAnswer],
)
    requires count { length lanes.old ≡ length readers.old }
    requires lanes { AreLanesOver P.known mount.now jobs.now readers.old lanes.old }
    requires answers { AreAnswers mount.now jobs.now answers.old }
    ensures readers { readers.new ≡ all_back P.joined P.taken readers.old lanes.old }
    ensures answers { AreAnswers mount.now jobs.now answers.new }
{
    for index in 0..readers.len() {
        let found = lanes[index].put_back(alloc, &mut readers[index]);
        place(mount, jobs, answers, found);
    }
}

/// Readers keep their laws. This says so to its callers, and does nothing.
fn keep_laws<J: Volumes, P: FileReader<J>>()
    ensures { ReaderLaws P.known P.with_known P.taken P.left P.joined }
{}

/// Does jobs by readers at once, each reader in a thread of its own: job j by reader j modulo the number of
/// readers. Each reader is told of the mount first. The answers stand in the order of the jobs. Where no
/// thread can be made, readers take turns.
///
/// # Errors
/// `Memory`, before anything is read. A job has refusals of its own, `Memory` among them.
pub fn read_many<
    J: Volumes + Send + Sync,
    P: FileReader<J> + Send,
    G: Gate + Sync,
    R: Threads + Sync,
>(
    rt: &R,
    alloc: Global,
    readers: &mut [P],
    mount: &Mount<J>,
    jobs: &[ReadJob],
    gate: &G,
) -> Result<Vec<JobAnswer>, VolError>
    requires { 0 < length readers.old }
    ensures answers { IfOk result (λ answers. AreAnswers mount.now jobs.now answers.items) }
    ensures later { AreLaterReaders P.known P.with_known readers.old readers.new }
    ensures learned { OnOk result (HaveLearned P.known mount.now readers.new) }
    ensures refused { IfErr result (λ e. (e ≡ VolError.Memory) × (readers.new ≡ readers.old)) }
{
    keep_laws::<J, P>();
    let Ok(mut answers) = unanswered(alloc, jobs) else {
        return Err(VolError::Memory);
    };
    let Ok(mut taken) = take_out(alloc, readers) else {
        return Err(VolError::Memory);
    };
    let lanes = taken.as_mut_slice();
    run_lanes(rt, alloc, lanes, mount, jobs, gate);
    gather(alloc, mount, jobs, readers, lanes, answers.as_mut_slice());
    Ok(answers)
}
