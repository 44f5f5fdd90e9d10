//! Ports that read files side by side, each in a thread of its own.
ghost use Rattle.std.specs.Prelude.{◌≡◌, IfOk, IsOkUnless, map};
ghost use Rattle.std.specs.List.{position_or_len};
ghost use Rattle.nl_types.specs.Plain.Calls.{IsUnlessMemory, ShowsUnlessMemory};
ghost use Rattle.nl_types.specs.Plain.Worlds.{Reply};
ghost use Rattle.nl_types.specs.declared.reply.Answer.TheVariants as answered;
ghost use Rattle.nl_script.specs.FileReads.{AreFirstFiles, is_bad_mount, job_of, reply_of};

use nl_publish::{FileReader, Gate, JobAnswer, Mount, ReadJob, Volumes, read_many};
use nl_types::limits::FILE_LIMIT;
use nl_types::{Answer, Items, Reply, VolError};
use std::alloc::{AllocError, Global};
use std::thread::Threads;

/// What reads files side by side.
#[derive(Drop)]
pub struct Readers<'a, P, R> {
    /// What makes threads.
    pub rt: &'a R,
    /// Ports of the volume whose mounts are read, each for a thread of its own.
    pub ports: Vec<P>,
}

/// Nothing stands round a read.
struct Open;

impl Gate for Open {
    fn before(&self, _: usize) {}

    fn after(&self, _: usize) {}
}

/// A read of each file.
fn jobs_of(alloc: Global, paths: &[Items<u8>]) -> Result<Vec<ReadJob>, AllocError>
    ensures { IfOk result (λ jobs. jobs.items ≡ map job_of paths.now) }
{
    let mut jobs = Vec::with_capacity(alloc, paths.len())?;
    for path in paths {
        jobs.push(ReadJob {
            path: Items::from_slice(alloc, path.as_slice())?,
            offset: 0,
            len: FILE_LIMIT,
        })?;
    }
    Ok(jobs)
}

/// The answer of a port, as a reply.
pub fn reply_of(answer: JobAnswer) -> Reply
    ensures reply { result ≡ reply_of answer }
    ensures shows { (expected : Reply) → ShowsUnlessMemory answered.Bytes answer expected
        → IsUnlessMemory result expected }
{
    Ok(Answer::Bytes(answer?))
}

fn replies_of(alloc: Global, answers: Vec<JobAnswer>) -> Result<Vec<Reply>, AllocError>
    ensures { IfOk result (λ replies. replies.items ≡ map reply_of answers.items) }
{
    answers.into_iter().map(reply_of).collect(alloc)
}

/// Whether a reply is that the mount isn't found.
pub fn is_bad_mount(reply: &Reply) -> bool
    ensures { result ≡ is_bad_mount reply.now }
{
    matches!(reply, Err(VolError::BadMount))
}

/// How many replies stand before one that the mount isn't found.
fn count_found(replies: &[Reply]) -> usize
    ensures { result ≡ position_or_len is_bad_mount replies.now }
{
    for (index, reply) in replies.iter().enumerate() {
        if is_bad_mount(reply) {
            return index;
        }
    }
    replies.len()
}

impl<P, R: Threads + Sync> Readers<'_, P, R> {
    /// Reads whole files of a mount side by side, and answers the first of them: those before one whose port
    /// doesn't find the mount, and none without ports.
    ///
    /// # Errors
    /// `Memory`. Each file has refusals of its own.
    pub(crate) fn read_files<J: Volumes + Send + Sync>(
        &mut self,
        alloc: Global,
        mount: &Mount<J>,
        paths: &[Items<u8>],
    ) -> Result<Vec<Reply>, VolError>
    where
        P: FileReader<J> + Send,
        ensures files { IfOk result (λ replies. AreFirstFiles mount.now paths.now replies.items) }
        ensures refused { IsOkUnless result VolError.Memory }
    {
        let ports = self.ports.as_mut_slice();
        if ports.is_empty() {
            return Ok(Vec::new(alloc));
        }
        let jobs = jobs_of(alloc, paths)?;
        let answers = read_many(self.rt, alloc, ports, mount, jobs.as_slice(), &Open)?;
        let mut replies = replies_of(alloc, answers)?;
        let found = count_found(replies.as_slice());
        replies.truncate(found);
        Ok(replies)
    }
}
