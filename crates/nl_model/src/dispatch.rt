//! What is asked of a tree, by the call that does it.
ghost use Rattle.std.specs.Prelude.{◌≡◌, Ok};
ghost use Rattle.nl_types.specs.Plain.Paths.{path_of};
ghost use Rattle.nl_types.specs.Plain.Calls.{IsUnlessMemory, and_then, change, is_dirtying, list, stat, reply_to};

use crate::calls::{Changed, create, mkdir, read, truncate, write};
use crate::dirs::{list, rename, rmdir, stat, unlink};
use crate::path::Path;
use nl_types::{Answer, Ask, Change, Object, Reply};
use std::alloc::Global;

/// Makes a change.
pub fn make(alloc: Global, entries: &[(Path, Object)], asked: &Change) -> Changed
    ensures { IsUnlessMemory result (change entries.now asked.now) }
{
    match asked {
        Change::Create { path } => create(alloc, entries, path.as_slice()),
        Change::Mkdir { path } => mkdir(alloc, entries, path.as_slice()),
        Change::Write {
            path,
            offset,
            bytes,
        } => write(alloc, entries, path.as_slice(), *offset, bytes.as_slice()),
        Change::Truncate { path, size } => truncate(alloc, entries, path.as_slice(), *size),
        Change::Unlink { path } => unlink(alloc, entries, path.as_slice()),
        Change::Rmdir { path } => rmdir(alloc, entries, path.as_slice()),
        Change::Rename { from, to } => rename(alloc, entries, from.as_slice(), to.as_slice()),
    }
}

/// Whether a change that is not refused counts as one.
pub fn marks_dirty(asked: &Change) -> bool
    ensures { result ≡ is_dirtying asked.now }
{
    match asked {
        Change::Write { bytes, .. } => !bytes.as_slice().is_empty(),
        Change::Rename { from, to } => from.as_slice() != to.as_slice(),
        _ => true,
    }
}

/// The names in a directory, as an answer.
fn answer_names(alloc: Global, entries: &[(Path, Object)], path: &[u8]) -> Reply
    ensures { IsUnlessMemory result
        (and_then (and_then (path_of path.now) (list entries.now)) (λ names. Ok (Answer.Names names))) }
{
    Ok(Answer::Names(list(alloc, entries, path)?))
}

/// What stands at a path, as an answer.
fn answer_stat(alloc: Global, entries: &[(Path, Object)], path: &[u8]) -> Reply
    ensures { IsUnlessMemory result
        (and_then (and_then (path_of path.now) (stat entries.now)) (λ found. Ok (Answer.Stat found))) }
{
    Ok(Answer::Stat(stat(alloc, entries, path)?))
}

/// What a tree answers.
pub fn reply(alloc: Global, entries: &[(Path, Object)], asked: &Ask) -> Reply
    ensures { IsUnlessMemory result (reply_to entries.now asked.now) }
{
    match asked {
        Ask::Bytes { path, offset, len } => read(alloc, entries, path.as_slice(), *offset, *len),
        Ask::List { path } => answer_names(alloc, entries, path.as_slice()),
        Ask::Stat { path } => answer_stat(alloc, entries, path.as_slice()),
    }
}
