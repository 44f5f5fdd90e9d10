//! The file calls, each as a function from a tree to an answer and the next tree.
ghost use Rattle.std.specs.Prelude.{◌≡◌, []};
ghost use Rattle.nl_types.specs.declared.reply.Object.TheVariants.{File};
ghost use Rattle.nl_types.specs.Plain.Paths.{path_of};
ghost use Rattle.nl_types.specs.Plain.Calls.{IsUnlessMemory, and_then, create, mkdir, write, truncate, read};

use crate::bytes::{part, with_over, with_size};
use crate::path::{Name, Path, parse};
use crate::tree::{Tree, copy, find, with, with_file};
use crate::walks::{file, walk_to};
use nl_types::limits::{FILE_LIMIT, PATH_LIMIT};
use nl_types::{Answer, Items, Object, Reply, VolError};
use std::alloc::Global;

/// What a change answers, and the tree that it leaves.
pub type Changed = Result<(Answer, Tree), VolError>;

fn create_object(
    alloc: Global,
    entries: &[(Path, Object)],
    object: &Object,
    path: &[Name],
) -> Changed
    ensures { IsUnlessMemory result (create entries.now object.now path.now) }
{
    walk_to(alloc, entries, path)?;
    if find(entries, path).is_some() {
        return Err(VolError::Exists);
    }
    if entries.len() > PATH_LIMIT {
        return Err(VolError::TooBig);
    }
    let tree = with(alloc, entries, path, object)?;
    Ok((Answer::Done, tree))
}

/// Makes an empty file, by the rules of POSIX's `open` with `O_CREAT` and `O_EXCL`: `Exists` where
/// something stands, `TooBig` where the volume has its most paths.
pub fn create(alloc: Global, entries: &[(Path, Object)], path: &[u8]) -> Changed
    ensures { IsUnlessMemory result (and_then (path_of path.now) (create entries.now (File []))) }
{
    let path = parse(alloc, path)?;
    let empty = Object::File(Items::new(alloc));
    create_object(alloc, entries, &empty, path.as_slice())
}

/// Makes an empty directory, by the rules of POSIX's `mkdir`. Refused as a create is.
pub fn mkdir(alloc: Global, entries: &[(Path, Object)], path: &[u8]) -> Changed
    ensures { IsUnlessMemory result (and_then (path_of path.now) (mkdir entries.now)) }
{
    let path = parse(alloc, path)?;
    create_object(alloc, entries, &Object::Dir, path.as_slice())
}

fn write_bytes(
    alloc: Global,
    entries: &[(Path, Object)],
    offset: u64,
    new: &[u8],
    path: &[Name],
) -> Changed
    ensures { IsUnlessMemory result (write entries.now offset new.now path.now) }
{
    let bytes = file(alloc, entries, path)?;
    if new.is_empty() {
        let tree = copy(alloc, entries)?;
        return Ok((Answer::Written(0), tree));
    }
    let count = new.len() as u64;
    if offset > FILE_LIMIT || offset + count > FILE_LIMIT {
        return Err(VolError::TooBig);
    }
    let all = with_over(alloc, bytes, offset as usize, new)?;
    let tree = with_file(alloc, entries, path, all)?;
    Ok((Answer::Written(count), tree))
}

/// Writes bytes over those from an offset on, by the rules of POSIX's `pwrite`: where the offset is
/// past the end, zeros stand between. No bytes change nothing. `IsDir` where a directory stands,
/// `TooBig` where the file would pass its limit.
pub fn write(
    alloc: Global,
    entries: &[(Path, Object)],
    path: &[u8],
    offset: u64,
    new: &[u8],
) -> Changed
    ensures { IsUnlessMemory result (and_then (path_of path.now) (write entries.now offset new.now)) }
{
    let path = parse(alloc, path)?;
    write_bytes(alloc, entries, offset, new, path.as_slice())
}

fn truncate_file(alloc: Global, entries: &[(Path, Object)], size: u64, path: &[Name]) -> Changed
    ensures { IsUnlessMemory result (truncate entries.now size path.now) }
{
    let bytes = file(alloc, entries, path)?;
    if size > FILE_LIMIT {
        return Err(VolError::TooBig);
    }
    let all = with_size(alloc, bytes, size as usize)?;
    let tree = with_file(alloc, entries, path, all)?;
    Ok((Answer::Done, tree))
}

/// Sets where a file ends, by the rules of POSIX's `truncate`: bytes past a shorter end are gone,
/// and a longer one shows zeros. `IsDir` where a directory stands, `TooBig` past the limit.
pub fn truncate(alloc: Global, entries: &[(Path, Object)], path: &[u8], size: u64) -> Changed
    ensures { IsUnlessMemory result (and_then (path_of path.now) (truncate entries.now size)) }
{
    let path = parse(alloc, path)?;
    truncate_file(alloc, entries, size, path.as_slice())
}

fn read_bytes(
    alloc: Global,
    entries: &[(Path, Object)],
    offset: u64,
    len: u64,
    path: &[Name],
) -> Reply
    ensures { IsUnlessMemory result (read entries.now offset len path.now) }
{
    let bytes = file(alloc, entries, path)?;
    let found = Items::from_slice(alloc, part(bytes, offset, len))?;
    Ok(Answer::Bytes(found))
}

/// At most `len` bytes from an offset on, by the rules of POSIX's `pread`: there are none at and
/// past the end. `IsDir` where a directory stands.
pub fn read(alloc: Global, entries: &[(Path, Object)], path: &[u8], offset: u64, len: u64) -> Reply
    ensures { IsUnlessMemory result (and_then (path_of path.now) (read entries.now offset len)) }
{
    let path = parse(alloc, path)?;
    read_bytes(alloc, entries, offset, len, path.as_slice())
}
