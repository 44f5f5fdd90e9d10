//! What stands at a path of a tree, or why a call is refused there.
ghost use Rattle.std.specs.Prelude.{◌≡◌};
ghost use Rattle.nl_types.specs.Plain.Trees.{lookup};
ghost use Rattle.nl_types.specs.Plain.Calls.{IsUnlessMemory, ShowsUnlessMemory, ok_unless, stops_walk, stop_from, walk, object_at, file_at, dir_at, is_dir};

use crate::path::{Name, Path, push_name};
use crate::tree::find;
use nl_types::{Items, Object, VolError};
use std::alloc::Global;

/// Refuses to walk into what is no directory.
fn judge_step(entries: &[(Path, Object)], walked: &[Name]) -> Result<(), VolError>
    ensures { result ≡ ok_unless (stops_walk (lookup entries.now walked.now)) }
{
    match find(entries, walked) {
        None => Err(VolError::NotFound),
        Some(Object::File(_)) => Err(VolError::NotDir),
        Some(Object::Dir) => Ok(()),
    }
}

/// Goes on with a walk that has come to `walked`, to the directory of the path.
fn go_on(
    alloc: Global,
    entries: &[(Path, Object)],
    walked: &mut Path,
    names: &[Name],
) -> Result<(), VolError>
    ensures { IsUnlessMemory result (ok_unless (stop_from entries.now walked.old names.now)) }
{
    match names {
        [] => Ok(()),
        [name, names @ ..] => {
            judge_step(entries, walked.as_slice())?;
            push_name(alloc, walked, name.as_slice())?;
            go_on(alloc, entries, walked, names)
        }
    }
}

/// POSIX's pathname resolution, up to the directory of a path: each name before the last has to
/// stand, else `NotFound`, and be a directory, else `NotDir`.
pub fn walk_to(alloc: Global, entries: &[(Path, Object)], path: &[Name]) -> Result<(), VolError>
    ensures { IsUnlessMemory result (walk entries.now path.now) }
{
    let mut walked = Items::new(alloc);
    go_on(alloc, entries, &mut walked, path)
}

pub fn object<'a>(
    alloc: Global,
    entries: &'a [(Path, Object)],
    path: &[Name],
) -> Result<&'a Object, VolError>
    ensures { ShowsUnlessMemory (λ object. object.now) result (object_at entries.now path.now) }
{
    walk_to(alloc, entries, path)?;
    match find(entries, path) {
        Some(object) => Ok(object),
        None => Err(VolError::NotFound),
    }
}

pub fn file<'a>(
    alloc: Global,
    entries: &'a [(Path, Object)],
    path: &[Name],
) -> Result<&'a [u8], VolError>
    ensures { ShowsUnlessMemory (λ bytes. bytes.now) result (file_at entries.now path.now) }
{
    match object(alloc, entries, path)? {
        Object::Dir => Err(VolError::IsDir),
        Object::File(bytes) => Ok(bytes.as_slice()),
    }
}

/// Refuses what is not a directory.
pub fn expect_dir(alloc: Global, entries: &[(Path, Object)], path: &[Name]) -> Result<(), VolError>
    ensures { IsUnlessMemory result (dir_at entries.now path.now) }
{
    match object(alloc, entries, path)? {
        Object::Dir => Ok(()),
        Object::File(_) => Err(VolError::NotDir),
    }
}

pub fn is_directory(object: &Object) -> bool
    ensures { result ≡ is_dir object.now }
{
    match object {
        Object::Dir => true,
        Object::File(_) => false,
    }
}
