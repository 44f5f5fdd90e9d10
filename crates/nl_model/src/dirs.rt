//! The file calls that remove and move what directories have, and those that show it.
ghost use Rattle.std.specs.Prelude.{◌≡◌, ◌&&◌};
ghost use Rattle.nl_types.specs.Plain.Paths.{path_of};
ghost use Rattle.nl_types.specs.Plain.Trees.{lookup};
ghost use Rattle.nl_types.specs.Plain.Calls.{IsUnlessMemory, and_then, is_dir, unlink, rmdir, may_replace, is_above, rename, list, stat_of, stat};
ghost use Rattle.nl_model.specs.Model.{rename_onto};

use crate::calls::Changed;
use crate::path::{Name, Path, begins_with, compare, parse};
use crate::tree::{copy, count_in, find, names_in, with_moved, without};
use crate::walks::{expect_dir, file, is_directory, object, walk_to};
use nl_types::{Answer, Items, Named, Object, Stat, VolError};
use std::alloc::Global;

/// Removes a file, by the rules of POSIX's `unlink`. `IsDir` where a directory stands.
pub fn unlink(alloc: Global, entries: &[(Path, Object)], path: &[u8]) -> Changed
    ensures { IsUnlessMemory result (and_then (path_of path.now) (unlink entries.now)) }
{
    let path = parse(alloc, path)?;
    file(alloc, entries, path.as_slice())?;
    let tree = without(alloc, entries, path.as_slice())?;
    Ok((Answer::Done, tree))
}

fn remove_dir(alloc: Global, entries: &[(Path, Object)], path: &[Name]) -> Changed
    ensures { IsUnlessMemory result (rmdir entries.now path.now) }
{
    if path.is_empty() {
        return Err(VolError::BadPath);
    }
    expect_dir(alloc, entries, path)?;
    if count_in(entries, path) > 0 {
        return Err(VolError::NotEmpty);
    }
    let tree = without(alloc, entries, path)?;
    Ok((Answer::Done, tree))
}

/// Removes an empty directory, by the rules of POSIX's `rmdir`. `BadPath` for the root, `NotDir`
/// where a file stands, `NotEmpty` where there are names in it.
pub fn rmdir(alloc: Global, entries: &[(Path, Object)], path: &[u8]) -> Changed
    ensures { IsUnlessMemory result (and_then (path_of path.now) (rmdir entries.now)) }
{
    let path = parse(alloc, path)?;
    remove_dir(alloc, entries, path.as_slice())
}

/// Refuses to replace an object of the other kind, or a directory with names in it.
fn judge_target(entries: &[(Path, Object)], to: &[Name], moved: &Object) -> Result<(), VolError>
    ensures { result ≡ may_replace entries.now to.now moved.now (lookup entries.now to.now) }
{
    match find(entries, to) {
        None => Ok(()),
        Some(Object::Dir) => match moved {
            Object::File(_) => Err(VolError::IsDir),
            Object::Dir => {
                if count_in(entries, to) > 0 {
                    Err(VolError::NotEmpty)
                } else {
                    Ok(())
                }
            }
        },
        Some(Object::File(_)) => match moved {
            Object::File(_) => Ok(()),
            Object::Dir => Err(VolError::NotDir),
        },
    }
}

/// Whether a directory would come to lie below itself.
fn is_into_itself(moved: &Object, from: &[Name], to: &[Name]) -> bool
    ensures { result ≡ (is_dir moved.now && is_above from.now to.now) }
{
    let above = begins_with(to, from) && !compare(from, to).is_eq();
    is_directory(moved) && above
}

/// Moves an object to a path in a directory that stands.
fn move_onto(
    alloc: Global,
    entries: &[(Path, Object)],
    from: &[Name],
    to: &[Name],
    moved: &Object,
) -> Changed
    ensures { IsUnlessMemory result (rename_onto entries.now from.now to.now moved.now) }
{
    if compare(from, to).is_eq() {
        let tree = copy(alloc, entries)?;
        return Ok((Answer::Done, tree));
    }
    judge_target(entries, to, moved)?;
    let tree = with_moved(alloc, entries, from, to)?;
    Ok((Answer::Done, tree))
}

fn move_object(alloc: Global, entries: &[(Path, Object)], from: &[Name], to: &[Name]) -> Changed
    ensures { IsUnlessMemory result (rename entries.now from.now to.now) }
{
    if from.is_empty() || to.is_empty() {
        return Err(VolError::BadPath);
    }
    let moved = object(alloc, entries, from)?;
    if is_into_itself(moved, from, to) {
        return Err(VolError::IntoItself);
    }
    walk_to(alloc, entries, to)?;
    move_onto(alloc, entries, from, to, moved)
}

/// Moves a file, or a directory with all that lies below it, by the rules of POSIX's `rename`: a
/// file or an empty directory at the new path is replaced by one of its kind, and the same path
/// twice changes nothing. `BadPath` for the root, `IntoItself` where a directory would lie below
/// itself, `IsDir` and `NotDir` where the target is of the other kind, `NotEmpty` where it is a
/// directory with names in it.
pub fn rename(alloc: Global, entries: &[(Path, Object)], from: &[u8], to: &[u8]) -> Changed
    ensures { IsUnlessMemory result
        (and_then (path_of from.now) (λ f. and_then (path_of to.now) (rename entries.now f))) }
{
    let from = parse(alloc, from)?;
    let to = parse(alloc, to)?;
    move_object(alloc, entries, from.as_slice(), to.as_slice())
}

/// The names in a directory with their kinds, ascending by bytes, without `.` and `..`, which
/// POSIX's `readdir` may give. `NotDir` where a file stands.
pub fn list(
    alloc: Global,
    entries: &[(Path, Object)],
    path: &[u8],
) -> Result<Items<Named>, VolError>
    ensures { IsUnlessMemory result (and_then (path_of path.now) (list entries.now)) }
{
    let path = parse(alloc, path)?;
    expect_dir(alloc, entries, path.as_slice())?;
    Ok(names_in(alloc, entries, path.as_slice())?)
}

fn stat_of(entries: &[(Path, Object)], path: &[Name], object: &Object) -> Stat
    ensures { result ≡ stat_of entries.now path.now object.now }
{
    match object {
        Object::Dir => Stat::Dir(count_in(entries, path) as u64),
        Object::File(bytes) => Stat::File(bytes.as_slice().len() as u64),
    }
}

/// The size of a file, or the number of names in a directory, after POSIX's `stat`.
pub fn stat(alloc: Global, entries: &[(Path, Object)], path: &[u8]) -> Result<Stat, VolError>
    ensures { IsUnlessMemory result (and_then (path_of path.now) (stat entries.now)) }
{
    let path = parse(alloc, path)?;
    let object = object(alloc, entries, path.as_slice())?;
    Ok(stat_of(entries, path.as_slice(), object))
}
