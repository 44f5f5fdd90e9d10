//! Whether file calls can make a tree of entries.
ghost use Rattle.std.specs.Prelude.{◌≡◌, ◌≤◌, length, true, IfErr, OnOk};
ghost use Rattle.std.specs.List.{list_all};
ghost use Rattle.std.specs.Ordering.{is_lt};
ghost use Rattle.nl_types.specs.Plain.Calls.{is_dir};
ghost use Rattle.nl_types.specs.Plain.Paths.{name_cmp, same_name};
ghost use Rattle.nl_folders.specs.Spelled.{IsNameable};
ghost use Rattle.nl_keep.specs.Refusals.{RefusesEntries, RefusesEntry};
ghost use Rattle.nl_keep.specs.Private.Judged.{all_follow, follows, is_entry, is_rooted, is_small, is_spelled};

use crate::asking::are_names;
use crate::storing::KeepError;
use nl_folders::Path;
use nl_names::Name;
use nl_types::limits::{FILE_LIMIT, PATH_LENGTH_LIMIT, PATH_LIMIT};
use nl_types::{Object, VolError};

/// The most paths of a tree, the root's included.
const MOST_PATHS: usize = PATH_LIMIT + 1;

// ---- an entry

/// Whether names take at most so many bytes, each with a slash.
fn is_spelled(path: &[Name], room: usize) -> bool
    ensures { result ≡ is_spelled room path.now }
{
    match path {
        [] => true,
        [name, rest @ ..] => {
            let count = name.len();
            count < room && is_spelled(rest, room - count - 1)
        }
    }
}

fn is_small(object: &Object) -> bool
    ensures { result ≡ is_small object.now }
{
    match object {
        Object::Dir => true,
        Object::File(bytes) => bytes.len() <= FILE_LIMIT as usize,
    }
}

/// Judges an entry by itself. Refused by `BadName` where a name may not stand in a path, `BadPath` where the
/// path is too long, `TooBig` where the file is.
fn judge_entry(entry: &(Path, Object)) -> Result<(), VolError>
    ensures entry { OnOk result (is_entry entry.now ≡ true) }
    ensures refused { IfErr result (RefusesEntry entry.now) }
{
    let path = entry.0.as_slice();
    if !are_names(path) {
        return Err(VolError::BadName);
    }
    if !is_spelled(path, PATH_LENGTH_LIMIT) {
        return Err(VolError::BadPath);
    }
    if !is_small(&entry.1) {
        return Err(VolError::TooBig);
    }
    Ok(())
}

/// Judges each entry by itself, and how many there are.
fn judge_entries(entries: &[(Path, Object)]) -> Result<(), VolError>
    ensures each { OnOk result (list_all is_entry entries.now ≡ true) }
    ensures count { OnOk result (length entries.now ≤ 524278) }
    ensures refused { IfErr result (λ e. RefusesEntries entries.now (KeepError.Refused e)) }
{
    if entries.len() > MOST_PATHS {
        return Err(VolError::TooBig);
    }
    for entry in entries {
        judge_entry(entry)?;
    }
    Ok(())
}

// ---- one entry behind another

/// Whether one name comes before another, by bytes.
fn is_before(one: &Name, other: &Name) -> bool
    ensures { result ≡ is_lt (name_cmp one.now other.now) }
{
    one.as_slice().cmp(&other.as_slice()).is_lt()
}

fn is_same(one: &Name, other: &Name) -> bool
    ensures { result ≡ same_name one.now other.now }
{
    one.as_slice().cmp(&other.as_slice()).is_eq()
}

/// Whether a path is that of a name in an earlier one, where a directory stands, or comes behind it in a
/// directory above it.
#[tactic(auto, using(crate::proofs::Judgements::ends))]
fn follows(is_directory: bool, earlier: &[Name], later: &[Name]) -> bool
    ensures { result ≡ follows is_directory earlier.now later.now }
{
    match (earlier, later) {
        (_, []) => false,
        ([], [_]) => is_directory,
        ([], [_, _, ..]) => false,
        ([first, ..], [name]) => is_before(first, name),
        ([first, earlier @ ..], [name, later @ ..]) => {
            is_same(first, name) && follows(is_directory, earlier, later)
        }
    }
}

fn is_directory(object: &Object) -> bool
    ensures { result ≡ is_dir object.now }
{
    match object {
        Object::Dir => true,
        Object::File(_) => false,
    }
}

/// Whether each entry follows the one before it.
fn all_follow(first: &(Path, Object), entries: &[(Path, Object)]) -> bool
    ensures { result ≡ all_follow first.now entries.now }
{
    let mut earlier = first;
    for later in entries {
        if !follows(
            is_directory(&earlier.1),
            earlier.0.as_slice(),
            later.0.as_slice(),
        ) {
            return false;
        }
        earlier = later;
    }
    true
}

/// Whether the first entry is the root, a directory, and each other one follows the one before it.
fn is_rooted(entries: &[(Path, Object)]) -> bool
    ensures { result ≡ is_rooted entries.now }
{
    match entries {
        [] => false,
        [first, rest @ ..] => {
            first.0.is_empty() && is_directory(&first.1) && all_follow(first, rest)
        }
    }
}

/// Judges whether calls can make a tree of these entries: they are one, and no path is too long for a call.
/// Refused by `Disordered` where they are none, `BadName`, `BadPath` or `TooBig` where a name, a path or a
/// file is, and `TooBig` where there are too many.
pub(crate) fn judge_tree(entries: &[(Path, Object)]) -> Result<(), KeepError>
    ensures nameable { OnOk result (IsNameable entries.now) }
    ensures refused { IfErr result (RefusesEntries entries.now) }
{
    judge_entries(entries)?;
    if is_rooted(entries) {
        Ok(())
    } else {
        Err(KeepError::Disordered)
    }
}
