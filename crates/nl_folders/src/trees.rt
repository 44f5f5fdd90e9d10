//! A tree as the list of its entries, in the order of their paths.
ghost use Rattle.std.specs.Prelude.{◌≡◌, ◌++◌, [], ◌∷◌, IsTrue, IfOk, OnOk};
ghost use Rattle.std.specs.Option.{option_copied};
ghost use Rattle.nl_types.specs.Plain.Trees.{lookup};
ghost use Rattle.nl_folders.specs.Differences.{same_kind, same_object, rising};
ghost use Rattle.nl_folders.specs.Parts.{part_below};

use crate::paths::{Path, begins_with, compare, copied};
use nl_names::Name;
use nl_types::limits::PATH_LIMIT;
use nl_types::{Items, Object};
use std::alloc::{AllocError, Global};

/// The directories and files of a folder with their paths, ascending. The root is among them.
pub type Tree = Items<(Path, Object)>;

/// The most paths of a tree, the root's included.
pub(crate) const MOST_PATHS: usize = PATH_LIMIT + 1;

/// Whether the entries stand in the order of their paths, none twice.
pub fn is_in_order(entries: &[(Path, Object)]) -> bool
    ensures { result ≡ rising entries.now }
{
    for at in 1..entries.len() {
        let earlier = &entries[at - 1];
        let later = &entries[at];
        if !compare(earlier.0.as_slice(), later.0.as_slice()).is_lt() {
            return false;
        }
    }
    true
}

/// What stands at a path. It looks at one entry after another.
pub fn found_at<'a>(entries: &'a [(Path, Object)], path: &[Name]) -> Option<&'a Object>
    ensures { option_copied result ≡ lookup entries.now path.now }
{
    for entry in entries {
        if compare(path, entry.0.as_slice()).is_eq() {
            return Some(&entry.1);
        }
    }
    None
}

/// Whether two objects are both directories or both files.
pub fn is_same_kind(a: &Object, b: &Object) -> bool
    ensures { result ≡ same_kind a.now b.now }
{
    match (a, b) {
        (Object::Dir, Object::Dir) => true,
        (Object::File(_), Object::File(_)) => true,
        (Object::Dir, Object::File(_)) => false,
        (Object::File(_), Object::Dir) => false,
    }
}

/// Whether two objects are one, a file by all its bytes.
pub fn is_same_object(a: &Object, b: &Object) -> bool
    ensures { result ≡ same_object a.now b.now }
{
    match (a, b) {
        (Object::Dir, Object::Dir) => true,
        (Object::File(one), Object::File(other)) => one.as_slice() == other.as_slice(),
        (Object::Dir, Object::File(_)) => false,
        (Object::File(_), Object::Dir) => false,
    }
}

/// Adds an entry, if it lies at a path or below it.
fn add_below<T: Drop>(
    alloc: Global,
    entry: (Path, T),
    top: &[Name],
    part: &mut Items<(Path, T)>,
) -> Result<(), AllocError>
    ensures { OnOk result (part.new ≡ part.old ++ part_below (entry ∷ []) top.now) }
{
    let (path, object) = entry;
    if !begins_with(path.as_slice(), top) {
        return Ok(());
    }
    let rest = copied(alloc, &path.as_slice()[top.len()..])?;
    part.push((rest, object))
}

/// The entries that lie at a path or below it, with what is left of their paths there.
pub fn part_below<T: Drop>(
    alloc: Global,
    entries: Items<(Path, T)>,
    top: &[Name],
) -> Result<Items<(Path, T)>, AllocError>
    ensures { IfOk result (λ part. part ≡ part_below entries top.now) }
{
    let mut part = Items::new(alloc);
    for entry in entries.into_vec() {
        add_below(alloc, entry, top, &mut part)?;
    }
    Ok(part)
}
