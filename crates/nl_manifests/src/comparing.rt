//! What differs between two trees of the host.
ghost use Rattle.std.specs.Prelude.{◌≡◌, ◌++◌, [], ◌∷◌, ◌&&◌, not, IfOk, OnOk, Some};
ghost use Rattle.std.specs.FinMap.{find};
ghost use Rattle.std.specs.Option.{option_copied};
ghost use Rattle.nl_types.specs.Plain.Paths.{path_cmp};
ghost use Rattle.nl_manifests.specs.HostDifferences.{are_alike, differences_by, entry_difference, is_of_bytes, object_difference, or_changed, told, told_by, unless};
ghost use Rattle.nl_manifests.specs.Private.Comparing.{TellsFirst, TellsNext};

use crate::attributes::Attributes;
use crate::host_tree::{HostEntry, HostObject};
use crate::looking::Entries;
use nl_folders::{Difference, Path, compare, copied};
use nl_names::Name;
use nl_types::Items;
use std::alloc::{AllocError, Global};
use std::cmp::Ordering;

/// What differs at a path from one tree of the host to another.
#[derive(Clone, Copy)]
pub enum HostDifference {
    /// Nothing stood there.
    Added,
    /// Nothing stands there any more.
    Removed,
    /// A file has other bytes.
    Rewritten,
    /// A directory, a file or a link stands where another of the three stood.
    Replaced,
    /// Its mode or its owners are known to be others, or a link leads elsewhere.
    Changed,
}

/// Whether modes and owners are the same, as far as both are known. Times don't count.
fn are_alike(one: Option<Attributes>, other: Option<Attributes>) -> bool
    ensures { result ≡ are_alike one other }
{
    match (one, other) {
        (Some(one), Some(other)) => {
            one.mode == other.mode && (one.owner == other.owner && one.group == other.group)
        }
        (Some(_), None) => true,
        (None, _) => true,
    }
}

fn unless(is_same: bool, difference: HostDifference) -> Option<HostDifference>
    ensures { result ≡ unless is_same difference }
{
    if is_same { None } else { Some(difference) }
}

/// What differs between two objects. Of files it is known whether their bytes do.
fn object_difference(rewrites: bool, old: &HostObject, new: &HostObject) -> Option<HostDifference>
    ensures { result ≡ object_difference rewrites old.now new.now }
{
    match (old, new) {
        (HostObject::Directory, HostObject::Directory) => None,
        (HostObject::File(_), HostObject::File(_)) => unless(!rewrites, HostDifference::Rewritten),
        (HostObject::Link(old), HostObject::Link(new)) => {
            unless(old.as_slice() == new.as_slice(), HostDifference::Changed)
        }
        (HostObject::Directory, HostObject::File(_)) => Some(HostDifference::Replaced),
        (HostObject::Directory, HostObject::Link(_)) => Some(HostDifference::Replaced),
        (HostObject::File(_), HostObject::Directory) => Some(HostDifference::Replaced),
        (HostObject::File(_), HostObject::Link(_)) => Some(HostDifference::Replaced),
        (HostObject::Link(_), HostObject::Directory) => Some(HostDifference::Replaced),
        (HostObject::Link(_), HostObject::File(_)) => Some(HostDifference::Replaced),
    }
}

/// The same, or else whether attributes differ.
fn or_changed(difference: Option<HostDifference>, are_alike: bool) -> Option<HostDifference>
    ensures { result ≡ or_changed difference are_alike }
{
    match difference {
        Some(difference) => Some(difference),
        None => unless(are_alike, HostDifference::Changed),
    }
}

/// What differs between two entries.
fn entry_difference(rewrites: bool, old: &HostEntry, new: &HostEntry) -> Option<HostDifference>
    ensures { result ≡ entry_difference rewrites old.now new.now }
{
    let difference = object_difference(rewrites, &old.object, &new.object);
    or_changed(difference, are_alike(old.attributes, new.attributes))
}

type Differences = Items<(Path, HostDifference)>;

fn add(
    alloc: Global,
    path: &[Name],
    difference: HostDifference,
    all: &mut Differences,
) -> Result<(), AllocError>
    ensures { OnOk result (all.new ≡ all.old ++ (path.now, difference) ∷ []) }
{
    let path = copied(alloc, path)?;
    all.push((path, difference))
}

fn add_if(
    alloc: Global,
    path: &[Name],
    difference: Option<HostDifference>,
    all: &mut Differences,
) -> Result<(), AllocError>
    ensures { OnOk result (all.new ≡ all.old ++ told path.now difference) }
{
    match difference {
        None => Ok(()),
        Some(difference) => add(alloc, path, difference, all),
    }
}

/// How many entries of each tree are told of.
#[derive(Clone, Copy)]
struct Passed {
    in_old: usize,
    in_new: usize,
}

const OLD: Passed = Passed {
    in_old: 1,
    in_new: 0,
};

const NEW: Passed = Passed {
    in_old: 0,
    in_new: 1,
};

const BOTH: Passed = Passed {
    in_old: 1,
    in_new: 1,
};

fn is_of_bytes(difference: Option<&Difference>) -> bool
    ensures { result ≡ is_of_bytes (option_copied difference.entry) }
{
    match difference {
        None => false,
        Some(Difference::Added) => false,
        Some(Difference::Removed) => false,
        Some(Difference::Rewritten) => true,
        Some(Difference::Replaced) => false,
    }
}

/// Adds what differs between two entries of a path.
fn add_between(
    alloc: Global,
    path: &[Name],
    old: &HostEntry,
    new: &HostEntry,
    of_objects: &Entries<'_, Difference>,
    all: &mut Differences,
) -> Result<(), AllocError>
    ensures { OnOk result (all.new ≡ all.old ++ told path.now
        (entry_difference (is_of_bytes (find path_cmp path.now of_objects.now.all.now)) old.now new.now)) }
{
    let rewrites = is_of_bytes(of_objects.found(path));
    let difference = entry_difference(rewrites, old, new);
    add_if(alloc, path, difference, all)
}

/// Adds what differs at the least path of both trees. None where nothing is left of them.
fn add_first(
    alloc: Global,
    old: &[(Path, HostEntry)],
    new: &[(Path, HostEntry)],
    of_objects: &Entries<'_, Difference>,
    all: &mut Differences,
) -> Result<Option<Passed>, AllocError>
    ensures { IfOk result (TellsNext (told_by of_objects.now.all.now) old.now new.now all.old all.new) }
{
    match (old, new) {
        ([], []) => Ok(None),
        ([], [f, ..]) => {
            add(alloc, f.0.as_slice(), HostDifference::Added, all)?;
            Ok(Some(NEW))
        }
        ([e, ..], []) => {
            add(alloc, e.0.as_slice(), HostDifference::Removed, all)?;
            Ok(Some(OLD))
        }
        ([e, ..], [f, ..]) => match compare(e.0.as_slice(), f.0.as_slice()) {
            Ordering::Less => {
                add(alloc, e.0.as_slice(), HostDifference::Removed, all)?;
                Ok(Some(OLD))
            }
            Ordering::Equal => {
                add_between(alloc, e.0.as_slice(), &e.1, &f.1, of_objects, all)?;
                Ok(Some(BOTH))
            }
            Ordering::Greater => {
                add(alloc, f.0.as_slice(), HostDifference::Added, all)?;
                Ok(Some(NEW))
            }
        },
    }
}

/// All that differs from one tree of the host to another, in the order of the paths. Which files have other
/// bytes is told by what differs between the trees of a volume that show the two, so bytes of files don't count
/// here.
///
/// # Errors
/// Memory.
pub fn host_differences(
    alloc: Global,
    old: &[(Path, HostEntry)],
    new: &[(Path, HostEntry)],
    of_objects: &[(Path, Difference)],
) -> Result<Items<(Path, HostDifference)>, AllocError>
    ensures { IfOk result (λ all. all ≡ differences_by (told_by of_objects.now) old.now new.now) }
{
    let of_objects = Entries::of(of_objects);
    let mut all = Items::new(alloc);
    let mut in_old = 0;
    let mut in_new = 0;
    while let Some(passed) = add_first(
        alloc,
        &old[in_old..],
        &new[in_new..],
        &of_objects,
        &mut all,
    )? {
        in_old += passed.in_old;
        in_new += passed.in_new;
    }
    Ok(all)
}
